// The body of a DODAG Configuration, and of an RREQ or RREP: a word of it, H and Compr, and whether it is good (01, "Octets on the air").
// Fields of bits are taken by / and %, as the rules' `fields` tells them: shifts and masks would need laws of their own.
#![tactic(auto)]

ghost use Rattle.std.specs.Prelude.{◌≡◌};
ghost use Rattle.plain.specs.Octets.{word_at, bad_configuration, h_of, compr_of, bad_route};

// The 16-bit word that starts at octet i, with 0 past the end.
pub fn word_at(octets: &[u8], i: u8) -> u16
    ensures { result ≡ word_at octets.now i }
{
    let first = usize::from(i);
    u16::from_be_bytes([
        art::octet_at(octets, first),
        art::octet_at(octets, first + 1),
    ])
}

// Whether a DODAG Configuration has another length than 14, or a 0 where none may be.
#[tactic(auto, using(lemmas::proofs::Cases::cases), unfolding(plain::specs::Octets::bad_configuration))]
pub fn is_bad_configuration(body: &[u8]) -> bool
    ensures { result ≡ bad_configuration body.now }
{
    body.len() != 14
        || word_at(body, 6) == 0
        || art::octet_at(body, 11) == 0
        || word_at(body, 12) == 0
}

// H of an RREQ or RREP.
#[tactic(auto, using(lemmas::proofs::Cases::cases), unfolding(plain::specs::Octets::fields, plain::specs::Octets::sum))]
pub fn has_h(body: &[u8]) -> bool
    ensures { result ≡ h_of body.now }
{
    word_at(body, 0) / 16384 % 2 == 1
}

// Compr of an RREQ or RREP, which H 1 makes 0.
#[tactic(auto, using(crate::proofs::Laws::compr_is, lemmas::proofs::Cases::cases), unfolding(plain::specs::Octets::fields, plain::specs::Octets::sum))]
pub fn compr_of(body: &[u8]) -> u8
    ensures { result ≡ compr_of body.now }
{
    if has_h(body) {
        0
    } else {
        // four bits, so that nothing is lost: `try_from` would bring a Result that cannot be Err
        (word_at(body, 0) / 512 % 16) as u8
    }
}

// Whether an RREQ or RREP is too short, has a vector with H 1, or a vector that is no whole number of addresses.
#[tactic(auto, using(crate::proofs::Laws::compr_below, crate::proofs::Laws::vector_is, lemmas::proofs::Cases::cases), unfolding(plain::specs::Octets::bad_route))]
pub fn is_bad_route(body: &[u8]) -> bool
    ensures { result ≡ bad_route body.now }
{
    if body.len() < 3 {
        true
    } else if has_h(body) {
        3 < body.len()
    } else {
        let width = 16 - usize::from(compr_of(body));
        (body.len() - 3) % width != 0
    }
}
