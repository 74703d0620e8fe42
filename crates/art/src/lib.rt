// The body of an ART, the option that carries a target (01, "Octets on the air"), and two targets compared.
#![tactic(auto)]

ghost use Rattle.std.specs.Prelude.{◌≡◌, false};
ghost use Rattle.plain.specs.Octets.{octet_at, prefix_bits, prefix_octets, plen_of, bad_art, target_of, same_target};

use plain::Target;

// Octet number i, 0 past the end.
pub fn octet_at(octets: &[u8], i: usize) -> u8
    ensures { result ≡ octet_at octets.now i }
{
    octets.get(i).copied().unwrap_or(0)
}

// How many bits a Prefix Length stands for.
#[tactic(auto, using(lemmas::proofs::Cases::cases))]
pub fn prefix_bits(plen: u8) -> u8
    ensures { result ≡ prefix_bits plen }
{
    if plen == 0 { 128 } else { plen }
}

// How many octets hold them.
pub fn prefix_octets(plen: u8) -> usize
    ensures { result ≡ prefix_octets plen }
{
    usize::from(prefix_bits(plen)).div_ceil(8)
}

// The Prefix Length of an ART.
#[tactic(auto, using(lemmas::proofs::Cases::cases), unfolding(plain::specs::Octets::fields, plain::specs::Octets::sum))]
pub fn prefix_length(body: &[u8]) -> u8
    ensures { result ≡ plen_of body.now }
{
    octet_at(body, 1) % 128
}

// Whether an ART has another size than its Prefix Length says.
#[tactic(auto, using(lemmas::proofs::Rules::most_octets_lem, lemmas::proofs::Targets::plen_below, lemmas::proofs::Cases::cases), unfolding(plain::specs::Octets::bad_art))]
pub fn is_bad_art(body: &[u8]) -> bool
    ensures { result ≡ bad_art body.now }
{
    body.len() < 2 || body.len() != 2 + prefix_octets(prefix_length(body))
}

// The target of an ART, with spare bits 0.
#[tactic(auto, using(lemmas::proofs::Cases::cases, crate::proofs::Laws::art_size), unfolding(plain::specs::Octets::target_of))]
pub fn read_target(body: &[u8]) -> Target
    requires { bad_art body.now ≡ false }
    ensures { result ≡ target_of body.now }
{
    let plen = prefix_length(body);
    let mut sent = [0u8; 16];
    octets::put_over(&mut sent, 0, &body[2..]);
    Target {
        seq: octet_at(body, 0),
        plen,
        addr: address::first_bits(prefix_bits(plen), sent),
    }
}

// Whether two targets have the same prefix length and meaningful bits. Both are borrowed: copied for each pair, a start with a thousand targets
// took half as long again.
#[tactic(auto, using(lemmas::proofs::Cases::cases), unfolding(plain::specs::Octets::same_target))]
pub fn is_same_target(a: &Target, b: &Target) -> bool
    ensures { result ≡ same_target a.now b.now }
{
    a.plen == b.plen && address::do_agree(prefix_bits(a.plen), a.addr, b.addr)
}

// The same, of targets by value.
pub fn same_target(a: Target, b: Target) -> bool
    ensures { result ≡ same_target a b }
{
    is_same_target(&a, &b)
}
