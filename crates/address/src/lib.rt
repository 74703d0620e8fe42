// Addresses: sixteen octets by value (01, "Octets on the air").
#![tactic(auto)]

ghost use Rattle.std.specs.Prelude.{◌≡◌};
ghost use Rattle.plain.specs.Lists.{same};
ghost use Rattle.plain.specs.Address.{first_bits, agree};

// Whether two addresses are the same: they share all sixteen octets. Most differ in their last octet, so that one is compared first:
// without that a request over 4,000 rows took a twentieth more.
#[tactic(auto, using(lemmas::proofs::Cases::cases, lemmas::proofs::Same::differ, lemmas::proofs::Library::pointwise_same))]
pub fn is_same(a: [u8; 16], b: [u8; 16]) -> bool
    ensures { result ≡ same a b }
{
    a[15] == b[15] && a.iter().zip(b.iter()).all(|(x, y)| x == y)
}

// The first k bits of an address, the others 0. Most are asked for whole.
#[tactic(auto, using(lemmas::proofs::Cases::cases, prefix::proofs::Laws::first_all))]
pub fn first_bits(k: u8, a: [u8; 16]) -> [u8; 16]
    ensures { result ≡ first_bits k a }
{
    if 128 <= k { a } else { prefix::cut_bits(k, a) }
}

// Whether two addresses share their first k bits.
#[tactic(auto, using(lemmas::proofs::Cases::cases, prefix::proofs::Laws::first_all))]
pub fn do_agree(k: u8, a: [u8; 16], b: [u8; 16]) -> bool
    ensures { result ≡ agree k a b }
{
    if 128 <= k {
        is_same(a, b)
    } else {
        is_same(prefix::cut_bits(k, a), prefix::cut_bits(k, b))
    }
}
