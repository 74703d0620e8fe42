// The first bits of an address, octet by octet.
#![tactic(auto)]

ghost use Rattle.std.specs.Prelude.{◌≡◌};
ghost use Rattle.plain.specs.Address.{keep_bits, first_bits};

use std::array;

// The first k bits of an octet, the others 0. Its eight bits cannot be shifted out at once, so that 0 is asked by itself.
#[tactic(auto, using(lemmas::proofs::Cases::cases, crate::proofs::Laws::keep_le, crate::proofs::Laws::keep_all, lemmas::proofs::Rules::keep_none), unfolding(plain::specs::Address::keep_bits))]
fn keep_bits(k: usize, x: u8) -> u8
    ensures { result ≡ keep_bits k x }
{
    if 8 <= k {
        return x;
    }
    if k == 0 {
        return 0;
    }
    let spare = 8 - k;
    x >> spare << spare
}

// The first k bits of an address, octet by octet.
#[tactic(auto, using(crate::proofs::Laws::first_made, lemmas::proofs::Cases::cases))]
pub fn cut_bits(k: u8, a: [u8; 16]) -> [u8; 16]
    ensures { result ≡ first_bits k a }
{
    let k = usize::from(k);
    array::from_fn(|i| keep_bits(k.saturating_sub(8 * i), a[i]))
}
