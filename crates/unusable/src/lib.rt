// Addresses that no node may have: sixteen octets by value (01, "Octets on the air").
#![tactic(auto)]

ghost use Rattle.std.specs.Prelude.{◌≡◌};
ghost use Rattle.plain.specs.Address.{link_local, all_zero, unusable};

#[tactic(auto, using(lemmas::proofs::Cases::cases))]
fn is_link_local(a: [u8; 16]) -> bool
    ensures { result ≡ link_local a }
{
    a[0] == 0xfe && a[1] / 64 == 2
}

fn is_all_zero(a: [u8; 16]) -> bool
    ensures { result ≡ all_zero a }
{
    a.iter().all(|&x| 0 == x)
}

// Whether an address is link-local, multicast or all zero.
#[tactic(auto, using(lemmas::proofs::Cases::cases), unfolding(plain::specs::Address::unusable))]
pub fn is_unusable(a: [u8; 16]) -> bool
    ensures { result ≡ unusable a }
{
    is_link_local(a) || a[0] == 0xff || is_all_zero(a)
}
