// How many addresses a vector has with our two added, and 16: whether it can grow by them.
#![tactic(auto)]

ghost use Rattle.std.specs.Prelude.{◌≡◌, false, List, ◌≤◌, length};
ghost use Rattle.lemmas.specs.Each.{WholeVector};
ghost use Rattle.plain.specs.Address.{Address};
ghost use Rattle.plain.specs.Request.{grown, cannot_grow};
ghost use Rattle.own.specs.Settings.{settings_of};
ghost use Rattle.grown.specs.Grown.{grown_count};

use own::Own;

// How many addresses a vector of n has with ours added, which is where H is 0. Here h is 0 at each call; it stays, as the clause speaks of it.
#[tactic(auto, using(lemmas::proofs::Cases::cases), unfolding(crate::specs::Grown::grown_count, plain::specs::Request::own_vector))]
pub fn grown_count(o: Own, h: bool, n: usize) -> usize
    requires { n ≤ 16 }
    ensures { result ≡ grown_count (settings_of o) h n }
{
    if h {
        n
    } else if address::is_same(o.receiving, o.sending) {
        n + 1
    } else {
        n + 2
    }
}

// 16: with ours added a vector of n addresses is past 16 addresses or 252 octets.
#[tactic(auto, using(lemmas::proofs::Cases::cases, crate::proofs::Growth::past_addresses, crate::proofs::Growth::past_octets))]
pub fn cannot_grow(o: Own, compr: u8, n: usize) -> bool
    requires { (compr ≤ 16) × (n ≤ 16) }
    ensures { (v : List Address) → length v ≡ n → WholeVector v → result ≡ cannot_grow compr (grown (settings_of o) false v) }
{
    let addresses = grown_count(o, false, n);
    let octets = usize::from(16 - compr);
    16 < addresses || 252 < addresses * octets
}
