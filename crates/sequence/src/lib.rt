// Sequence numbers (01, "Rank and freshness"): the order, and what follows from it for a row and for a route.
#![tactic(auto)]

ghost use Rattle.std.specs.Prelude.{◌≡◌};
ghost use Rattle.plain.specs.Rank.{freshness, standing, outdated};

use plain::{Freshness, Standing};

// How a stands to b: Newer where a is the newer one.
#[tactic(auto, using(lemmas::proofs::Cases::cases), unfolding(plain::specs::Rank::freshness))]
pub fn compare(a: u8, b: u8) -> Freshness
    ensures { result ≡ freshness a b }
{
    match (128 <= a, 128 <= b) {
        (true, false) if lollipop::is_low_newer(a, b) => Freshness::Older,
        (true, false) => Freshness::Newer,
        (false, true) if lollipop::is_low_newer(b, a) => Freshness::Newer,
        (false, true) => Freshness::Older,
        _ => lollipop::on_same_side(a, b),
    }
}

// How a message stands to the live row of its key, by how its number stands to the row's: `replied` is the row's, and `lower` tells
// that our own rank is lower than the row's.
#[tactic(auto, using(lemmas::proofs::Cases::cases), unfolding(plain::specs::Rank::standing))]
pub fn standing(f: Freshness, replied: bool, lower: bool) -> Standing
    ensures { result ≡ standing f replied lower }
{
    match f {
        Freshness::Newer => Standing::Afresh,
        Freshness::Older | Freshness::NotComparable => Standing::Stale,
        Freshness::Equal if lower && !replied => Standing::Update,
        Freshness::Equal => Standing::NothingNew,
    }
}

// Whether a message is outdated, by how the number of the live route stands to the message's.
#[tactic(auto, using(lemmas::proofs::Cases::cases), unfolding(plain::specs::Rank::outdated))]
pub fn is_outdated(f: Freshness) -> bool
    ensures { result ≡ outdated f }
{
    matches!(f, Freshness::Newer | Freshness::NotComparable)
}
