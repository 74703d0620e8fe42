// Two sequence numbers on the same side of 128, and on the two sides (01, "Rank and freshness").
#![tactic(auto)]

ghost use Rattle.std.specs.Prelude.{◌≡◌};
ghost use Rattle.plain.specs.Rank.{same_side, low_is_newer};

use plain::Freshness;
use std::cmp::Ordering;

// How a stands to b, both on the same side of 128.
#[tactic(auto, using(lemmas::proofs::Cases::cases))]
pub fn on_same_side(a: u8, b: u8) -> Freshness
    ensures { result ≡ same_side a b }
{
    if 16 < a.abs_diff(b) {
        return Freshness::NotComparable;
    }
    match a.cmp(&b) {
        Ordering::Greater => Freshness::Newer,
        Ordering::Less => Freshness::Older,
        Ordering::Equal => Freshness::Equal,
    }
}

// Whether `low`, under 128, is newer than `high`, from 128 on.
pub fn is_low_newer(high: u8, low: u8) -> bool
    ensures { result ≡ low_is_newer high low }
{
    256 + u16::from(low) - u16::from(high) <= 16
}
