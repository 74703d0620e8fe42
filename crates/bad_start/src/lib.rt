// The part of answer 1 that is asked of a start.
#![tactic(auto)]

ghost use Rattle.bad_start.specs.Judged.{Judged};

use gather::Gathering;
use start::Asking;

// Whether a start is a bad call: "a start with 0 or over 8 targets, a target prefix over 127, L over 3, Compr over 15, RankLimit over 127".
#[tactic(auto, using(lemmas::proofs::Cases::cases, crate::proofs::Judge::judged))]
pub fn is_bad_start(g: Gathering, s: Asking) -> bool
    ensures { Judged g s.l s.compr s.limit result }
{
    g.targets.count == 0 || g.targets.over || g.long || 3 < s.l || 15 < s.compr || 127 < s.limit
}
