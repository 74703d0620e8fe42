// Targets collected one after the other in a lent list of fixed room, as there is no heap: the first n are collected.
#![tactic(auto)]

ghost use Rattle.std.specs.Prelude.{◌≡◌, ◌≤◌, length};
ghost use Rattle.plain.specs.Lists.{any};
ghost use Rattle.plain.specs.Octets.{same_target};
ghost use Rattle.targets.specs.Collected.{Joined};

use plain::Target;
use targets::Count;

// Whether a target is in a list.
pub fn is_listed(t: Target, list: &[Target]) -> bool
    ensures { result ≡ any (same_target t) list.now }
{
    list.iter().any(|u| art::is_same_target(&t, u))
}

// Collects the next target, which counts at its first place only.
#[tactic(auto, using(lemmas::proofs::Cases::cases, targets::proofs::Laws::joined))]
pub fn collect(list: &mut [Target], c: Count, t: Target) -> Count
    requires { (c.n ≤ 8) × (length list.old ≡ 8) }
    ensures { Joined c list.old t result list.new }
{
    let at = targets::place_for(is_listed(t, &list[..c.n]), c.n);
    octets::put(list, at, t);
    targets::counted(c, at)
}
