// Which targets are ours, and which are kept (01, "A request").
#![tactic(auto)]

ghost use Rattle.std.specs.Prelude.{◌≤◌, ◌≡◌};
ghost use Rattle.plain.specs.Lists.{any};
ghost use Rattle.plain.specs.Request.{matches_us, not_ours};
ghost use Rattle.own.specs.Settings.{settings_of};
ghost use Rattle.kept.specs.Kept.{list_of, Kept};

use own::Own;
use targets::Targets;

// Whether we are TargNode: one of the targets matches us.
pub fn is_named(ts: Targets, o: Own) -> bool
    requires { ts.count ≤ 8 }
    ensures { result ≡ any (matches_us (settings_of o)) (list_of ts) }
{
    ts.list[..ts.count].iter().any(|t| ours::matches_us(*t, o))
}

// The targets that do not match us, in their order. A loop, and no `filter`: there is no heap to collect in.
#[tactic(auto, using(kept::proofs::Sifted::sift_end, lemmas::proofs::Cases::cases))]
pub fn not_ours(ts: Targets, o: Own) -> Targets
    requires { ts.count ≤ 8 }
    ensures { Kept (not_ours (settings_of o) (list_of ts)) result }
{
    let mut kept = kept::nothing();
    for t in &ts.list[..ts.count] {
        kept = kept::keep_if(kept, *t, !ours::matches_us(*t, o));
    }
    kept
}
