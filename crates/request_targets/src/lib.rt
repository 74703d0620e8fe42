// The targets of a received request that stay, by value (01, "A request").
#![tactic(auto)]

ghost use Rattle.std.specs.Prelude.{◌≤◌, ◌≡◌, IfSome};
ghost use Rattle.plain.specs.Lists.{any};
ghost use Rattle.plain.specs.Request.{matches_us, row_targets, targets_kept};
ghost use Rattle.kept.specs.Kept.{list_of, Held, Kept};
ghost use Rattle.own.specs.Settings.{settings_of};
ghost use Rattle.message.specs.Message.{request_found};

use message::Found;
use own::Own;
use plain::Standing;
use row::InstanceRow;
use targets::Targets;

// The targets of the live row. Past them its list may hold anything.
#[tactic(auto, using(lemmas::proofs::Cases::cases, crate::proofs::Rows::targets_found, crate::proofs::Rows::none_found, crate::proofs::Rows::row_eight))]
fn row_targets(f: Option<Found<InstanceRow>>) -> Targets
    requires { IfSome f (λ x. x.row.count ≤ 8) }
    ensures { Held (row_targets (request_found f)) result }
{
    match f {
        Some(found) => {
            // a field that is an array goes into a struct's literal by a variable: the borrow checker covers no other form
            let list = found.row.targets;
            Targets {
                over: false,
                count: usize::from(found.row.count),
                list,
            }
        }
        None => kept::nothing(),
    }
}

// The targets that stay in the row and go on: an update's are those also in the row, and none of them is ours. Where no target of a new
// message is ours, which `targ` tells, they stay as they are.
#[tactic(auto, using(lemmas::proofs::Cases::cases, crate::proofs::Kept::kept_update, crate::proofs::Kept::kept_new, crate::proofs::Kept::kept_all))]
pub fn targets_kept(
    o: Own,
    s: Standing,
    f: Option<Found<InstanceRow>>,
    ts: Targets,
    targ: bool,
) -> Targets
    requires count_bound { IfSome f (λ x. x.row.count ≤ 8) }
    requires kept { Kept (list_of ts) ts }
    requires targ_value { targ ≡ any (matches_us (settings_of o)) (list_of ts) }
    ensures { Kept (targets_kept (settings_of o) s (request_found f) (list_of ts)) result }
{
    if standing::is_update(s) {
        let both = kept::common(ts, row_targets(f));
        matching::not_ours(both, o)
    } else if targ {
        matching::not_ours(ts, o)
    } else {
        ts
    }
}
