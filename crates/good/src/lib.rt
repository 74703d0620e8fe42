// One row of each table, by value: whether it is good. A row in use that is not makes the state wrong (01, answer 2). Kind, `endless` and the count
// of targets are numbers, as the records of the C interface have them.
#![tactic(auto)]

ghost use Rattle.std.specs.Prelude.{◌≡◌, true, ◌&&◌, leb, length};
ghost use Rattle.plain.specs.Lists.{all};
ghost use Rattle.plain.specs.Octets.{most_targets};
ghost use Rattle.plain.specs.Answers.{short_prefix, good_if, good_deadline, good_instance, good_route};
ghost use Rattle.row.specs.Meaning.{deadline_of, targets_of, instance_of, route_of};

use plain::Target;
use row::{InstanceRow, RouteRow};

// ---- the parts of a row

// 2^41 is the latest good deadline.
#[tactic(auto, using(lemmas::proofs::Cases::cases), unfolding(row::specs::Meaning::deadline_of))]
fn is_good_deadline(endless: u8, deadline: u64) -> bool
    ensures { result ≡ good_deadline (deadline_of endless deadline) }
{
    row::deadline(endless, deadline).is_none_or(|at| at <= 2199023255552)
}

#[tactic(auto, using(crate::proofs::Laws::count_over, crate::proofs::Laws::count_within, crate::proofs::Laws::good_on, crate::proofs::Laws::good_stop, crate::proofs::Laws::good_end, lemmas::proofs::Cases::cases))]
fn are_good_targets(count: u8, targets: [Target; 8]) -> bool
    ensures { result ≡ leb (length (targets_of count targets)) most_targets && all short_prefix (targets_of count targets) }
{
    // named: else each goal would have the number written out
    let most = 8;
    if most < count {
        return false;
    }
    // a loop over all eight, which LLVM makes eight tests of: as `all` over the first ones it stays a loop, and a row of more than four targets took
    // twice as many instructions
    for (k, t) in targets.iter().enumerate() {
        if usize::from(count) <= k {
            return true;
        }
        if 127 < t.plen {
            return false;
        }
    }
    true
}

// At most four targets, as most rows have, none of them wrong: asked without a branch that goes by the count. If false, nothing is known. Without
// this a request over 4,000 rows took three tenths more.
#[tactic(auto, using(lemmas::proofs::Cases::cases, lemmas::proofs::Choice::true_false, crate::proofs::Laws::few_good))]
fn are_few_good(count: u8, targets: [Target; 8]) -> bool
    ensures { result ≡ true → leb (length (targets_of count targets)) most_targets && all short_prefix (targets_of count targets) ≡ true }
{
    count <= 4 && are_good_targets(4, targets)
}

// ---- a row

// Good whatever its kind. If false, nothing is known.
#[tactic(auto, using(lemmas::proofs::Cases::cases, lemmas::proofs::Choice::true_false, crate::proofs::Laws::plainly_good))]
fn is_plainly_good(r: InstanceRow) -> bool
    ensures { result ≡ true → good_if good_instance (instance_of r) ≡ true }
{
    are_few_good(r.count, r.targets) && is_good_deadline(r.endless, r.deadline)
}

// By kind, a number as C lends it: in a mixed table this branch cannot be predicted.
#[tactic(auto, using(lemmas::proofs::Cases::cases), unfolding(row::specs::Meaning::instance_of, row::specs::Meaning::request_of, row::specs::Meaning::reply_of, plain::specs::Answers::good_instance))]
fn is_good_of_kind(r: InstanceRow) -> bool
    ensures { result ≡ good_if good_instance (instance_of r) }
{
    match r.kind {
        1 => are_good_targets(r.count, r.targets) && is_good_deadline(r.endless, r.deadline),
        2 => is_good_deadline(r.endless, r.deadline),
        _ => true,
    }
}

pub fn is_good(r: InstanceRow) -> bool
    ensures { result ≡ good_if good_instance (instance_of r) }
{
    is_plainly_good(r) || is_good_of_kind(r)
}

#[tactic(auto, using(lemmas::proofs::Cases::cases), unfolding(row::specs::Meaning::route_of, row::specs::Meaning::route_in, plain::specs::Answers::good_route))]
pub fn is_good_route(r: RouteRow) -> bool
    ensures { result ≡ good_if good_route (route_of r) }
{
    r.kind != 1 || is_good_deadline(r.endless, r.deadline)
}
