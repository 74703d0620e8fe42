// One row of each table, by value: whether it is live. Kind and `endless` are numbers, as the records of the C interface have them.
#![tactic(auto)]

ghost use Rattle.std.specs.Prelude.{◌≡◌, ◌||◌, eqb};
ghost use Rattle.plain.specs.Table.{lasts, live, instance_deadline, route_deadline};
ghost use Rattle.row.specs.Meaning.{deadline_of, instance_of, route_of};

use row::{InstanceRow, RouteRow};

// Without a branch: in a mixed table it cannot be predicted which rows have a deadline. By `||` a request over 4,000 rows took a fifth more.
#[tactic(auto, using(lemmas::proofs::Cases::cases, crate::proofs::Laws::lasts_bit))]
pub fn does_last(endless: u8, deadline: u64, t: u64) -> bool
    ensures { result ≡ lasts t (deadline_of endless deadline) }
{
    endless | flag::bit(t < deadline) != 0
}

// ---- an instance row

// In use, whichever of the two kinds.
#[tactic(auto, using(lemmas::proofs::Cases::cases))]
fn is_used(kind: u8) -> bool
    ensures { result ≡ eqb kind 1 || eqb kind 2 }
{
    matches!(kind, 1 | 2)
}

#[tactic(auto, using(lemmas::proofs::Cases::cases, crate::proofs::Laws::live_used, crate::proofs::Laws::live_unused))]
pub fn is_live(r: InstanceRow, t: u64) -> bool
    ensures { result ≡ live instance_deadline t (instance_of r) }
{
    is_used(r.kind) && does_last(r.endless, r.deadline, t)
}

// ---- a route

#[tactic(auto, using(lemmas::proofs::Cases::cases), unfolding(row::specs::Meaning::route_of, row::specs::Meaning::route_in))]
pub fn is_live_route(r: RouteRow, t: u64) -> bool
    ensures { result ≡ live route_deadline t (route_of r) }
{
    r.kind == 1 && does_last(r.endless, r.deadline, t)
}
