// One row by value: the request row, the reply row or the route of a key, live at a time. Kind and `endless` are numbers, as the records of the C
// interface have them.
// The parts of a key stay parameters: the rules' definitions take them one by one (row_here, route_here), as the clauses do.
#![tactic(auto)]

ghost use Rattle.std.specs.Prelude.{◌≡◌};
ghost use Rattle.row.specs.Meaning.{instance_of, route_of};
ghost use Rattle.keyed.specs.Look.{row_here, request_here, reply_here, route_here};

use row::{InstanceRow, RouteRow};

// ---- an instance row

// A row of that kind and key, live at t. The address is compared first: few rows have it, while kinds and numbers are often the same.
// With the kind first a request over 4,000 rows took a fifth more.
#[tactic(auto, using(lemmas::proofs::Cases::cases, lemmas::proofs::Choice::and_false, lemmas::proofs::Choice::cond_false))]
fn is_of<const KIND: u8>(r: InstanceRow, t: u64, number: u8, dodagid: [u8; 16]) -> bool
    ensures { result ≡ row_here KIND t number dodagid r }
{
    address::is_same(r.dodagid, dodagid)
        && r.kind == KIND
        && r.instance == number
        && live::does_last(r.endless, r.deadline, t)
}

// A request row of that key, live at t.
#[tactic(auto, using(crate::proofs::Laws::request_is))]
pub fn is_request(r: InstanceRow, t: u64, instance: u8, dodagid: [u8; 16]) -> bool
    ensures { result ≡ request_here t instance dodagid (instance_of r) }
{
    is_of::<1>(r, t, instance, dodagid)
}

// A reply row of that key, live at t.
#[tactic(auto, using(crate::proofs::Laws::reply_is))]
pub fn is_reply(r: InstanceRow, t: u64, instance: u8, dodagid: [u8; 16]) -> bool
    ensures { result ≡ reply_here t instance dodagid (instance_of r) }
{
    is_of::<2>(r, t, instance, dodagid)
}

// ---- a route

// A route of those three, live at t. Many routes have one source, our own, so the destination is compared first: with the source
// first a request over 4,000 rows took a fifth more.
#[tactic(auto, using(lemmas::proofs::Cases::cases, crate::proofs::Laws::route_is, lemmas::proofs::Choice::and_false, lemmas::proofs::Choice::cond_false))]
pub fn is_route(r: RouteRow, t: u64, source: [u8; 16], destination: [u8; 16], instance: u8) -> bool
    ensures { result ≡ route_here t source destination instance (route_of r) }
{
    // by itself: it reads another record and another key than is_of
    address::is_same(r.destination, destination)
        && r.kind == 1
        && address::is_same(r.source, source)
        && r.instance == instance
        && live::does_last(r.endless, r.deadline, t)
}
