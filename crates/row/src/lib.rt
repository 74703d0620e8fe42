// The rows of the two tables as records, and how one is made. What a record means is in specs/.
#![tactic(auto)]

ghost use Rattle.std.specs.Prelude.{◌≡◌, ◌≤◌};
ghost use Rattle.lemmas.specs.Optional.{of_option};
ghost use Rattle.plain.specs.Blank.{Padded};
ghost use Rattle.row.specs.Meaning.{deadline_of, no_row, no_route};
ghost use Rattle.row.specs.Record.{endless_of, until_of, request_record, reply_record, route_record};
ghost use Rattle.row.specs.Fields.{request_in, reply_in};

use plain::Target;

// One instance row, written by a host too: each value of each field has a meaning.
#[repr(C)]
#[derive(Clone, Copy)]
pub struct InstanceRow {
    // 1 a request row, 2 a reply row, any other value: not in use
    pub kind: u8,
    pub instance: u8,
    pub seq: u8,
    // a flag is on when it is not 0
    pub s: u8,
    pub h: u8,
    pub replied: u8,
    // not 0: the row has no deadline
    pub endless: u8,
    // how many of the targets are the row's: C's struct has an array and a count
    pub count: u8,
    pub rank: u16,
    pub dodagid: [u8; 16],
    pub neighbour: [u8; 16],
    pub targets: [Target; 8],
    pub deadline: u64,
}

// One route, written by a host too.
#[repr(C)]
#[derive(Clone, Copy)]
pub struct RouteRow {
    // 1: in use, any other value: not
    pub kind: u8,
    pub instance: u8,
    pub seq: u8,
    pub endless: u8,
    pub source: [u8; 16],
    pub destination: [u8; 16],
    pub next: [u8; 16],
    pub deadline: u64,
}

// ---- rows that are written

// A deadline's two fields: whether there is none, and when it is.
#[tactic(auto, using(lemmas::proofs::Cases::cases))]
fn endless(deadline: Option<u64>) -> u8
    ensures { result ≡ endless_of (of_option deadline) }
{
    u8::from(deadline.is_none())
}

#[tactic(auto, using(lemmas::proofs::Cases::cases))]
fn until(deadline: Option<u64>) -> u64
    ensures { result ≡ until_of (of_option deadline) }
{
    deadline.unwrap_or(0)
}

// The deadline that two fields of a row mean.
#[tactic(auto, using(lemmas::proofs::Cases::cases), unfolding(crate::specs::Meaning::deadline_of))]
pub fn deadline(endless: u8, deadline: u64) -> Option<u64>
    ensures { of_option result ≡ deadline_of endless deadline }
{
    (endless == 0).then_some(deadline)
}

// What a request row holds. Its targets are the first `count` of an array, as there is no heap.
#[derive(Clone, Copy)]
pub struct RequestFields {
    pub deadline: Option<u64>,
    pub targets: [Target; 8],
    pub dodagid: [u8; 16],
    pub neighbour: [u8; 16],
    pub rank: u16,
    pub count: u8,
    pub instance: u8,
    pub seq: u8,
    pub s: bool,
    pub h: bool,
    pub replied: bool,
}

// What a reply row holds, a fifth of the row's size: our own reply row is made from these where it is stored.
#[derive(Clone, Copy)]
pub struct ReplyFields {
    pub deadline: Option<u64>,
    pub dodagid: [u8; 16],
    pub rank: u16,
    pub instance: u8,
    pub seq: u8,
}

// What a route holds, but for its deadline, which is known only where it is stored.
#[derive(Clone, Copy)]
pub struct RouteFields {
    pub source: [u8; 16],
    pub destination: [u8; 16],
    pub next: [u8; 16],
    pub instance: u8,
    pub seq: u8,
}

// A request row, of targets that are blank past the count already.
#[tactic(auto, using(lemmas::proofs::Cases::cases, crate::proofs::Laws::length_count, crate::proofs::Laws::padded_whole), unfolding(crate::specs::Record::request_record, crate::specs::Fields::request_in))]
pub fn padded_request_row(f: RequestFields) -> InstanceRow
    requires { (f.count ≤ 8) × Padded f.count f.targets }
    ensures { result ≡ request_record (request_in f) }
{
    // a field that is an array goes into a struct's literal by a variable: the borrow checker covers no other form; so below too
    let dodagid = f.dodagid;
    let neighbour = f.neighbour;
    let targets = f.targets;
    InstanceRow {
        kind: 1,
        instance: f.instance,
        seq: f.seq,
        s: flag::bit(f.s),
        h: flag::bit(f.h),
        replied: flag::bit(f.replied),
        endless: endless(f.deadline),
        count: f.count,
        rank: f.rank,
        dodagid,
        neighbour,
        targets,
        deadline: until(f.deadline),
    }
}

#[tactic(auto, using(lemmas::proofs::Cases::cases), unfolding(crate::specs::Record::reply_record, crate::specs::Fields::reply_in))]
pub fn reply_row(f: ReplyFields) -> InstanceRow
    ensures { result ≡ reply_record (reply_in f) }
{
    let dodagid = f.dodagid;
    InstanceRow {
        kind: 2,
        instance: f.instance,
        seq: f.seq,
        endless: endless(f.deadline),
        rank: f.rank,
        dodagid,
        deadline: until(f.deadline),
        ..no_row()
    }
}

#[tactic(auto, using(lemmas::proofs::Cases::cases), unfolding(crate::specs::Record::route_record))]
pub fn route_row(f: RouteFields, deadline: Option<u64>) -> RouteRow
    ensures { result ≡ route_record (record { source = f.source; destination = f.destination; instance = f.instance; next_hop = f.next; seq = f.seq; deadline = of_option deadline }) }
{
    let source = f.source;
    let destination = f.destination;
    let next = f.next;
    RouteRow {
        kind: 1,
        instance: f.instance,
        seq: f.seq,
        endless: endless(deadline),
        source,
        destination,
        next,
        deadline: until(deadline),
    }
}

// A row that is not in use. Its fields are written out: a derived default is told of an array octet by octet, and the proof does not close.
pub fn no_row() -> InstanceRow
    ensures { result ≡ no_row }
{
    InstanceRow {
        kind: 0,
        instance: 0,
        seq: 0,
        s: 0,
        h: 0,
        replied: 0,
        endless: 0,
        count: 0,
        rank: 0,
        dodagid: [0; 16],
        neighbour: [0; 16],
        targets: targets::blank_list(),
        deadline: 0,
    }
}

// A route that is not in use, written out as in no_row.
pub fn no_route() -> RouteRow
    ensures { result ≡ no_route }
{
    RouteRow {
        kind: 0,
        instance: 0,
        seq: 0,
        endless: 0,
        source: [0; 16],
        destination: [0; 16],
        next: [0; 16],
        deadline: 0,
    }
}
