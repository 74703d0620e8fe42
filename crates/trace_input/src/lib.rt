// Records from a reader. A record is a line: a letter that says its kind, four hexadecimal digits that count its octets, and the
// octets in hexadecimal. A number of several octets has its most significant octet first.
#![tactic(auto)]

ghost use Rattle.std.specs.Prelude.{◌<◌, ◌+◌, ◌-◌, ◌*◌, ◌/◌, ◌^◌, ◌≤◌, ◌≡◌, IfOk, IfSome, length, min, set};
ghost use Rattle.plain.specs.Octets.{octet_at};
ghost use Rattle.row.specs.Meaning.{flag};
ghost use Rattle.trace_input.specs.Input.{kind_in, number_in, octets_in, target_in, targets_in, own_in, link_in, row_in, route_in};

use art::octet_at;
use line::read_full;
use message::Link;
use own::Own;
use plain::Target;
use row::{InstanceRow, RouteRow};
use std::io::Read;
use std::{array, io};
use tally::Tally;

// What a record is, by its letter.
#[derive(Clone, Copy, PartialEq, Eq)]
pub enum Kind {
    Fresh,
    Message,
    Start,
    Own,
    Buffers,
    Clock,
    Number,
    Row,
    Route,
    Count,
    End,
    // a letter of no kind: such a record is passed over
    Other,
}

impl From<u8> for Kind {
    ghost from_gives = { λ letter kind. kind ≡ kind_in letter };

    #[tactic(auto, using(lemmas::proofs::Cases::cases), unfolding(crate::specs::Input::kind_in))]
    fn from(letter: u8) -> Kind {
        match letter {
            b'n' => Kind::Fresh,
            b'm' => Kind::Message,
            b's' => Kind::Start,
            b'a' => Kind::Own,
            b'b' => Kind::Buffers,
            b'c' => Kind::Clock,
            b'd' => Kind::Number,
            b'r' => Kind::Row,
            b't' => Kind::Route,
            b'k' => Kind::Count,
            b'e' => Kind::End,
            _ => Kind::Other,
        }
    }
}

// What a record's line says before its octets.
#[derive(Clone, Copy)]
pub struct Head {
    pub kind: Kind,
    pub size: usize,
}

// ---- a line

// The number that a hexadecimal digit stands for. Any other letter stands for 0, a capital one too, which `to_digit` would take.
fn value(digit: u8) -> u8
    ensures { result < 16 }
{
    match digit {
        b'0'..=b'9' => digit - b'0',
        b'a'..=b'f' => digit - b'a' + 10,
        _ => 0,
    }
}

fn octet(high: u8, low: u8) -> u8 {
    value(high) * 16 + value(low)
}

// The octets of a text, as many as there is room for.
fn decode(text: &[u8], octets: &mut [u8]) {
    let (pairs, _) = text.as_chunks::<2>();
    for (x, pair) in octets.iter_mut().zip(pairs) {
        *x = octet(pair[0], pair[1]);
    }
}

// The next record, its octets at the front of `octets` and zeros after them; none where the input ends, the record is too long or its letter is 0.
pub fn read_record<R: Read>(input: &mut R, octets: &mut [u8]) -> io::Result<Option<Head>>
    ensures { IfOk result (λ r. IfSome r (λ h. h.size < 2048)) }
{
    let mut head = [0u8; 5];
    if !read_full(input, &mut head)? {
        return Ok(None);
    }
    let [letter, a, b, c, d] = head;
    let size = usize::from(u16::from_be_bytes([octet(a, b), octet(c, d)]));
    if 2047 < size {
        return Ok(None);
    }
    let mut text = [0u8; 4096];
    if !read_full(input, &mut text[..size * 2 + 1])? || letter == 0 {
        return Ok(None);
    }
    decode(&text, octets);
    let kind = Kind::from(letter);
    Ok(Some(Head { kind, size }))
}

// ---- the parts of a record (numbers of two, four and eight octets by three functions: from_be_bytes is each type's own)

// The N octets from a place on.
fn octets_at<const N: usize>(o: &[u8], from: usize) -> [u8; N]
    requires { from + N < 2 ^ 64 }
    ensures { result ≡ octets_in N o.now from }
{
    array::from_fn(|i| octet_at(o, from + i))
}

pub fn flag_at(o: &[u8], i: usize) -> bool
    ensures { result ≡ flag (octet_at o.now i) }
{
    octet_at(o, i) != 0
}

#[tactic(auto, unfolding(crate::specs::Input::number_in, crate::specs::Input::octets_in))]
pub fn pair_at(o: &[u8], i: usize) -> u16
    requires { i ≤ 4096 }
    ensures { result ≡ number_in 2 o.now i }
{
    u16::from_be_bytes(octets_at(o, i))
}

#[tactic(auto, unfolding(crate::specs::Input::number_in, crate::specs::Input::octets_in))]
fn quad_at(o: &[u8], i: usize) -> u32
    requires { i ≤ 4000 }
    ensures { result ≡ number_in 4 o.now i }
{
    u32::from_be_bytes(octets_at(o, i))
}

#[tactic(auto, unfolding(crate::specs::Input::number_in, crate::specs::Input::octets_in))]
pub fn eight_at(o: &[u8], i: usize) -> u64
    requires { i ≤ 3000 }
    ensures { result ≡ number_in 8 o.now i }
{
    u64::from_be_bytes(octets_at(o, i))
}

pub fn own_at(o: &[u8]) -> Own
    ensures { result ≡ own_in o.now }
{
    Own {
        receiving: octets_at(o, 0),
        sending: octets_at(o, 16),
    }
}

// The link facts of a message, after its time.
pub fn link_at(o: &[u8]) -> Link
    ensures { result ≡ link_in o.now }
{
    Link {
        neighbour: octets_at(o, 8),
        upward: flag_at(o, 24),
        downward: flag_at(o, 25),
        increase: pair_at(o, 26),
        group: flag_at(o, 28),
    }
}

#[tactic(auto, unfolding(crate::specs::Input::target_in))]
fn target_at(o: &[u8], from: usize) -> Target
    requires { from ≤ 4000 }
    ensures { result ≡ target_in o.now from }
{
    Target {
        seq: octet_at(o, from),
        plen: octet_at(o, from + 1),
        addr: octets_at(o, from + 2),
    }
}

// The N targets from a place on.
fn targets_from<const N: usize>(o: &[u8], from: usize) -> [Target; N]
    requires { from + N * 18 ≤ 4000 }
    ensures { result ≡ targets_in N o.now from }
{
    array::from_fn(|i| target_at(o, from + i * 18))
}

// Where a message's octets start.
pub fn message_from(o: &[u8]) -> usize
    ensures { (result ≡ min (length o.now) 29) × (result ≤ length o.now) }
{
    o.len().min(29)
}

// How many targets a start has: 16 at most.
pub fn target_count(o: &[u8]) -> usize
    ensures { (result ≡ min ((length o.now - 13) / 18) 16) × (result ≤ 16) }
{
    (o.len().saturating_sub(13) / 18).min(16)
}

// The targets of a start, the first target_count of them: an array of fixed room, as there is no heap.
pub fn targets_at(o: &[u8]) -> [Target; 16]
    ensures { (result ≡ targets_in 16 o.now 13) × (length result ≡ 16) }
{
    targets_from(o, 13)
}

// How many rows a table has: 80 at most.
pub fn rows_at(o: &[u8], i: usize) -> usize
    requires { i ≤ 4096 }
    ensures { (result ≡ min (number_in 2 o.now i) 80) × (result ≤ 80) }
{
    usize::from(pair_at(o, i)).min(80)
}

// An instance row, after its number.
#[tactic(auto, unfolding(crate::specs::Input::row_in))]
fn row_at(o: &[u8]) -> InstanceRow
    ensures { result ≡ row_in o.now }
{
    InstanceRow {
        kind: octet_at(o, 2),
        instance: octet_at(o, 3),
        seq: octet_at(o, 4),
        s: octet_at(o, 5),
        h: octet_at(o, 6),
        replied: octet_at(o, 7),
        endless: octet_at(o, 8),
        count: octet_at(o, 9),
        rank: pair_at(o, 10),
        dodagid: octets_at(o, 12),
        neighbour: octets_at(o, 28),
        targets: targets_from(o, 52),
        deadline: eight_at(o, 44),
    }
}

// A route, after its number.
#[tactic(auto, unfolding(crate::specs::Input::route_in))]
fn route_at(o: &[u8]) -> RouteRow
    ensures { result ≡ route_in o.now }
{
    RouteRow {
        kind: octet_at(o, 2),
        instance: octet_at(o, 3),
        seq: octet_at(o, 4),
        endless: octet_at(o, 5),
        source: octets_at(o, 6),
        destination: octets_at(o, 22),
        next: octets_at(o, 38),
        deadline: eight_at(o, 54),
    }
}

// ---- what a record hands in

// A row of a table, at the number that stands first in the record, where the table has so many.
pub fn hand_in_row(instances: &mut [InstanceRow], o: &[u8])
    ensures { instances.new ≡ set instances.old (number_in 2 o.now 0) (row_in o.now) }
{
    octets::put(instances, usize::from(pair_at(o, 0)), row_at(o));
}

// A route, in the same way.
pub fn hand_in_route(routes: &mut [RouteRow], o: &[u8])
    ensures { routes.new ≡ set routes.old (number_in 2 o.now 0) (route_in o.now) }
{
    octets::put(routes, usize::from(pair_at(o, 0)), route_at(o));
}

// The tally's count of one answer.
pub fn hand_in_count(tally: &mut Tally, o: &[u8])
    ensures { tally.new.counts ≡ set tally.old.counts (octet_at o.now 0) (number_in 4 o.now 1) }
{
    octets::put(
        &mut tally.counts,
        usize::from(octet_at(o, 0)),
        quad_at(o, 1),
    );
}
