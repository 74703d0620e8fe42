// What the rules for a request and for a reply share: a stale route, MinHopRankIncrease, 16, the deadline of the row, the route that is stored,
// and a base with another rank.
#![tactic(auto)]

ghost use Rattle.std.specs.Prelude.{◌≡◌, ◌&&◌, false, List, ◌^◌, ◌≤◌, length};
ghost use Rattle.lemmas.specs.Each.{WholeVector};
ghost use Rattle.lemmas.specs.Optional.{of_option};
ghost use Rattle.plain.specs.Address.{Address};
ghost use Rattle.plain.specs.Given.{RequestRow, ReplyRow};
ghost use Rattle.plain.specs.Rank.{min_hop};
ghost use Rattle.plain.specs.Request.{route_stale, route_row, with_rank, grown, cannot_grow, kept_deadline};
ghost use Rattle.row.specs.Record.{route_record};
ghost use Rattle.message.specs.Message.{route_found, request_found, reply_found};
ghost use Rattle.own.specs.Settings.{settings_of};

use message::{Found, Parsed};
use own::Own;
use plain::{Base, Standing};
use row::{InstanceRow, RouteFields, RouteRow};

// ---- what is asked

// Whether the live route has a number that a message's does not replace.
#[tactic(auto, using(lemmas::proofs::Cases::cases), unfolding(plain::specs::Request::route_stale, message::specs::Message::route_found, row::specs::Meaning::route_in))]
pub fn is_route_stale(h: bool, g: Option<Found<RouteRow>>, seq: u8) -> bool
    ensures { result ≡ route_stale h (route_found g) seq }
{
    h && g.is_some_and(|found| sequence::is_outdated(sequence::compare(found.row.seq, seq)))
}

// MinHopRankIncrease of a message. One line, here and in with_rank, and public: the clauses stay.
pub fn step_of(p: Parsed) -> u16
    ensures { result ≡ min_hop (of_option p.configuration) }
{
    deadline::min_hop(p.configuration)
}

// 16: ours are to be added to a vector of n addresses, and cannot be.
pub fn cannot_add(o: Own, adds: bool, compr: u8, n: usize) -> bool
    requires { (compr ≤ 16) × (n ≤ 16) }
    ensures { (v : List Address) → length v ≡ n → WholeVector v → result ≡ adds && cannot_grow compr (grown (settings_of o) false v) }
{
    adds && grown::cannot_grow(o, compr, n)
}

// ---- what is stored and sent

// The deadline of the row: an update leaves that of the live row as it is.
#[tactic(auto, using(lemmas::proofs::Cases::cases), unfolding(plain::specs::Request::kept_deadline, message::specs::Message::row_found, row::specs::Meaning::request_of, row::specs::Meaning::reply_of))]
pub fn kept_deadline(
    t: u64,
    l: u8,
    standing: Standing,
    f: Option<Found<InstanceRow>>,
) -> Option<u64>
    requires { t ≤ 2 ^ 40 }
    ensures request { of_option result ≡ kept_deadline (λ (r : RequestRow). r.deadline) standing (request_found f) t l }
    ensures reply { of_option result ≡ kept_deadline (λ (r : ReplyRow). r.deadline) standing (reply_found f) t l }
{
    match f {
        Some(found) if standing::is_update(standing) => {
            row::deadline(found.row.endless, found.row.deadline)
        }
        _ => deadline::of_l(t, l),
    }
}

// A route of a message, with the deadline of its Configuration.
#[tactic(auto, using(lemmas::proofs::Cases::cases), unfolding(plain::specs::Request::route_row))]
pub fn route(t: u64, f: RouteFields, configuration: Option<[u8; 14]>) -> RouteRow
    requires { t ≤ 2 ^ 40 }
    ensures { result ≡ route_record (route_row t f.source f.destination f.instance f.next f.seq (of_option configuration)) }
{
    let end = deadline::of_lifetime(t, configuration);
    row::route_row(f, end)
}

#[tactic(auto, using(lemmas::proofs::Cases::cases), unfolding(plain::specs::Request::with_rank))]
pub fn with_rank(b: Base, rank: u16) -> Base
    ensures { result ≡ with_rank b rank }
{
    Base { rank, ..b }
}
