// What a received request that is answered 0 stores, by value (01, "A request"): the rows that it leaves, and our number after it. The bound of t
// is a clause and no type: crates/deadline says why.
#![tactic(auto)]

ghost use Rattle.std.specs.Prelude.{◌≤◌, ◌^◌, ◌≡◌, cond, List, [], Some, None, option_map};
ghost use Rattle.plain.specs.Address.{Address};
ghost use Rattle.plain.specs.Request.{request_row, own_reply_row, route_row, accept_request};
ghost use Rattle.row.specs.Record.{request_record, route_record};
ghost use Rattle.row.specs.Fields.{reply_in};
ghost use Rattle.lemmas.specs.Optional.{of_option};
ghost use Rattle.own.specs.Settings.{settings_of};
ghost use Rattle.message.specs.Message.{message_in, received_by, request_found, route_found};
ghost use Rattle.decision.specs.Decision.{Stores};
ghost use Rattle.request.specs.Facts.{asked_of, Sendable};

use decision::Decided;
use message::{Link, Parsed};
use own::Own;
use request::RequestFacts;
use row::{InstanceRow, ReplyFields, RequestFields, RouteFields, RouteRow};

// ---- The request row

// The request row.
#[tactic(auto, using(lemmas::proofs::Cases::cases, crate::proofs::Made::request_is))]
fn request_row(t: u64, k: Link, p: Parsed, a: RequestFacts) -> InstanceRow
    requires t_bound { t ≤ 2 ^ 40 }
    requires sendable { Sendable a }
    ensures { result ≡ request_record (request_row t (received_by k []) (message_in p []) (asked_of a)) }
{
    // a field that is an array goes into a struct's literal by a variable: the borrow checker covers no other form; so below too
    let dodagid = p.base.dodagid;
    let neighbour = k.neighbour;
    let targets = a.targets.list;
    row::padded_request_row(RequestFields {
        deadline: rule::kept_deadline(t, p.discovery.l, a.standing, a.row),
        targets,
        dodagid,
        neighbour,
        // rank and count fit by what is required: `try_from` would bring a refusal that cannot happen
        rank: a.rank as u16,
        count: a.targets.count as u8,
        instance: p.base.instance,
        seq: p.discovery.number,
        s: message::s_out(k, p),
        h: p.discovery.h,
        replied: request::replies_now(a),
    })
}

// ---- The reply row, the route and our number

// What the row of our own reply holds, with our stepped number.
#[tactic(auto, using(lemmas::proofs::Cases::cases), unfolding(row::specs::Fields::reply_in, plain::specs::Request::own_reply_row, message::specs::Message::message_in))]
fn reply_fields(o: Own, t: u64, seq: u8, p: Parsed, delta: u8) -> ReplyFields
    requires { t ≤ 2 ^ 40 }
    ensures { reply_in result ≡ own_reply_row (settings_of o) t seq (message_in p []) delta }
{
    let dodagid = o.receiving;
    ReplyFields {
        instance: rolling::plus_delta(p.base.instance, delta),
        seq,
        rank: rule::step_of(p),
        dodagid,
        deadline: deadline::of_l(t, p.discovery.l),
    }
}

// The row of our own reply, if we reply.
#[tactic(auto, using(lemmas::proofs::Cases::cases))]
fn second(o: Own, t: u64, seq: u8, p: Parsed, delta: u8, replies: bool) -> Option<ReplyFields>
    requires { t ≤ 2 ^ 40 }
    ensures { option_map reply_in result ≡ cond replies (Some (own_reply_row (settings_of o) t seq (message_in p []) delta)) None }
{
    if replies {
        Some(reply_fields(o, t, seq, p, delta))
    } else {
        None
    }
}

// The route, with H 1.
#[tactic(auto, using(lemmas::proofs::Cases::cases))]
fn route_to(o: Own, t: u64, k: Link, p: Parsed) -> Option<RouteRow>
    requires { t ≤ 2 ^ 40 }
    ensures { result ≡ cond p.discovery.h (Some (route_record (route_row t o.receiving p.base.dodagid p.base.instance k.neighbour p.discovery.number (of_option p.configuration)))) None }
{
    if !p.discovery.h {
        return None;
    }
    let source = o.receiving;
    let destination = p.base.dodagid;
    let next = k.neighbour;
    let fields = RouteFields {
        source,
        destination,
        next,
        instance: p.base.instance,
        seq: p.discovery.number,
    };
    Some(rule::route(t, fields, p.configuration))
}

// Our number after the call: a reply steps it.
fn seq_after(replies: bool, next: u8, seq: u8) -> u8
    ensures { result ≡ cond replies next seq }
{
    if replies { next } else { seq }
}

// What a request that is answered 0 stores.
#[tactic(auto, using(lemmas::proofs::Cases::cases, crate::proofs::Accept::accepted_is))]
pub fn accepted(o: Own, seq: u8, t: u64, k: Link, p: Parsed, a: RequestFacts) -> Decided
    requires t_bound { t ≤ 2 ^ 40 }
    requires sendable { Sendable a }
    ensures { (vector : List Address) → Stores (accept_request (settings_of o) seq t (received_by k []) (message_in p vector) (asked_of a)) (request_found a.row) (route_found a.route) result }
{
    let next = rolling::step(seq);
    let delta = message::delta_or_0(a.delta);
    let replies = request::replies_now(a);
    Decided {
        row: request_row(t, k, p, a),
        second: second(o, t, next, p, delta, replies),
        route: route_to(o, t, k, p),
        seq: seq_after(replies, next, seq),
    }
}
