// What a received reply that is answered 0 stores, by value (01, "A reply"): its row and its route.
#![tactic(auto)]

ghost use Rattle.std.specs.Prelude.{◌≤◌, ◌^◌, ◌≡◌, List, []};
ghost use Rattle.plain.specs.Address.{Address};
ghost use Rattle.plain.specs.Given.{Settings};
ghost use Rattle.plain.specs.Reply.{reply_row, accept_reply};
ghost use Rattle.row.specs.Record.{reply_record, route_record};
ghost use Rattle.message.specs.Message.{message_in, received_by, reply_found, route_found};
ghost use Rattle.decision.specs.Decision.{Stores};
ghost use Rattle.reply.specs.Facts.{answered_of};
ghost use Rattle.reply_stored.specs.Made.{reply_route};

use decision::Decided;
use message::{Link, Parsed};
use reply::ReplyFacts;
use row::{InstanceRow, ReplyFields, RouteFields, RouteRow};

// Its row. An update keeps the deadline of the row that stood there.
#[tactic(auto, using(lemmas::proofs::Cases::cases), unfolding(plain::specs::Reply::reply_row, row::specs::Fields::reply_in, reply::specs::Facts::answered_of, message::specs::Message::message_in))]
fn reply_row(t: u64, p: Parsed, w: ReplyFacts) -> InstanceRow
    requires { (t ≤ 2 ^ 40) × (w.rank ≤ 65535) }
    ensures { (v : List Address) → result ≡ reply_record (reply_row t (message_in p v) (answered_of w)) }
{
    // a field that is an array goes into a struct's literal by a variable: the borrow checker covers no other form; so below too
    let dodagid = p.base.dodagid;
    row::reply_row(ReplyFields {
        deadline: rule::kept_deadline(t, p.discovery.l, w.standing, w.found),
        dodagid,
        // it has 16 bits: `try_from` would bring a refusal that no call meets
        rank: w.rank as u16,
        instance: p.base.instance,
        seq: pairing::dest_seq(p),
    })
}

// The route to TargNode, under the partner's number.
#[tactic(auto, using(lemmas::proofs::Cases::cases), unfolding(crate::specs::Made::reply_route, message::specs::Message::message_in))]
fn route(t: u64, k: Link, p: Parsed) -> RouteRow
    requires { t ≤ 2 ^ 40 }
    ensures { (v : List Address) → result ≡ route_record (reply_route t (received_by k []) (message_in p v)) }
{
    let source = pairing::orig_node(p);
    let destination = p.base.dodagid;
    let next = k.neighbour;
    // the proof names it
    let number = pairing::partner_number(p);
    let fields = RouteFields {
        source,
        destination,
        next,
        instance: number,
        seq: pairing::dest_seq(p),
    };
    rule::route(t, fields, p.configuration)
}

// What a reply that is answered 0 stores. No reply row stands behind its row.
#[tactic(auto, using(lemmas::proofs::Cases::cases, crate::proofs::Outcome::accepts), unfolding(reply::specs::Facts::answered_of, message::specs::Message::message_in))]
pub fn accepted(seq: u8, t: u64, k: Link, p: Parsed, w: ReplyFacts) -> Decided
    requires { (t ≤ 2 ^ 40) × (w.rank ≤ 65535) }
    ensures { (x : Settings) (v : List Address) → Stores (accept_reply x seq t (received_by k []) (message_in p v) (answered_of w)) (reply_found w.found) (route_found w.route) result }
{
    let route = if p.discovery.h {
        Some(route(t, k, p))
    } else {
        None
    };
    Decided {
        row: reply_row(t, p, w),
        second: None,
        route,
        seq,
    }
}
