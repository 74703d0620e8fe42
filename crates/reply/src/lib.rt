// A received reply by value (01, "A reply"): the facts that it rests on, and whether its vector grows.
#![tactic(auto)]

ghost use Rattle.std.specs.Prelude.{◌≤◌, ◌≡◌, cond, true, not, ◌&&◌, List, []};
ghost use Rattle.plain.specs.Address.{Address};
ghost use Rattle.plain.specs.Rank.{own_rank};
ghost use Rattle.plain.specs.Reply.{reply_standing, answered_with, grows};
ghost use Rattle.row.specs.Meaning.{request_of};
ghost use Rattle.message.specs.Message.{message_in, received_by, reply_found, route_found};
ghost use Rattle.own.specs.Settings.{settings_of};
ghost use Rattle.reply.specs.Facts.{answered_of, Gathered};

use message::{Found, Link, Parsed};
use own::Own;
use plain::Standing;
use row::{InstanceRow, RouteRow};

// What the answer and the outcome of a reply rest on: the rows that the tables hold for it, whether it is symmetric, whether we are
// OrigNode, our own rank, and how it stands to the live row. The rank is a sum that may not fit 16 bits.
#[derive(Clone, Copy)]
pub struct ReplyFacts {
    pub partner: InstanceRow,
    pub found: Option<Found<InstanceRow>>,
    pub route: Option<Found<RouteRow>>,
    pub symmetric: bool,
    pub orig: bool,
    pub rank: u32,
    pub standing: Standing,
}

#[tactic(auto, using(lemmas::proofs::Cases::cases), unfolding(row::specs::Meaning::request_of))]
fn is_symmetric(k: Link, partner: InstanceRow) -> bool
    ensures { result ≡ (request_of partner).s && not k.group }
{
    partner.s != 0 && !k.group
}

// A symmetric reply keeps its rank.
#[tactic(auto, using(lemmas::proofs::Choice::true_false, lemmas::proofs::Cases::cases))]
fn own_rank(symmetric: bool, advertised: u16, increase: u16) -> u32
    ensures { (result ≡ cond symmetric advertised (own_rank advertised increase)) × (symmetric ≡ true → result ≤ 65535) }
{
    if symmetric {
        u32::from(advertised)
    } else {
        rank::own_rank(advertised, increase)
    }
}

// How a reply of that number stands to the live row, with our own rank.
#[tactic(auto, using(lemmas::proofs::Cases::cases), unfolding(plain::specs::Reply::reply_standing, message::specs::Message::row_found, row::specs::Meaning::reply_of))]
fn how_it_stands(f: Option<Found<InstanceRow>>, seq: u8, rank: u32) -> Standing
    ensures { result ≡ reply_standing (reply_found f) seq rank }
{
    // beside request's: here `replied` is not asked, since a reply row has none
    let Some(found) = f else {
        return Standing::IsNew;
    };
    let lower = rank < u32::from(found.row.rank);
    sequence::standing(sequence::compare(seq, found.row.seq), false, lower)
}

// The facts of a reply.
#[tactic(auto, using(lemmas::proofs::Cases::cases), unfolding(crate::specs::Facts::answered_of, plain::specs::Reply::answered_with, message::specs::Message::message_in, row::specs::Meaning::request_of))]
pub fn gather(
    o: Own,
    k: Link,
    p: Parsed,
    partner: InstanceRow,
    f: Option<Found<InstanceRow>>,
    g: Option<Found<RouteRow>>,
) -> ReplyFacts
    ensures { (v : List Address) → Gathered (answered_with (settings_of o) (received_by k []) (message_in p v) (request_of partner) (reply_found f) (route_found g)) result }
{
    let symmetric = is_symmetric(k, partner);
    let rank = own_rank(symmetric, p.base.rank, k.increase);
    ReplyFacts {
        partner,
        found: f,
        route: g,
        symmetric,
        orig: own::is_ours(o, partner.dodagid),
        rank,
        standing: how_it_stands(f, pairing::dest_seq(p), rank),
    }
}

// ---- What it comes to

// Whether our addresses are added to the vector. Answer 16 is asked only there.
#[tactic(auto, using(lemmas::proofs::Cases::cases), unfolding(plain::specs::Reply::grows, crate::specs::Facts::answered_of, message::specs::Message::message_in))]
pub fn does_grow(p: Parsed, w: ReplyFacts) -> bool
    ensures { (v : List Address) → result ≡ grows (message_in p v) (answered_of w) }
{
    !w.symmetric && !w.orig && !p.discovery.h
}
