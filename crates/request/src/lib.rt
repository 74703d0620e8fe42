// A received request by value (01, "A request"): the facts that it rests on, and whether it goes on and is replied to.
#![tactic(auto)]

ghost use Rattle.std.specs.Prelude.{◌≤◌, ◌≡◌, ◌||◌, List, [], eqb, ltb, IfSome};
ghost use Rattle.lemmas.specs.Optional.{of_option};
ghost use Rattle.plain.specs.Address.{Address};
ghost use Rattle.plain.specs.Rank.{min_hop, integer_part};
ghost use Rattle.plain.specs.Request.{are_targ_node, request_standing, asked_with, forwards, replies_now};
ghost use Rattle.own.specs.Settings.{settings_of};
ghost use Rattle.message.specs.Message.{message_in, received_by, request_found, route_found};
ghost use Rattle.request.specs.Facts.{asked_of, Gathered};
ghost use Rattle.rule.specs.Heard.{Heard};

use message::{Found, Link, Parsed};
use own::Own;
use plain::Standing;
use row::{InstanceRow, RouteRow};
use targets::Targets;

// What the answer and the outcome of a request rest on: the rows that the tables hold for it, our own rank, how it stands to the live
// row, whether we are TargNode, and the targets that stay. The rank is a sum that may not fit 16 bits.
#[derive(Clone, Copy)]
pub struct RequestFacts {
    pub row: Option<Found<InstanceRow>>,
    pub route: Option<Found<RouteRow>>,
    pub rank: u32,
    pub standing: Standing,
    pub targ: bool,
    pub targets: Targets,
    pub delta: Option<u8>,
}

// ---- The facts

// How a request of that number stands to the live row, with our own rank.
#[tactic(auto, using(lemmas::proofs::Cases::cases), unfolding(plain::specs::Request::request_standing, message::specs::Message::row_found, row::specs::Meaning::request_of))]
fn how_it_stands(f: Option<Found<InstanceRow>>, seq: u8, rank: u32) -> Standing
    ensures { result ≡ request_standing (request_found f) seq rank }
{
    // beside reply's: a reply row has no `replied`, so one function for both would be told whether to ask it
    let Some(found) = f else {
        return Standing::IsNew;
    };
    let lower = rank < u32::from(found.row.rank);
    let order = sequence::compare(seq, found.row.seq);
    sequence::standing(order, found.row.replied != 0, lower)
}

// The facts of a request, of which we are TargNode or not.
#[tactic(auto, using(lemmas::proofs::Cases::cases, targ_node::proofs::Rows::named_is, request_targets::proofs::Rows::named_kept, crate::proofs::Rows::gathered_is))]
pub fn gather(
    o: Own,
    k: Link,
    p: Parsed,
    targ: bool,
    f: Option<Found<InstanceRow>>,
    g: Option<Found<RouteRow>>,
    d: Option<u8>,
) -> RequestFacts
    requires heard { Heard p }
    requires targ_value { targ ≡ are_targ_node (settings_of o) (message_in p []) }
    requires count_bound { IfSome f (λ x. x.row.count ≤ 8) }
    ensures { (vector : List Address) → Gathered (asked_with (settings_of o) (received_by k []) (message_in p vector) (request_found f) (route_found g) (of_option d)) result }
{
    let rank = rank::own_rank(p.base.rank, k.increase);
    let standing = how_it_stands(f, p.discovery.number, rank);
    let targets = request_targets::targets_kept(o, standing, f, targ_node::named_in(p), targ);
    RequestFacts {
        row: f,
        route: g,
        rank,
        standing,
        targ,
        targets,
        delta: d,
    }
}

// ---- What it comes to

// Whether our own rank is under RankLimit, if that is not 0: integer parts are compared, and a step of 0 gives 0.
#[tactic(auto, using(lemmas::proofs::Cases::cases), unfolding(plain::specs::Rank::integer_part))]
fn is_under_limit(p: Parsed, rank: u32) -> bool
    ensures { result ≡ eqb p.discovery.limit 0 || ltb (integer_part (min_hop (of_option p.configuration)) rank) p.discovery.limit }
{
    // not by rank::integer_part, which takes 16 bits
    let step = u32::from(rule::step_of(p));
    p.discovery.limit == 0 || rank.checked_div(step).unwrap_or(0) < u32::from(p.discovery.limit)
}

// Whether a request goes on. Its vector plays no part in that.
#[tactic(auto, using(lemmas::proofs::Cases::cases, crate::proofs::Rows::facts_eight, crate::proofs::Onward::forwards_some, crate::proofs::Onward::forwards_none))]
pub fn forwards(p: Parsed, a: RequestFacts) -> bool
    ensures { result ≡ forwards (message_in p []) (asked_of a) }
{
    0 < a.targets.count && is_under_limit(p, a.rank)
}

// Whether we reply.
#[tactic(auto, using(lemmas::proofs::Cases::cases), unfolding(plain::specs::Request::replies_now, crate::specs::Facts::asked_of))]
pub fn replies_now(a: RequestFacts) -> bool
    ensures { result ≡ replies_now (asked_of a) }
{
    a.targ && !standing::is_update(a.standing)
}
