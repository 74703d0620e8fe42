// Our reply to a received request that is answered 0, by value (01, "A request").
#![tactic(auto)]

ghost use Rattle.std.specs.Prelude.{ℕ, ◌≡◌, cond, List, [], length};
ghost use Rattle.plain.specs.Address.{Address};
ghost use Rattle.plain.specs.Given as rules;
ghost use Rattle.plain.specs.Request.{s_out, reply_message, reply_destination, accept_request};
ghost use Rattle.answer.specs.Answer.{destination_of};
ghost use Rattle.own.specs.Settings.{settings_of};
ghost use Rattle.message.specs.Message.{message_in, received_by};
ghost use Rattle.decision.specs.Decision.{Posts};
ghost use Rattle.rule.specs.Heard.{Heard};
ghost use Rattle.request.specs.Facts.{asked_of};
ghost use Rattle.request_replied.specs.Replied.{Replied};

use answer::Destination;
use decision::Post;
use message::{Link, Parsed};
use own::Own;
use plain::{Base, Discovery, Target};
use request::RequestFacts;

// The reply's base.
#[tactic(auto, using(lemmas::proofs::Cases::cases), unfolding(plain::specs::Request::reply_message, message::specs::Message::message_in))]
fn reply_base(o: Own, p: Parsed, delta: u8) -> Base
    ensures { (own : ℕ) (c : rules.Received) (vector : List Address) → result ≡ (reply_message (settings_of o) own c (message_in p vector) delta).base }
{
    // a field that is an array goes into a struct's literal by a variable: the borrow checker covers no other form; so
    // below too
    let receiving = o.receiving;
    Base {
        instance: rolling::plus_delta(p.base.instance, delta),
        rank: rule::step_of(p),
        dodagid: receiving,
        ..Base::default()
    }
}

// The reply's RREP: RankLimit is 0.
#[tactic(auto, using(lemmas::proofs::Cases::cases), unfolding(plain::specs::Request::reply_message, message::specs::Message::message_in))]
fn reply_discovery(p: Parsed, delta: u8) -> Discovery
    ensures { (x : rules.Settings) (own : ℕ) (c : rules.Received) (vector : List Address) → result ≡ (reply_message x own c (message_in p vector) delta).discovery }
{
    Discovery {
        reply: true,
        flag: false,
        limit: 0,
        number: delta,
        ..p.discovery
    }
}

// How many addresses of the vector the reply has.
fn reply_count(k: Link, p: Parsed) -> usize
    ensures { result ≡ cond (s_out (received_by k []) (message_in p [])) p.n 0 }
{
    if message::s_out(k, p) { p.n } else { 0 }
}

// The reply: one ART, OrigNode's, with our stepped number. The other places for targets are not the message's.
#[tactic(auto, using(lemmas::proofs::Cases::cases, rule::proofs::Types::parsed_eight, crate::proofs::Sent::replied_is))]
fn replied(o: Own, k: Link, p: Parsed, seq: u8, delta: u8) -> Parsed
    ensures { Replied (settings_of o) k p seq delta result }
{
    let orig = p.base.dodagid;
    let mut targets = p.targets;
    targets[0] = Target {
        seq,
        plen: 0,
        addr: orig,
    };
    Parsed {
        base: reply_base(o, p, delta),
        discovery: reply_discovery(p, delta),
        n: reply_count(k, p),
        count: 1,
        targets,
        ..p
    }
}

// Where our reply goes.
#[tactic(auto, using(lemmas::proofs::Cases::cases))]
fn reply_to(k: Link, p: Parsed) -> Destination
    ensures { destination_of result ≡ reply_destination (received_by k []) (message_in p []) }
{
    if message::s_out(k, p) {
        Destination::Neighbour(k.neighbour)
    } else {
        Destination::Group
    }
}

// Our reply, if we reply. `seq` is our number before it is stepped.
#[tactic(auto, using(lemmas::proofs::Cases::cases, rule::proofs::Laws::posts_nothing), unfolding(plain::specs::Request::accept_request, message::specs::Message::message_in, request::specs::Facts::asked_of))]
pub fn reply_post(o: Own, k: Link, p: Parsed, a: RequestFacts, seq: u8) -> Post
    requires { Heard p }
    ensures { (t : ℕ) (vector : List Address) → length vector ≡ 16 → Posts (settings_of o) vector (accept_request (settings_of o) seq t (received_by k []) (message_in p vector) (asked_of a)).sent.reply (accept_request (settings_of o) seq t (received_by k []) (message_in p vector) (asked_of a)).sent.reply_to result }
{
    if !request::replies_now(a) {
        return Post::Nothing;
    }
    let message = replied(o, k, p, rolling::step(seq), message::delta_or_0(a.delta));
    let to = reply_to(k, p);
    Post::Dio {
        message,
        grown: false,
        to,
    }
}
