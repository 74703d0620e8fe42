// What a start of our own discovery that is answered 0 sends, by value (01, "A request").
#![tactic(auto)]

ghost use Rattle.std.specs.Prelude.{ℕ, ◌≡◌, List, []};
ghost use Rattle.plain.specs.Address.{Address};
ghost use Rattle.plain.specs.Request.{start_message, accept_start};
ghost use Rattle.plain.specs.declared.Target as plain;
ghost use Rattle.kept.specs.Kept.{list_of};
ghost use Rattle.own.specs.Settings.{settings_of};
ghost use Rattle.message.specs.Message.{message_in};
ghost use Rattle.decision.specs.Decision.{Posts};
ghost use Rattle.start.specs.Start.{start_of, Sendable};

use decision::Post;
use message::Parsed;
use own::Own;
use plain::{Base, Discovery};
use start::Asking;
use targets::Targets;

// The request that is sent.
#[tactic(auto, using(lemmas::proofs::Cases::cases), unfolding(message::specs::Message::message_in, plain::specs::Request::start_message))]
fn start_message(o: Own, seq: u8, s: Asking, ts: Targets) -> Parsed
    ensures { (message_in result [] ≡ start_message (settings_of o) seq (start_of s []) (list_of ts)) × (result.n ≡ 0) × (result.count ≡ ts.count) }
{
    // a field that is an array goes into a struct's literal by a variable: the borrow checker covers no other form
    let receiving = o.receiving;
    let list = ts.list;
    let base = Base {
        instance: s.instance,
        version: 0,
        rank: 256,
        dodagid: receiving,
        ..Base::default()
    };
    let discovery = Discovery {
        flag: true,
        h: s.h,
        compr: writer_option::compr_sent(s.h, s.compr),
        l: s.l,
        limit: s.limit,
        number: seq,
        ..Discovery::default()
    };
    Parsed {
        base,
        configuration: None,
        discovery,
        n: 0,
        count: ts.count,
        targets: list,
    }
}

// What a start sends, to the group. `seq` is our number before it is stepped. No vector was received: what is posted is the same whatever vector
// is given.
#[tactic(auto, using(lemmas::proofs::Cases::cases, crate::proofs::Sent::start_posts), unfolding(plain::specs::Request::accept_start, plain::specs::Request::start_message))]
pub fn start_post(o: Own, seq: u8, s: Asking, ts: Targets) -> Post
    requires { Sendable s ts }
    ensures { (t : ℕ) (vector : List Address) (targets : List plain.Target) → Posts (settings_of o) vector (accept_start (settings_of o) seq t (start_of s targets) (list_of ts)).sent.forward (accept_start (settings_of o) seq t (start_of s targets) (list_of ts)).sent.forward_to result }
{
    let message = start_message(o, rolling::step(seq), s, ts);
    let to = answer::to_group();
    Post::Dio {
        message,
        grown: false,
        to,
    }
}
