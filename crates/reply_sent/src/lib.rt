// What is sent for a received reply that is answered 0, by value (01, "A reply").
#![tactic(auto)]

ghost use Rattle.std.specs.Prelude.{◌≤◌, ◌≡◌, cond, false, take};
ghost use Rattle.plain.specs.Reply.{orig_node, before, next_destination, reply_sent};
ghost use Rattle.answer.specs.Answer.{destination_of};
ghost use Rattle.message.specs.Message.{message_in};
ghost use Rattle.decision.specs.Decision.{Posts};
ghost use Rattle.own.specs.Settings.{settings_of};
ghost use Rattle.rule.specs.Heard.{Heard, Array};
ghost use Rattle.reply.specs.Facts.{answered_of, is_full};
ghost use Rattle.reply_sent.specs.Goes.{raised, path_goes};

use answer::Destination;
use decision::Post;
use message::Parsed;
use own::Own;
use reply::ReplyFacts;

// The message with our own rank.
#[tactic(auto, using(lemmas::proofs::Cases::cases), unfolding(crate::specs::Goes::raised))]
fn forwarded(p: Parsed, rank: u16) -> Parsed
    ensures { result ≡ raised p rank }
{
    Parsed {
        base: rule::with_rank(p.base, rank),
        ..p
    }
}

// The next node towards OrigNode, for a symmetric reply.
#[tactic(auto, using(lemmas::proofs::Cases::cases))]
fn next_node(o: Own, p: Parsed, vector: &[[u8; 16]; 16], w: ReplyFacts) -> [u8; 16]
    requires { p.n ≤ 16 }
    ensures { result ≡ cond p.discovery.h w.partner.neighbour (before (orig_node (message_in p vector.now)) o.receiving (take p.n vector.now)) }
{
    if p.discovery.h {
        w.partner.neighbour
    } else {
        path::address_before(pairing::orig_node(p), o.receiving, &vector[..p.n])
    }
}

// Where it goes between the ends: to a neighbour if symmetric, else to the group.
#[tactic(auto, using(lemmas::proofs::Cases::cases), unfolding(plain::specs::Reply::next_destination, reply::specs::Facts::answered_of, message::specs::Message::message_in, row::specs::Meaning::request_of))]
fn destination(o: Own, p: Parsed, vector: &[[u8; 16]; 16], w: ReplyFacts) -> Destination
    requires { p.n ≤ 16 }
    ensures { destination_of result ≡ next_destination (settings_of o) (message_in p vector.now) (answered_of w) }
{
    if w.symmetric {
        Destination::Neighbour(next_node(o, p, vector, w))
    } else {
        Destination::Group
    }
}

// OrigNode's path, if there is one.
fn path_post(n: usize, turned: bool) -> Post
    ensures { result ≡ path_goes n turned }
{
    if n == 0 {
        Post::Nothing
    } else {
        Post::Path { n, turned }
    }
}

// What goes into the buffer, where none of the lines holds: at OrigNode the path, between the ends the reply.
#[tactic(auto, using(lemmas::proofs::Cases::cases, rule::proofs::Types::own_sixteen), unfolding(reply::specs::Facts::answered_of))]
pub fn forward_post(o: Own, p: Parsed, vector: &[[u8; 16]; 16], w: ReplyFacts) -> Post
    requires { Heard p × Array vector.now × (w.rank ≤ 65535) × (is_full (settings_of o) (message_in p vector.now) (answered_of w) ≡ false) }
    ensures { Posts (settings_of o) vector.now (reply_sent (settings_of o) (message_in p vector.now) (answered_of w)).forward (reply_sent (settings_of o) (message_in p vector.now) (answered_of w)).forward_to result }
{
    if w.orig {
        return path_post(p.n, !w.symmetric);
    }
    // the rank has 16 bits where it goes on: `try_from` would bring a refusal that no call meets
    let message = forwarded(p, w.rank as u16);
    let grown = reply::does_grow(p, w);
    let to = destination(o, p, vector, w);
    Post::Dio { message, grown, to }
}
