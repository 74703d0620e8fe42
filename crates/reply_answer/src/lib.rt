// The answer of a received reply, by value (01, "A reply").
#![tactic(auto)]

ghost use Rattle.std.specs.Prelude.{◌≤◌, ◌≡◌, not, ◌&&◌, ◌||◌, []};
ghost use Rattle.plain.specs.Answers.{answer_of};
ghost use Rattle.plain.specs.Rank.{min_hop, rank_refused};
ghost use Rattle.plain.specs.Request.{is_stale, route_stale};
ghost use Rattle.plain.specs.Reply.{dest_seq, reply_loops, reply_lines};
ghost use Rattle.answer.specs.Answer.{answer_number};
ghost use Rattle.message.specs.Message.{message_in, received_by, route_found};
ghost use Rattle.own.specs.Settings.{settings_of};
ghost use Rattle.rule.specs.Heard.{Array};
ghost use Rattle.reply.specs.Facts.{answered_of};

use answer::Answer;
use message::{Link, Parsed};
use own::Own;
use reply::ReplyFacts;

// Answer 9.
#[tactic(auto, using(lemmas::proofs::Cases::cases), unfolding(plain::specs::Reply::reply_loops, reply::specs::Facts::answered_of, message::specs::Message::message_in))]
fn loops(o: Own, p: Parsed, vector: &[[u8; 16]; 16], w: ReplyFacts) -> bool
    requires { p.n ≤ 16 }
    ensures { result ≡ reply_loops (settings_of o) (message_in p vector.now) (answered_of w) }
{
    !p.discovery.h
        && if w.symmetric {
            !w.orig && !loops::stands_once(o.receiving, &vector[..p.n])
        } else {
            loops::has_ours(o, &vector[..p.n])
        }
}

// Answer 11: the link towards TargNode is asked of an asymmetric reply. By itself, as each answer is.
fn is_link_bad(k: Link, w: ReplyFacts) -> bool
    ensures { result ≡ not w.symmetric && not k.downward }
{
    !w.symmetric && !k.downward
}

// Answer 12, for an asymmetric reply.
#[tactic(auto, using(lemmas::proofs::Cases::cases), unfolding(message::specs::Message::message_in))]
fn is_rank_refused(k: Link, p: Parsed, w: ReplyFacts) -> bool
    ensures { result ≡ not w.symmetric && rank_refused (min_hop (message_in p []).configuration) p.base.rank k.increase p.discovery.limit w.orig }
{
    !w.symmetric
        && rank::is_refused(
            rule::step_of(p),
            p.base.rank,
            k.increase,
            p.discovery.limit,
            w.orig,
        )
}

// Answer 13.
#[tactic(auto, using(lemmas::proofs::Cases::cases))]
fn is_stale(p: Parsed, w: ReplyFacts) -> bool
    ensures { result ≡ is_stale w.standing || route_stale p.discovery.h (route_found w.route) (dest_seq (message_in p [])) }
{
    standing::is_stale(w.standing)
        || rule::is_route_stale(p.discovery.h, w.route, pairing::dest_seq(p))
}

// The first line that holds. One `if` a line: each has its own number, and a table of closures would be no plainer.
#[tactic(auto, using(lemmas::proofs::Cases::cases, lemmas::proofs::Each::each_take, crate::proofs::Laws::full_is), unfolding(plain::specs::Reply::reply_lines, plain::specs::Answers::answer_of, reply::specs::Facts::answered_of, message::specs::Message::message_in, reply::specs::Facts::is_full))]
pub fn judge(o: Own, k: Link, p: Parsed, vector: &[[u8; 16]; 16], w: ReplyFacts) -> Answer
    requires n_bound { (p.n ≤ 16) × (p.discovery.compr ≤ 16) }
    requires array { Array vector.now }
    ensures { answer_number result ≡ answer_of (reply_lines (settings_of o) (received_by k []) (message_in p vector.now) (answered_of w)) }
{
    if loops(o, p, vector, w) {
        return Answer::Loop;
    }
    if own::cannot_elide(o, p.discovery.h, p.discovery.compr, p.base.dodagid) {
        return Answer::CannotElide;
    }
    if is_link_bad(k, w) {
        return Answer::LinkNotGood;
    }
    if is_rank_refused(k, p, w) {
        return Answer::RankRefused;
    }
    if is_stale(p, w) {
        return Answer::Stale;
    }
    if standing::is_nothing_new(w.standing) {
        return Answer::NothingNew;
    }
    if rule::cannot_add(o, reply::does_grow(p, w), p.discovery.compr, p.n) {
        return Answer::VectorFull;
    }
    // Answer::Done, and no Result: the clause gives 01's number of it, 0 (answer_of)
    Answer::Done
}
