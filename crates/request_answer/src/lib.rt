// The answer of a received request, by value (01, "A request").
#![tactic(auto)]

ghost use Rattle.std.specs.Prelude.{◌≡◌, not, ◌&&◌, ◌||◌, []};
ghost use Rattle.plain.specs.Lists.{given};
ghost use Rattle.plain.specs.Answers.{answer_of};
ghost use Rattle.plain.specs.Rank.{min_hop, rank_refused};
ghost use Rattle.plain.specs.Request.{is_stale, route_stale, forwards, replies_now, request_lines};
ghost use Rattle.answer.specs.Answer.{answer_number};
ghost use Rattle.own.specs.Settings.{settings_of};
ghost use Rattle.lemmas.specs.Optional.{of_option};
ghost use Rattle.message.specs.Message.{message_in, received_by, route_found};
ghost use Rattle.request.specs.Facts.{asked_of};
ghost use Rattle.rule.specs.Heard.{Heard, Array};

use answer::Answer;
use message::{Link, Parsed};
use own::Own;
use request::RequestFacts;

// Answer 12.
#[tactic(auto, using(lemmas::proofs::Cases::cases))]
fn is_rank_refused(p: Parsed, increase: u16, targ: bool) -> bool
    ensures { result ≡ rank_refused (min_hop (of_option p.configuration)) p.base.rank increase p.discovery.limit targ }
{
    rank::is_refused(
        rule::step_of(p),
        p.base.rank,
        increase,
        p.discovery.limit,
        targ,
    )
}

// Answer 13.
#[tactic(auto, using(lemmas::proofs::Cases::cases))]
fn is_outdated(p: Parsed, a: RequestFacts) -> bool
    ensures { result ≡ is_stale a.standing || route_stale p.discovery.h (route_found a.route) p.discovery.number }
{
    standing::is_stale(a.standing)
        || rule::is_route_stale(p.discovery.h, a.route, p.discovery.number)
}

// Answer 15.
#[tactic(auto, using(crate::proofs::Lines::delta_given, lemmas::proofs::Cases::cases))]
fn lacks_delta(a: RequestFacts) -> bool
    ensures { result ≡ replies_now (asked_of a) && not (given (of_option a.delta)) }
{
    request::replies_now(a) && a.delta.is_none()
}

// Whether ours are added to the vector: the request goes on, and H is 0. Answer 16 is asked only there.
fn adds_ours(p: Parsed, a: RequestFacts) -> bool
    ensures { result ≡ forwards (message_in p []) (asked_of a) && not p.discovery.h }
{
    request::forwards(p, a) && !p.discovery.h
}

// The answer of a request: the first line that holds. One `if` a line: each has its own number, and a table of closures would be no plainer.
#[tactic(auto, using(lemmas::proofs::Cases::cases, lemmas::proofs::Each::each_take, crate::proofs::Lines::full_is), unfolding(plain::specs::Request::request_lines, plain::specs::Answers::answer_of, request::specs::Facts::asked_of, message::specs::Message::message_in, plain::specs::Request::forwards))]
pub fn judge(o: Own, k: Link, p: Parsed, vector: &[[u8; 16]; 16], a: RequestFacts) -> Answer
    requires heard { Heard p }
    requires array { Array vector.now }
    ensures { answer_number result ≡ answer_of (request_lines (settings_of o) (received_by k []) (message_in p vector.now) (asked_of a)) }
{
    if loops::has_ours(o, &vector[..p.n]) {
        return Answer::Loop;
    }
    if own::cannot_elide(o, p.discovery.h, p.discovery.compr, p.base.dodagid) {
        return Answer::CannotElide;
    }
    if !k.upward {
        return Answer::LinkNotGood;
    }
    if is_rank_refused(p, k.increase, a.targ) {
        return Answer::RankRefused;
    }
    if is_outdated(p, a) {
        return Answer::Stale;
    }
    if standing::is_nothing_new(a.standing) {
        return Answer::NothingNew;
    }
    if lacks_delta(a) {
        return Answer::NoDelta;
    }
    if rule::cannot_add(o, adds_ours(p, a), p.discovery.compr, p.n) {
        return Answer::VectorFull;
    }
    // Answer::Done, and no Result: the clause gives 01's number of it, 0 (answer_of)
    Answer::Done
}
