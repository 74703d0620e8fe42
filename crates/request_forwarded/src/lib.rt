// What goes on of a received request that is answered 0, by value (01, "A request").
#![tactic(auto)]

ghost use Rattle.std.specs.Prelude.{ℕ, ◌<◌, ◌≡◌, true, List, [], take};
ghost use Rattle.plain.specs.Address.{Address};
ghost use Rattle.plain.specs.Given as rules;
ghost use Rattle.plain.specs.Request.{forwards, s_out, with_rank, with_flag, accept_request};
ghost use Rattle.message.specs.Message.{message_in, received_by};
ghost use Rattle.decision.specs.Decision.{Posts};
ghost use Rattle.rule.specs.Heard.{Heard};
ghost use Rattle.request.specs.Facts.{asked_of, Sendable};
ghost use Rattle.request.specs.Room.{Roomy};

use decision::Post;
use message::{Link, Parsed};
use plain::Discovery;
use request::RequestFacts;

// The RREQ with that flag. A function of its own, as the rules have it (Request.with_flag).
#[tactic(auto, using(lemmas::proofs::Cases::cases), unfolding(plain::specs::Request::with_flag))]
fn with_flag(d: Discovery, flag: bool) -> Discovery
    ensures { result ≡ with_flag d flag }
{
    Discovery { flag, ..d }
}

// The request as it goes on, but for our addresses.
fn forwarded(k: Link, p: Parsed, a: RequestFacts) -> Parsed
    requires { a.rank < 65536 }
    ensures { result ≡ record { base = with_rank p.base a.rank; configuration = p.configuration; discovery = with_flag p.discovery (s_out (received_by k []) (message_in p [])); n = p.n; count = a.targets.count; targets = a.targets.list } }
{
    // a field that is an array goes into a struct's literal by a variable: the borrow checker covers no other form
    let targets = a.targets.list;
    Parsed {
        // it fits by what is required: `try_from` would bring a refusal that cannot happen
        base: rule::with_rank(p.base, a.rank as u16),
        discovery: with_flag(p.discovery, message::s_out(k, p)),
        count: a.targets.count,
        targets,
        ..p
    }
}

// What goes on to the group, where 16 is not answered. With H 0 ours are added.
#[tactic(auto, using(lemmas::proofs::Cases::cases, rule::proofs::Laws::posts_nothing), unfolding(plain::specs::Request::accept_request, plain::specs::Request::forwards, message::specs::Message::message_in))]
pub fn forward_post(k: Link, p: Parsed, a: RequestFacts) -> Post
    requires heard { Heard p }
    requires sendable { Sendable a }
    ensures { (x : rules.Settings) (own t : ℕ) (vector : List Address) → (forwards (message_in p []) (asked_of a) ≡ true → Roomy x p.discovery.h p.discovery.compr (take p.n vector)) → Posts x vector (accept_request x own t (received_by k []) (message_in p vector) (asked_of a)).sent.forward (accept_request x own t (received_by k []) (message_in p vector) (asked_of a)).sent.forward_to result }
{
    if !request::forwards(p, a) {
        return Post::Nothing;
    }
    let message = forwarded(k, p, a);
    let grown = !p.discovery.h;
    let to = answer::to_group();
    Post::Dio { message, grown, to }
}
