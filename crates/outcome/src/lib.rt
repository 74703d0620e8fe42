// What a call comes to, by value: a refusal, or an accepted call with what it wrote.
#![tactic(auto)]

ghost use Rattle.std.specs.Prelude.{◌≡◌};
ghost use Rattle.answer.specs.declared.Answer.TheVariants.{Done, NoRow};
ghost use Rattle.outcome.specs.Nothing.{nothing_sent};

use answer::{Answer, Destination};

// What was written into a buffer, and where it is to go.
#[derive(Clone, Copy)]
pub struct Sent {
    pub to: Destination,
    pub size: usize,
}

// What a call comes to, beside the rows and octets that it writes.
#[derive(Clone, Copy)]
pub struct Outcome {
    pub forward: Sent,
    pub clock: u64,
    pub reply: Sent,
    pub answer: Answer,
    pub seq: u8,
}

fn nothing() -> Sent
    ensures { result ≡ nothing_sent }
{
    Sent {
        size: 0,
        to: Destination::Nowhere,
    }
}

// A refusal: lengths zero, destinations nowhere, clock and own number as they stood.
pub fn refused(a: Answer, clock: u64, seq: u8) -> Outcome
    ensures { result ≡ record { answer = a; forward = nothing_sent; reply = nothing_sent; clock = clock; seq = seq } }
{
    Outcome {
        answer: a,
        forward: nothing(),
        reply: nothing(),
        clock,
        seq,
    }
}

// An accepted call, with what it wrote: its time becomes the last time.
pub fn accepted(own: u8, forward: Sent, reply: Sent, t: u64) -> Outcome
    ensures { result ≡ record { answer = Done; forward = forward; reply = reply; clock = t; seq = own } }
{
    Outcome {
        answer: Answer::Done,
        forward,
        reply,
        clock: t,
        seq: own,
    }
}

// Without room a call is 17, and the clock stays: "1 to 17 change nothing but the tally".
pub fn without_room(clock: u64, seq: u8) -> Outcome
    ensures { result ≡ record { answer = NoRow; forward = nothing_sent; reply = nothing_sent; clock = clock; seq = seq } }
{
    refused(Answer::NoRow, clock, seq)
}

// The answer of a call. One line, and public: its clause stays.
pub fn answer_of(r: Outcome) -> Answer
    ensures { result ≡ r.answer }
{
    r.answer
}
