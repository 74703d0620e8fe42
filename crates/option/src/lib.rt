// The options of a message: where each stands, and whether its body is good (01, "Octets on the air").
#![tactic(auto)]

ghost use Rattle.std.specs.Prelude.{◌≡◌};
ghost use Rattle.plain.specs.Octets.{bad_option};
ghost use Rattle.option.specs.Follows.{option_of, Follows};

// The types of the options that mean something here, for the passes over the options of a message.
pub use plain::{ART, CONFIGURATION, RREP, RREQ};

// What stands at a position of a message: Pad1, an option with its type and the place of its body, the end, or an option past the end. A type is
// a number, and no enum: one would have to keep the number of every other type, and a Configuration could stand as its variant or as the number 4.
#[derive(Clone, Copy)]
pub enum Next {
    Pad,
    // places, and no slice: Follows tells where in the message a body stands
    Body { kind: u8, start: usize, end: usize },
    End,
    Cut,
}

// What stands at `at`.
#[tactic(auto, using(lemmas::proofs::Cases::cases, crate::proofs::Laws::at_end, crate::proofs::Laws::at_last, crate::proofs::Laws::at_cut, crate::proofs::Laws::at_body))]
pub fn next_option(msg: &[u8], at: usize) -> Next
    ensures { Follows msg.now at result }
{
    // the type by itself: of a Pad1 no more is asked, and a message may be full of them
    match msg.get(at) {
        None => Next::End,
        Some(0) => Next::Pad,
        Some(kind) => match msg.get(at + 1) {
            None => Next::Cut,
            Some(size) if msg.len() - (at + 2) < usize::from(*size) => Next::Cut,
            Some(size) => Next::Body {
                kind: *kind,
                start: at + 2,
                end: at + 2 + usize::from(*size),
            },
        },
    }
}

// Whether an option's body is wrong for its type, any number (see Next).
#[tactic(auto, using(lemmas::proofs::Cases::cases), unfolding(plain::specs::Octets::bad_option))]
pub fn is_bad_option(kind: u8, body: &[u8]) -> bool
    ensures { result ≡ bad_option (option_of kind body.now) }
{
    match kind {
        CONFIGURATION => option_body::is_bad_configuration(body),
        RREQ | RREP => option_body::is_bad_route(body),
        ART => art::is_bad_art(body),
        _ => false,
    }
}
