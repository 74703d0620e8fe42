// A pass over the options of a message (01, "Octets on the air").
#![tactic(auto)]

ghost use Rattle.std.specs.Prelude.{ℕ};
ghost use Rattle.scan.specs.Seen.{Noted};
ghost use Rattle.scan.specs.Scanned.{OptionTaken, Scanned};

use option::Next;

// The options of one type: how many, as far as 2, and where the body of the first one is.
#[derive(Clone, Copy, Default)]
pub struct Found {
    // No enum of none, one and more: it would name start and end twice. Places are numbers, and no slice, as in option::Next: Told speaks of them.
    pub count: usize,
    pub start: usize,
    pub end: usize,
}

// What a pass has found.
#[derive(Clone, Copy, Default)]
pub struct Scan {
    pub configuration: Found,
    pub rreq: Found,
    pub rrep: Found,
    pub art: Found,
}

// What is found of a type after one more option of that type.
#[tactic(auto, using(lemmas::proofs::Cases::cases, crate::proofs::Laws::seen_first))]
fn noted(f: Found, start: usize, end: usize) -> Found
    ensures { (kind : ℕ) → Noted kind kind start end f result }
{
    if f.count == 0 {
        Found {
            count: 1,
            start,
            end,
        }
    } else {
        Found { count: 2, ..f }
    }
}

// What a pass has found after one more option. Most types (see option::Next) are none of these four.
#[tactic(auto, using(lemmas::proofs::Cases::cases, crate::proofs::Laws::seen_other, crate::proofs::Laws::noted_as, crate::proofs::Laws::apart))]
fn with_option(s: Scan, kind: u8, start: usize, end: usize) -> Scan
    ensures { OptionTaken kind start end s result }
{
    match kind {
        option::CONFIGURATION => Scan {
            configuration: noted(s.configuration, start, end),
            ..s
        },
        option::RREQ => Scan {
            rreq: noted(s.rreq, start, end),
            ..s
        },
        option::RREP => Scan {
            rrep: noted(s.rrep, start, end),
            ..s
        },
        option::ART => Scan {
            art: noted(s.art, start, end),
            ..s
        },
        _ => s,
    }
}

// All options of a message, each read in its turn. None where one is past the end or has a wrong body: the pass ends at the first.
#[tactic(auto, using(crate::proofs::Passing::passing_first, crate::proofs::Passing::scanned_out, crate::proofs::Passing::scanned_end, crate::proofs::Passing::scanned_cut, crate::proofs::Passing::passing_pad, option::proofs::Turn::pad_placed, option::proofs::Turn::body_placed, lemmas::proofs::Cases::cases))]
pub fn read_options(msg: &[u8]) -> Option<Scan>
    ensures { Scanned msg.now result }
{
    let mut s = Scan::default();
    let mut at: usize = 24;
    // an option moves `at` by its own size: the range says only that the pass ends. Beside arts' pass: one stops at a bad body, the other is told
    // that none is bad, and an iterator for both would have to say where it stopped
    for _ in 0..msg.len() {
        match option::next_option(msg, at) {
            Next::Pad => at += 1,
            Next::Body { kind, start, end } => {
                if option::is_bad_option(kind, &msg[start..end]) {
                    return None;
                }
                s = with_option(s, kind, start, end);
                at = end;
            }
            Next::End => return Some(s),
            Next::Cut => return None,
        }
    }
    Some(s)
}
