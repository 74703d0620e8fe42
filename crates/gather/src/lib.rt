// The targets of a start of our own discovery (01, "Octets on the air"): "A target listed twice in a request or start .. counts once, at its
// first place; the 8 are counted after that." Spare bits are "stored and sent as zero".
#![tactic(auto)]

ghost use Rattle.std.specs.Prelude.{◌≡◌, ◌||◌};
ghost use Rattle.plain.specs.Answers.{long_prefix};
ghost use Rattle.gather.specs.Gathers.{Gathers};

use plain::Target;
use targets::Targets;

// What is gathered: the targets, and whether a prefix is over 127.
#[derive(Clone, Copy)]
pub struct Gathering {
    pub targets: Targets,
    // A flag, and no Option of the targets: what is held and how many is told also where a prefix is too long (Gathers).
    pub long: bool,
}

// Whether a prefix is over 127, with one more target. By itself: its clause says in the rules' words (long_prefix) what a step adds.
fn is_long(long: bool, t: Target) -> bool
    ensures { result ≡ long || long_prefix t }
{
    long || 127 < t.plen
}

// The targets that are handed in.
#[tactic(auto, using(lemmas::proofs::Cases::cases, crate::proofs::Steps::begun, crate::proofs::Steps::one_more, crate::proofs::Steps::all_in))]
pub fn gather(given: &[Target]) -> Gathering
    ensures { Gathers given.now result }
{
    let mut list = targets::blank_list();
    let mut c = targets::none_yet();
    let mut long = false;
    for t in given {
        c = collect::collect(&mut list, c, spare::whole_bits(*t));
        // in the loop: one pass
        long = is_long(long, *t);
    }
    Gathering {
        targets: targets::targets_in(list, c),
        long,
    }
}
