// The targets of all ARTs of a message (01, "Octets on the air").
#![tactic(auto)]

ghost use Rattle.std.specs.Prelude.{◌≡◌, false};
ghost use Rattle.plain.specs.Octets.{options_of, of_type, art_type, any_bad, targets_of};
ghost use Rattle.targets.specs.Collected.{Gathered};

use option::Next;
use targets::Targets;

// The targets of all ARTs of a message whose options are not bad, each once.
#[tactic(auto, using(lemmas::proofs::Cases::cases, targets::proofs::Laws::none_collected, option::proofs::Turn::pad_placed, option::proofs::Turn::body_placed, crate::proofs::Collecting::art_targets, crate::proofs::Collecting::gathered_out, crate::proofs::Collecting::gathered_end, crate::proofs::Collecting::gathered_cut, crate::proofs::Collecting::collecting_pad))]
pub fn read_targets(msg: &[u8]) -> Targets
    requires { any_bad (options_of msg.now) ≡ false }
    ensures { Gathered (targets_of (of_type art_type (options_of msg.now))) result }
{
    let mut list = targets::blank_list();
    let mut c = targets::none_yet();
    let mut at = 24;
    // an option moves `at` by its own size: the range says only that the pass ends. Beside scan's pass, which says why they are two
    for _ in 0..msg.len() {
        match option::next_option(msg, at) {
            Next::Pad => {
                at += 1;
            }
            Next::Body { kind, start, end } => {
                at = end;
                if kind == option::ART {
                    c = collect::collect(&mut list, c, art::read_target(&msg[start..end]));
                }
            }
            Next::End | Next::Cut => {
                return targets::targets_in(list, c);
            }
        }
    }
    targets::targets_in(list, c)
}
