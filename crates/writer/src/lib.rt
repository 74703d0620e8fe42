// The writer of a message: it lends what is left of the buffer to the writer of each part in turn.
#![tactic(auto)]

ghost use Rattle.std.specs.Prelude.{◌≡◌, true, ◌≤◌, length};
ghost use Rattle.lemmas.specs.Written.{Written};
ghost use Rattle.plain.specs.Octets.{octets_of};
ghost use Rattle.writer_option.specs.Sendable.{Sendable, short_prefixes};
ghost use Rattle.writer.specs.Given.{message_from};

use plain::{Base, Discovery, Target};
use writer_art::put_arts;
use writer_base::{put_base, put_configuration};
use writer_option::put_discovery;

// A whole message. Its parts one by one: Parsed (crates/message) holds an array of targets with a count, and here they are a slice.
#[tactic(auto, using(lemmas::proofs::Cases::cases, lemmas::proofs::Buffer::written_then, crate::proofs::Lengths::message_sizes), unfolding(plain::specs::Octets::octets_of))]
pub fn put_message(
    out: &mut [u8],
    base: Base,
    configuration: Option<[u8; 14]>,
    d: Discovery,
    vector: &[[u8; 16]],
    targets: &[Target],
) -> usize
    requires { Sendable d (length vector.now) × (length targets.now ≤ 8) × (short_prefixes targets.now ≡ true) × (457 ≤ length out.old) }
    ensures { Written (octets_of (message_from base configuration d vector.now targets.now)) out.old out.new result }
{
    let a = put_base(out, base);
    let b = a + put_configuration(&mut out[a..], configuration);
    let c = b + put_discovery(&mut out[b..], d, vector);
    c + put_arts(&mut out[c..], targets)
}
