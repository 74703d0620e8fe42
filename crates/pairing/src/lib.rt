// What a received reply names (01, "A reply"): OrigNode, Dest SeqNo, and the number of its partner.
#![tactic(auto)]

ghost use Rattle.std.specs.Prelude.{◌≡◌, List, take};
ghost use Rattle.plain.specs.Address.{Address};
ghost use Rattle.plain.specs.Reply.{only_target, orig_node, dest_seq, partner_number};
ghost use Rattle.message.specs.Message.{message_in};

use message::Parsed;
use plain::Target;

// A reply's one target. Without any it is all zero.
#[tactic(auto, using(lemmas::proofs::Cases::cases, crate::proofs::Laws::only_first))]
fn only_target(p: Parsed) -> Target
    ensures { result ≡ only_target (take p.count p.targets) }
{
    // no slice of the first `count`: it would ask that they are at most 8, and the public clauses hold of any count
    if p.count == 0 {
        Target::default()
    } else {
        p.targets[0]
    }
}

// The address of OrigNode, which is the partner's DODAGID.
#[tactic(auto, using(lemmas::proofs::Cases::cases), unfolding(message::specs::Message::message_in))]
pub fn orig_node(p: Parsed) -> [u8; 16]
    ensures { (v : List Address) → result ≡ orig_node (message_in p v) }
{
    only_target(p).addr
}

// Dest SeqNo.
#[tactic(auto, using(lemmas::proofs::Cases::cases), unfolding(message::specs::Message::message_in))]
pub fn dest_seq(p: Parsed) -> u8
    ensures { (v : List Address) → result ≡ dest_seq (message_in p v) }
{
    only_target(p).seq
}

// The partner's RPLInstanceID.
#[tactic(auto, using(lemmas::proofs::Cases::cases), unfolding(message::specs::Message::message_in))]
pub fn partner_number(p: Parsed) -> u8
    ensures { (v : List Address) → result ≡ partner_number (message_in p v) }
{
    rolling::minus_delta(p.base.instance, p.discovery.number)
}
