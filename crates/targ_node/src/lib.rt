// The targets of a received request, and whether we are TargNode (01, "A request"), by value.
#![tactic(auto)]

ghost use Rattle.std.specs.Prelude.{◌≡◌, false, List};
ghost use Rattle.plain.specs.Address.{Address};
ghost use Rattle.plain.specs.Request.{are_targ_node};
ghost use Rattle.own.specs.Settings.{settings_of};
ghost use Rattle.message.specs.Message.{message_in};
ghost use Rattle.rule.specs.Heard.{Heard};

use message::Parsed;
use own::Own;
use targets::Targets;

// The targets of a message.
pub fn named_in(p: Parsed) -> Targets
    ensures { result ≡ record { over = false; count = p.count; list = p.targets } }
{
    // a field that is an array goes into a struct's literal by a variable: the borrow checker covers no other form
    let list = p.targets;
    Targets {
        over: false,
        count: p.count,
        list,
    }
}

// "We are TargNode if a target in the message equals one of our addresses, or shares its first Prefix Length bits."
#[tactic(auto, using(lemmas::proofs::Cases::cases, crate::proofs::Rows::named_is))]
pub fn is_targ_node(o: Own, p: Parsed) -> bool
    requires { Heard p }
    ensures { (vector : List Address) → result ≡ are_targ_node (settings_of o) (message_in p vector) }
{
    matching::is_named(named_in(p), o)
}
