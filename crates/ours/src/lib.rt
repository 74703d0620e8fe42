// Whether a target is ours (01, "A request").
#![tactic(auto)]

ghost use Rattle.std.specs.Prelude.{◌≡◌};
ghost use Rattle.plain.specs.Request.{matches, matches_us};
ghost use Rattle.own.specs.Settings.{settings_of};

use own::Own;
use plain::Target;

// Whether a target equals an address, or shares its first Prefix Length bits. Nothing else decides what matches.
#[tactic(auto, using(lemmas::proofs::Cases::cases), unfolding(plain::specs::Request::matches))]
fn does_match(t: Target, a: [u8; 16]) -> bool
    ensures { result ≡ matches t a }
{
    address::do_agree(art::prefix_bits(t.plen), t.addr, a)
}

// Whether a target matches one of our addresses.
#[tactic(auto, using(lemmas::proofs::Cases::cases))]
pub fn matches_us(t: Target, o: Own) -> bool
    ensures { result ≡ matches_us (settings_of o) t }
{
    does_match(t, o.receiving) || does_match(t, o.sending)
}
