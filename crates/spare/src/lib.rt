// A target's spare bits (01, "Octets on the air"): "stored and sent as zero".
#![tactic(auto)]

ghost use Rattle.std.specs.Prelude.{◌≡◌};
ghost use Rattle.plain.specs.Request.{whole_bits};

use plain::Target;

// The target with spare bits zero.
#[tactic(auto, using(lemmas::proofs::Cases::cases), unfolding(plain::specs::Request::whole_bits))]
pub fn whole_bits(t: Target) -> Target
    ensures { result ≡ whole_bits t }
{
    Target {
        addr: address::first_bits(art::prefix_bits(t.plen), t.addr),
        ..t
    }
}
