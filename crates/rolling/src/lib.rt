// Numbers of eight bits that roll over: the step of our own number (01, "Rank and freshness"), and Delta, which pairs instances (01, "A request", "A
// reply").
#![tactic(auto)]

ghost use Rattle.std.specs.Prelude.{◌≡◌};
ghost use Rattle.plain.specs.Rank.{stepped, plus_delta, minus_delta};

// The number after our own. 0 is never one of ours.
#[tactic(auto, using(std::proofs::Common::rules, lemmas::proofs::Cases::cases), unfolding(plain::specs::Rank::stepped))]
pub fn step(own: u8) -> u8
    ensures { result ≡ stepped own }
{
    if own == 127 || own == 255 { 1 } else { own + 1 }
}

// The reply's RPLInstanceID, from its request's.
#[tactic(auto, using(std::proofs::Common::rules, lemmas::proofs::Cases::cases), unfolding(plain::specs::Rank::plus_delta))]
pub fn plus_delta(instance: u8, delta: u8) -> u8
    ensures { result ≡ plus_delta instance delta }
{
    instance.wrapping_add(delta)
}

// The request's RPLInstanceID, from its reply's.
#[tactic(auto, using(std::proofs::Common::rules, lemmas::proofs::Cases::cases), unfolding(plain::specs::Rank::minus_delta))]
pub fn minus_delta(instance: u8, delta: u8) -> u8
    ensures { result ≡ minus_delta instance delta }
{
    instance.wrapping_sub(delta)
}
