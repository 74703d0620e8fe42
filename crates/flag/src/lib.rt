// A flag as a field of one bit (01, "most significant bit first"), in a message and in a row. A function, since its clause is the rules' word.
#![tactic(auto)]

ghost use Rattle.std.specs.Prelude.{◌≡◌, ◌≤◌};
ghost use Rattle.plain.specs.Octets.{bit};

pub fn bit(b: bool) -> u8
    ensures { (result ≡ bit b) × (result ≤ 1) }
{
    u8::from(b)
}
