// How long rows last, in ms (01, "Octets on the air": L, Default Lifetime and Lifetime Unit), and MinHopRankIncrease, the third field
// that is read from a Configuration. A deadline is none where it is endless. That a call's time is at most 2^40 is asked by clauses and by no
// type: times are compared in many places, with clocks and deadlines that have no such bound, and each would be taken out of the type again.
#![tactic(auto)]

ghost use Rattle.std.specs.Prelude.{◌*◌, ◌^◌, ◌≤◌, ◌≡◌};
ghost use Rattle.lemmas.specs.Optional.{of_option};
ghost use Rattle.plain.specs.Rank.{min_hop, row_deadline, lifetime_deadline};
ghost use Rattle.deadline.specs.Deadline.{Means};

// MinHopRankIncrease: 256 where there is no Configuration.
#[tactic(auto, using(lemmas::proofs::Cases::cases))]
pub fn min_hop(configuration: Option<[u8; 14]>) -> u16
    ensures { result ≡ min_hop (of_option configuration) }
{
    match configuration {
        Some(octets) => u16::from_be_bytes([octets[6], octets[7]]),
        None => 256,
    }
}

// The deadline of a row, from L.
#[tactic(auto, using(lemmas::proofs::Cases::cases), unfolding(plain::specs::Rank::row_deadline))]
pub fn of_l(time: u64, l: u8) -> Option<u64>
    requires { time ≤ 2 ^ 40 }
    ensures { Means (row_deadline time l) result }
{
    match l {
        0 => None,
        1 => Some(time + 16000),
        2 => Some(time + 64000),
        _ => Some(time + 256000),
    }
}

// Default Lifetime times Lifetime Unit seconds, in ms.
fn ms(lifetime: u8, unit: u16) -> u64
    ensures { (result ≡ lifetime * unit * 1000) × (result ≤ 2 ^ 40) }
{
    u64::from(lifetime) * u64::from(unit) * 1000
}

// The deadline of a route: Default Lifetime times Lifetime Unit seconds. Without a Configuration, and with Default Lifetime 255, it is endless.
#[tactic(auto, using(lemmas::proofs::Cases::cases), unfolding(plain::specs::Rank::lifetime_deadline))]
pub fn of_lifetime(time: u64, configuration: Option<[u8; 14]>) -> Option<u64>
    requires { time ≤ 2 ^ 40 }
    ensures { Means (lifetime_deadline time (of_option configuration)) result }
{
    let octets = configuration?;
    let lifetime = octets[11];
    if lifetime == 255 {
        return None;
    }
    let unit = u16::from_be_bytes([octets[12], octets[13]]);
    Some(time + ms(lifetime, unit))
}
