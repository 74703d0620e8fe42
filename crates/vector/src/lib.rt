// The addresses of a vector (01, "Vector addresses drop their first Compr octets, shared with the DODAGID").
// They are an array of fixed room, as there is no heap: how many they are follows from the octets.
#![tactic(auto)]

ghost use Rattle.std.specs.Prelude.{◌≡◌, ◌-◌, ◌/◌, ◌≤◌, length, take};
ghost use Rattle.plain.specs.Octets.{restored};

// The whole addresses of a vector's octets: as many as they are, from the first on.
#[tactic(auto, using(octets::proofs::Laws::over_end, crate::proofs::Laws::restoring_first, crate::proofs::Laws::room_here, crate::proofs::Laws::restoring_last, lemmas::proofs::Cases::cases))]
pub fn addresses(part: &[u8], compr: u8, dodagid: [u8; 16]) -> [[u8; 16]; 16]
    requires { (compr ≤ 15) × (length part.now / (16 - compr) ≤ 16) }
    ensures { take (length part.now / (16 - compr)) result ≡ restored compr dodagid part.now }
{
    let compr = usize::from(compr);
    let width = 16 - compr;
    let mut vector = [[0u8; 16]; 16];
    for (i, piece) in part.chunks_exact(width).enumerate() {
        // written in place: a copy would read back what was just written
        vector[i] = dodagid;
        octets::put_over(&mut vector[i], compr, piece);
    }
    vector
}
