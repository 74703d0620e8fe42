// The least Delta that is free for our reply.
// The parts of a key stay parameters: the rules' definitions take them one by one (delta_seen), as the clauses do.
#![tactic(auto)]

ghost use Rattle.std.specs.Prelude.{◌≡◌, true, ℕ, ◌≤◌};
ghost use Rattle.lemmas.specs.Optional.{of_option};
ghost use Rattle.delta.specs.Delta.{delta_seen};

use row::InstanceRow;

// "Delta is the least of 0..63 for which RPLInstanceID plus Delta .. is not in use by a live reply row with that DODAGID."
fn free_delta(rows: &[InstanceRow], t: u64, instance: u8, dodagid: [u8; 16]) -> Option<u8>
    ensures { (clock : ℕ) → clock ≤ t → of_option result ≡ delta_seen clock rows.now t instance dodagid }
{
    (0..64).find(|&delta| {
        find::find_reply(rows, t, rolling::plus_delta(instance, delta), dodagid).is_none()
    })
}

// The free Delta where one is needed: finding it can take 64 passes over the table.
#[tactic(auto, using(lemmas::proofs::Cases::cases, lemmas::proofs::Choice::true_false))]
pub fn free_delta_if(
    needed: bool,
    rows: &[InstanceRow],
    t: u64,
    instance: u8,
    dodagid: [u8; 16],
) -> Option<u8>
    ensures { needed ≡ true → (clock : ℕ) → clock ≤ t → of_option result ≡ delta_seen clock rows.now t instance dodagid }
{
    if needed {
        free_delta(rows, t, instance, dodagid)
    } else {
        None
    }
}
