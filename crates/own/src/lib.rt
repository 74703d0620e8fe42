// Our two addresses, against an address and against a DODAGID.
#![tactic(auto)]

ghost use Rattle.std.specs.Prelude.{◌≡◌, ◌≤◌};
ghost use Rattle.plain.specs.Request.{ours, cannot_elide};
ghost use Rattle.own.specs.Settings.{settings_of};

// 01, "Settings: a receiving and a sending address."
#[repr(C)]
#[derive(Clone, Copy)]
pub struct Own {
    pub receiving: [u8; 16],
    pub sending: [u8; 16],
}

// Whether an address is our receiving or sending one.
#[tactic(auto, using(lemmas::proofs::Cases::cases))]
pub fn is_ours(o: Own, a: [u8; 16]) -> bool
    ensures { result ≡ ours (settings_of o) a }
{
    address::is_same(a, o.receiving) || address::is_same(a, o.sending)
}

// 10: H is 0 and one of our addresses differs from the DODAGID in the first Compr octets.
#[tactic(auto, using(lemmas::proofs::Cases::cases), unfolding(plain::specs::Request::cannot_elide))]
pub fn cannot_elide(o: Own, h: bool, compr: u8, dodagid: [u8; 16]) -> bool
    requires { compr ≤ 16 }
    ensures { result ≡ cannot_elide (settings_of o) h compr dodagid }
{
    !h && !(shared::shares_first(compr, dodagid, o.receiving)
        && shared::shares_first(compr, dodagid, o.sending))
}
