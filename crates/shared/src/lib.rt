// The octets that an address shares with the DODAGID (01, "Vector addresses drop their first Compr octets, shared with the DODAGID").
#![tactic(auto)]

ghost use Rattle.std.specs.Prelude.{◌≡◌, ◌≤◌};
ghost use Rattle.plain.specs.Address.{shares_first};

// Whether the first `compr` octets of `a` are those of the DODAGID.
#[tactic(auto, using(lemmas::proofs::Library::pointwise_same, lemmas::proofs::Cases::cases))]
pub fn shares_first(compr: u8, dodagid: [u8; 16], a: [u8; 16]) -> bool
    requires { compr ≤ 16 }
    ensures { result ≡ shares_first compr dodagid a }
{
    // a number: a type with Compr at most 15 would ask more than this clause
    let n = usize::from(compr);
    a[..n] == dodagid[..n]
}
