// 9, asked of a vector: one of our addresses in it, and an address exactly once in it.
#![tactic(auto)]

ghost use Rattle.std.specs.Prelude.{◌≡◌, eqb};
ghost use Rattle.plain.specs.Lists.{any, count, same};
ghost use Rattle.plain.specs.Request.{ours};
ghost use Rattle.own.specs.Settings.{settings_of};

use own::Own;

// Whether one of our addresses stands in a vector.
pub fn has_ours(o: Own, vector: &[[u8; 16]]) -> bool
    ensures { result ≡ any (ours (settings_of o)) vector.now }
{
    vector.iter().any(|a| own::is_ours(o, *a))
}

// Whether an address stands in a vector exactly once.
pub fn stands_once(a: [u8; 16], vector: &[[u8; 16]]) -> bool
    ensures { result ≡ eqb (count (same a) vector.now) 1 }
{
    vector.iter().filter(|b| address::is_same(a, **b)).count() == 1
}
