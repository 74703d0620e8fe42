// How a message stands to the live row of its key: the three ways that a rule asks. Functions, since their clauses are the rules' words.
#![tactic(auto)]

ghost use Rattle.std.specs.Prelude.{◌≡◌};
ghost use Rattle.plain.specs.Request.{is_stale, is_nothing_new, is_update};

use plain::Standing;

pub fn is_stale(st: Standing) -> bool
    ensures { result ≡ is_stale st }
{
    st == Standing::Stale
}

pub fn is_nothing_new(st: Standing) -> bool
    ensures { result ≡ is_nothing_new st }
{
    st == Standing::NothingNew
}

pub fn is_update(st: Standing) -> bool
    ensures { result ≡ is_update st }
{
    st == Standing::Update
}
