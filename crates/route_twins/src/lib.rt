// Whether two live routes have one key (answer 2): the search is that of crates/twins.
#![tactic(auto)]

ghost use Rattle.std.specs.Prelude.{◌≡◌, map};
ghost use Rattle.plain.specs.Lists.{any_two};
ghost use Rattle.plain.specs.Table.{live_rows, route_deadline};
ghost use Rattle.plain.specs.Answers.{route_twins};
ghost use Rattle.row.specs.Meaning.{route_of};

use row::RouteRow;

// Two routes of one source, destination and RPLInstanceID, both live at the clock.
pub fn has_twins_route(routes: &[RouteRow], clock: u64) -> bool
    ensures { result ≡ any_two route_twins (live_rows route_deadline clock (map route_of routes.now)) }
{
    // public by itself, and so beside twins::has_pair: its clause may not change
    twins::has_pair(routes, clock)
}
