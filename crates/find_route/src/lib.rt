// Searches over the lent table of routes.
// Each is a chain of its own: a search that takes the test would be `position` itself.
// The parts of a key stay parameters: the rules' definitions take them one by one (route_here), as the clauses do.
#![tactic(auto)]

ghost use Rattle.std.specs.Prelude.{◌≡◌, map};
ghost use Rattle.plain.specs.Table.{route_deadline};
ghost use Rattle.row.specs.Meaning.{route_of};
ghost use Rattle.keyed.specs.Look.{route_here};
ghost use Rattle.first.specs.First.{found_at};
ghost use Rattle.first.specs.Spare.{dead};

use row::RouteRow;

// The first route of those three that is live at t.
pub fn find_route(
    routes: &[RouteRow],
    t: u64,
    source: [u8; 16],
    destination: [u8; 16],
    instance: u8,
) -> Option<usize>
    ensures { result ≡ found_at (route_here t source destination instance) (map route_of routes.now) }
{
    routes
        .iter()
        .position(|r| keyed::is_route(*r, t, source, destination, instance))
}

// The first route that is not live at t.
pub fn find_spare_route(routes: &[RouteRow], t: u64) -> Option<usize>
    ensures { result ≡ found_at (dead route_deadline t) (map route_of routes.now) }
{
    routes.iter().position(|r| !live::is_live_route(*r, t))
}
