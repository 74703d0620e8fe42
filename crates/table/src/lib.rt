// The two lent tables: whether every row is good. Each is one chain: a function that took the test would be `all` itself.
#![tactic(auto)]

ghost use Rattle.std.specs.Prelude.{◌≡◌, map};
ghost use Rattle.plain.specs.Answers.{good_instance, good_route, all_good};
ghost use Rattle.row.specs.Meaning.{instance_of, route_of};

use row::{InstanceRow, RouteRow};

// No row in use is wrong.
pub fn all_good(rows: &[InstanceRow]) -> bool
    ensures { result ≡ all_good good_instance (map instance_of rows.now) }
{
    rows.iter().all(|r| good::is_good(*r))
}

// No route in use is wrong.
pub fn all_good_routes(routes: &[RouteRow]) -> bool
    ensures { result ≡ all_good good_route (map route_of routes.now) }
{
    routes.iter().all(|r| good::is_good_route(*r))
}
