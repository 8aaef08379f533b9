//! A route that a program has stored as a value, and that an older version of the library made.

ghost use Rattle.std.specs.Prelude.{◌≡◌};
ghost use Rattle.netlink_packet_route.specs.{Messages.{view}, RouteMessage.{normalized_route, routes}};

use netlink_packet_route::route::{RouteMessage, normalize};

/// The route with each mode of a SEG6 header under the name that its number has now, and all else as
/// it was. Its canonical bytes are what they were.
pub fn restored(stored: RouteMessage) -> RouteMessage
    ensures { view routes result ≡ normalized_route (view routes stored) }
{
    let mut route = stored;
    normalize(&mut route);
    route
}
