ghost use Rattle.std.specs.Prelude.{◌≤◌, List};
ghost use Rattle.stn_net.specs.{Difference.Difference, Matrix.Tightest.IsExact, Windows.Window.IsWindow};

use crate::Matrix;
use std::alloc::Allocator;
use stn_net::Event;
use stn_time::Ms;

/// The earliest and the latest time that an event takes in a schedule of the bounds that the
/// matrix took; it takes each whole millisecond between in some schedule, too.
pub fn window<A: Allocator>(matrix: &Matrix<A>, event: Event) -> (Ms, Ms)
    requires { event ≤ matrix.now.events }
    ensures { (bounds : List Difference) → IsExact bounds matrix.now → IsWindow bounds event result.0 result.1 }
{
    let origin = Event::origin();
    let earliest = -matrix.far(event, origin);
    let latest = matrix.far(origin, event);
    (earliest, latest)
}
