ghost use Rattle.std.specs.Prelude.{◌<◌, ◌↔◌, length, IsTrue};
ghost use Rattle.stn_net.specs.Windows.Dispatch.{IsLeft};

use crate::Event;

/// Whether the event is not the origin and is not done.
pub fn is_left(done: &[bool], event: Event) -> bool
    requires { event < length done.now }
    ensures { IsTrue result ↔ IsLeft done.now event }
{
    event != Event::origin() && !done[usize::from(event.number())]
}
