ghost use Rattle.std.specs.Prelude.{Some};
ghost use Rattle.stn_text.specs.Names.{event_text};

use std::fmt;

/// An event, by its number, as its name is printed.
#[derive(Drop)]
pub struct EventName(pub u16);

impl fmt::Display for EventName {
    ghost output = { λ event. Some (event_text event.0) };

    fn fmt<W: fmt::Write>(&self, f: &mut fmt::Formatter<W>) -> fmt::Result {
        if self.0 == 0 {
            write!(f, "z")
        } else if self.0 % 2 == 1 {
            let step = self.0 / 2 + 1;
            write!(f, "s{step}")
        } else {
            let step = self.0 / 2;
            write!(f, "e{step}")
        }
    }
}
