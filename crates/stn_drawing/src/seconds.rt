ghost use Rattle.std.specs.Prelude.{Some};
ghost use Rattle.stn_time.specs.Text.{printed};

use std::fmt;

/// A time or a sum of times, in milliseconds, as it is printed.
#[derive(Clone, Copy)]
pub struct Seconds(pub i64);

impl fmt::Display for Seconds {
    ghost output = { λ time. Some (printed time.0) };

    fn fmt<W: fmt::Write>(&self, f: &mut fmt::Formatter<W>) -> fmt::Result {
        let millis = self.0;
        let sign = if millis < 0 { "-" } else { "" };
        let size = millis.unsigned_abs();
        let seconds = size / 1000;
        let rest = size % 1000;
        let (tenths, hundredths, thousandths) = (rest / 100, rest / 10 % 10, rest % 10);
        write!(f, "{sign}{seconds}.{tenths}{hundredths}{thousandths}")
    }
}
