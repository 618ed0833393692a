//! Where things stand in the picture of a plan, in units from the left and from the top.
ghost use Rattle.std.specs.Prelude.{◌≡◌, ◌<◌, ◌≤◌, ◌^◌};
ghost use Rattle.stn_chart.specs.Places.{row_top, height_of};

/// Where the axis ends.
pub const LINE_RIGHT: u64 = LINE_LEFT + LINE_WIDTH;

/// Where it begins.
pub const LINE_LEFT: u64 = 344;

/// How long it is.
pub const LINE_WIDTH: u64 = 540;

pub const ROW_HEIGHT: u64 = 24;

/// From the top of a row to the line on which its words stand.
pub const WORDS_BELOW: u64 = 16;

/// From the top of a row to the middle of its bars.
pub const MIDDLE_BELOW: u64 = 12;

/// A bar is at least so wide.
pub const LEAST_WIDTH: u64 = 2;

/// A name has at most so many characters.
pub const MOST_NAME: usize = 46;

/// Where the first entry of the legend begins.
pub const LEGEND_LEFT: u64 = 32;

/// How far each further one is from the one before.
pub const LEGEND_APART: u64 = 120;

/// Where a row begins.
pub fn row_top(row: u64) -> u64
    requires { row < 2 ^ 40 }
    ensures value { result ≡ row_top row }
    ensures small { result < 2 ^ 45 }
    ensures below { 54 ≤ result }
{
    54 + ROW_HEIGHT * row
}

/// The height of the picture of so many steps.
pub fn height_of(steps: u16) -> u64
    ensures { result ≡ height_of steps }
{
    row_top(u64::from(steps)) + 64
}
