//! The axis of time, in milliseconds.
ghost use Rattle.std.specs.Prelude.{◌≡◌, ◌+◌, ◌<◌, ◌≤◌, ◌^◌};
ghost use Rattle.stn_drawing.specs.Axis.{gaps, gaps_in, fits, gap_of, unit_of, unit_text};

// The gaps that two ticks may have.
const GAPS: [u64; 25] = [
    1_000,
    2_000,
    5_000,
    10_000,
    15_000,
    30_000,
    60_000,
    120_000,
    300_000,
    600_000,
    900_000,
    1_800_000,
    3_600_000,
    7_200_000,
    18_000_000,
    36_000_000,
    54_000_000,
    86_400_000,
    172_800_000,
    432_000_000,
    864_000_000,
    1_296_000_000,
    2_592_000_000,
    5_184_000_000,
    12_960_000_000,
];

const WIDEST_GAP: u64 = 25_920_000_000;

const MOST_GAPS: u64 = 10;

/// An axis as it is drawn.
#[derive(Clone, Copy)]
pub struct Axis {
    /// Where it begins, in units from the left.
    pub left: u64,
    /// How wide it is, in units.
    pub width: u64,
    /// How long it is, in milliseconds.
    pub long: u64,
    /// The gap between two ticks, in milliseconds.
    pub gap: u64,
    /// How many ticks stand before that of the time 0.
    pub before: u64,
    /// How many ticks there are.
    pub ticks: u64,
    /// Where the lines of the ticks end, in units from the top.
    pub bottom: u64,
    ghost near: { left < 2 ^ 10 },
    ghost narrow: { width < 2 ^ 10 },
    ghost some: { 1 ≤ long },
    ghost short: { long ≤ 2 ^ 50 },
    ghost small_gap: { gap < 2 ^ 36 },
    ghost few_before: { before < 2 ^ 14 },
    ghost few_ticks: { ticks ≤ 2 ^ 15 },
}

/// The gap of an axis that reaches so far before the time 0 and so far after it.
pub fn gap_of(before: u64, after: u64) -> u64
    requires before { before < 2 ^ 45 }
    requires after { after < 2 ^ 45 }
    ensures gap { result ≡ gap_of before after }
    ensures least { 1000 ≤ result }
    ensures most { result < 2 ^ 36 }
    ensures few { gaps_in result before + gaps_in result after < 2 ^ 14 }
{
    for gap in GAPS {
        if fits(before, after, gap) {
            return gap;
        }
    }
    WIDEST_GAP
}

// Whether an axis that reaches so far has few ticks with this gap.
fn fits(before: u64, after: u64, gap: u64) -> bool
    requires before { before < 2 ^ 50 }
    requires after { after < 2 ^ 50 }
    requires gap { 1 ≤ gap }
    requires small { gap < 2 ^ 36 }
    ensures { result ≡ fits before after gap }
{
    gaps_in(gap, before) + gaps_in(gap, after) <= MOST_GAPS
}

/// How many gaps it takes to reach so far.
pub fn gaps_in(gap: u64, far: u64) -> u64
    requires gap { 1 ≤ gap }
    requires small { gap < 2 ^ 36 }
    requires far { far < 2 ^ 50 }
    ensures value { result ≡ gaps_in gap far }
    ensures some { 1 ≤ far → 1 ≤ result }
    ensures small { result < 2 ^ 51 }
{
    (far + (gap - 1)) / gap
}

/// The unit in which the ticks are counted.
pub fn unit_of(gap: u64) -> u64
    ensures value { result ≡ unit_of gap }
    ensures some { 1 ≤ result }
{
    if gap < 60_000 {
        1_000
    } else if gap < 3_600_000 {
        60_000
    } else if gap < 86_400_000 {
        3_600_000
    } else {
        86_400_000
    }
}

pub fn unit_text(gap: u64) -> &'static str
    ensures { result.now ≡ unit_text gap }
{
    if gap < 60_000 {
        " s"
    } else if gap < 3_600_000 {
        " min"
    } else if gap < 86_400_000 {
        " h"
    } else {
        " d"
    }
}
