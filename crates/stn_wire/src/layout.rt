// The two layouts of records in frames.
ghost use Rattle.std.specs.{Prelude.{◌≡◌, ◌*◌, length}, Int.to_be_bytes};
ghost use Rattle.stn_wire.specs.{Spelling.{layout_horizon, width_of, side_width, most_gap, entry_width}, Apart.IsSideNumber};

use crate::fields::{eight_of, four_of};
use stn_time::HORIZON;

// The horizon of the old version.
const OLD_HORIZON: i64 = 1_000_000_000;

/// How the sides of records are spelled: in how many bytes, and within which horizon.
#[derive(Clone, Copy)]
pub(crate) enum Layout {
    /// That of the old version.
    Old,
    /// That of today.
    New,
}

impl Layout {
    /// How many bytes a side has.
    pub(crate) fn side_width(self) -> usize
        ensures { result ≡ side_width self }
    {
        match self {
            Layout::Old => 4,
            Layout::New => 8,
        }
    }

    /// How many bytes an id and its record have.
    pub(crate) fn entry_width(self) -> usize
        ensures { result ≡ entry_width self }
    {
        9 + 2 * self.side_width()
    }

    /// The greatest difference.
    pub(crate) fn furthest(self) -> i64
        ensures { result ≡ layout_horizon self }
    {
        match self {
            Layout::Old => OLD_HORIZON,
            Layout::New => HORIZON,
        }
    }

    /// How far the greatest difference lies above the least.
    pub(crate) fn most_gap(self) -> u64
        ensures { result ≡ most_gap self }
    {
        match self {
            Layout::Old => 2 * OLD_HORIZON as u64,
            Layout::New => 2 * HORIZON as u64,
        }
    }

    /// The number that the bytes of a side spell.
    pub(crate) fn number_of(self, bytes: &[u8]) -> u64
        requires { length bytes.now ≡ side_width self }
        ensures spelled { to_be_bytes (width_of self) result ≡ bytes.now }
        ensures small { IsSideNumber self result }
    {
        match self {
            Layout::Old => u64::from(four_of(bytes)),
            Layout::New => eight_of(bytes),
        }
    }
}
