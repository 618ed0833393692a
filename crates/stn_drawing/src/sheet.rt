//! What each picture begins with.
ghost use Rattle.std.specs.Prelude.{◌≡◌, ◌++◌, OnOk};
ghost use Rattle.stn_drawing.specs.Sheet.{open_text, paper_text, heading_text};

use crate::escape::{append_cut, append_shown};
use crate::memory::in_memory;
use std::alloc::Allocator;
use std::io::Write;
use stn_time::Memory;

// The title has at most so many characters.
const MOST_TITLE: usize = 60;

// After an error, the output has no meaning.

/// Appends the beginning of a picture of such a height, with its title.
pub fn append_opening<A: Allocator>(
    out: &mut Vec<u8, A>,
    title: &[u8],
    height: u64,
) -> Result<(), Memory>
    ensures { OnOk result (out.new.items ≡ out.old.items ++ open_text title.now height) }
{
    in_memory(write!(
        out,
        "<svg xmlns='http://www.w3.org/2000/svg' viewBox='0 0 1000 {height}' role='img'>\n<title>"
    ))?;
    append_shown(out, title)?;
    out.extend_from_slice(b"</title>\n")
}

/// Appends the ground, and the stripes from the second row on to the end of the rows.
pub fn append_paper<A: Allocator>(
    out: &mut Vec<u8, A>,
    height: u64,
    second: u64,
    end: u64,
) -> Result<(), Memory>
    ensures { OnOk result (out.new.items ≡ out.old.items ++ paper_text height second end) }
{
    let last = second.max(end);
    in_memory(write!(
        out,
        "<rect class='z' width='1000' height='{height}'/>\n<path class='y' d='M500 {second}V{last}'/>\n"
    ))
}

/// Appends the title as it is seen.
pub fn append_heading<A: Allocator>(out: &mut Vec<u8, A>, title: &[u8]) -> Result<(), Memory>
    ensures { OnOk result (out.new.items ≡ out.old.items ++ heading_text title.now) }
{
    out.extend_from_slice(b"<text class='t' x='8' y='20'>")?;
    append_cut(out, MOST_TITLE, title)?;
    out.extend_from_slice(b"</text>\n")
}
