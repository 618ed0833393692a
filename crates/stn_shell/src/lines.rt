//! The lines of an input, each read when it is asked for.

ghost use Rattle.std.specs.Prelude.{◌≡◌, ◌≢◌, [], IsNone, IfSome, option_map};
ghost use Rattle.stn_device.specs.Failures.{read_failure};
ghost use Rattle.stn_effects.specs.{Effects.{failing, seen}, Printing.device_of};
ghost use Rattle.stn_shell.specs.Lines.{TakesLine};

use std::alloc::Allocator;
use std::io::Read;
use stn_device::{Counted, ReadFault};
use stn_text::LINE_FEED;

/// The next line of an input, without its LF, which the last may lack; none at the end. No byte after the line is read: the reader
/// is asked for one after the other. `room` says how many bytes may still be read; one more shows that the input is too long.
pub fn read_line<R: Read, A: Allocator>(
    alloc: A,
    reader: &mut Counted<R>,
    room: &mut usize,
) -> Result<Option<Vec<u8, A>>, ReadFault>
    ensures { TakesLine room.old room.new (device_of R.remaining reader.old) (device_of R.remaining reader.new)
        (seen (λ line. option_map (λ text. text.items) line) (failing read_failure result)) }
{
    let mut line = Vec::new(alloc);
    let mut byte = [0u8; 1];
    'bytes: loop {
        match reader.read(&mut byte) {
            Ok(0) => return Ok(last_line(line)),
            Ok(_) => {
                if *room == 0 {
                    return Err(ReadFault::Bound);
                }
                *room -= 1;
                if byte[0] == LINE_FEED {
                    return Ok(Some(line));
                }
                line.extend_from_slice(&byte)?;
            }
            Err(_) => return Err(ReadFault::Read),
        }
    }
}

// What stands in front of the end of an input: a last line, if it has a byte.
fn last_line<A: Allocator>(line: Vec<u8, A>) -> Option<Vec<u8, A>>
    ensures none { IsNone result → line.items ≡ [] }
    ensures some { IfSome result (λ last. (last.items ≡ line.items) × (line.items ≢ [])) }
{
    if line.is_empty() { None } else { Some(line) }
}
