ghost use Rattle.std.specs.Prelude.{◌≡◌, ◌⊎◌, Ok, Err, IfOk, IfErr};
ghost use Rattle.stn_refusal.specs.Refusals.{out_of_memory};
ghost use Rattle.stn_text.specs.Lines.{words_of};
ghost use Rattle.stn_command.specs.Words.{times_read};

use std::alloc::Allocator;
use stn_command::read_time;
use stn_refusal::Failure;
use stn_text::first_word;
use stn_time::Ms;

/// The times that the words of a line spell, or the first that can't be read.
pub fn read_times<A: Allocator>(alloc: A, line: &[u8]) -> Result<Vec<Ms, A>, Failure>
    ensures read { IfOk result (λ times. times_read (words_of line.now) ≡ Ok times.items) }
    ensures refused { IfErr result (λ failure. (failure ≡ out_of_memory) ⊎ (times_read (words_of line.now) ≡ Err failure)) }
{
    let mut times = Vec::new(alloc);
    let mut rest = line;
    while let Some((word, behind)) = first_word(rest) {
        let time = read_time(word)?;
        times.push(time)?;
        rest = behind;
    }
    Ok(times)
}
