//! What the program says of words that are no command line.

ghost use Rattle.std.specs.{Prelude.{◌≢◌, [], IfOk}, String.string_bytes};

use std::alloc::{AllocError, Global};

/// What follows the list of commands in the help of the program.
pub(crate) const REFUSALS: &str = "\
Words:
  LOG    a file that holds what one site knows; `bare`, `init` and `loosen` make one
  SITE   the number of this site, from 1 to 64; always give a log the same one
  times  in seconds: 5, 2.5 or 0.001; write a negative one as `--lo=-5`, or after the word `--`
  events `z` is the origin, `s1` the start of step 1, `e1` its end
  steps  `2,4-6` are the steps 2, 4, 5 and 6
  ids    `1.2` is the second record that site 1 made

An example:
  stn bare t.log 1 1
  stn add t.log 1 s1 e1 --lo=5 --hi=5
  stn report t.log 1

A refusal is printed as `refused` and a number. Nothing is changed then.
   1  not a time                2  finer than a millisecond    3  beyond the horizon
   4  no such event             5  both events are the same    6  lo is above hi
   7  an event is overdue
  10  domain too long          11  domain: syntax             12  domain: brackets too deep
  13  domain: unsupported      14  domain: number             15  domain: given twice
  16  domain: unknown variable
  20  plan too long            21  plan: syntax               22  plan: number
  23  plan: negative time      24  plan: too many steps
  30  plan: unknown action     31  plan: number of arguments  32  plan: another duration
  33  plan: past the horizon   34  more than 256 steps
  40  an id has two records    41  too many ids               42  no such record
  43  no ids left at the site  44  a record replaces itself   45  no times for all durations
  50  frame: length            51  frame: kind                52  frame: body
  53  frame: old version
  60  logs of different plans  61  unexpected frame           62  not a log
  63  unexpected reply         64  LOG already exists         65  a site of an old version
  70  wrong form               71  no such site               72  no such packet
  73  too many packets

Status: 0 done; 1 refused, or a file, a device or the net failed; 2 wrong words.
What one means and what to do: `stn explain 41`, `stn explain file`; all of them: `stn explain`.";

/// What is said of words that are no command line, or ask for help or the version: the text of clap. Where clap has none, what
/// follows the list of commands in the help.
pub fn said(alloc: Global, error: &clap::Error) -> Result<String, AllocError>
    ensures { IfOk result (λ text. string_bytes text ≢ []) }
{
    let text = format!(in alloc; "{error}")?;
    if text.is_empty() {
        String::from_str(alloc, REFUSALS)
    } else {
        Ok(text)
    }
}
