//! What is told before a command waits.

ghost use Rattle.std.specs.Prelude.{◌≡◌, IfOk, option_map};
ghost use Rattle.stn_reasons.specs.Waiting as spec;
ghost use Rattle.stn_reasons.specs.Waiting.{TellsWaiting};

use crate::telling::text_of;
use std::alloc::Allocator;
use stn_asked::refused_word;
use stn_line::Line;
use stn_site::Piece;
use stn_store::Store;
use stn_time::Memory;

/// The line that tells that another program holds the log that a command changes, so that it waits; nothing, if the command waits for
/// nobody: its words are refused, or it holds no log to change it.
pub fn waiting_of<S: Store<A>, A: Allocator + Copy>(
    alloc: A,
    store: &S,
    line: &Line<'_>,
) -> Result<Vec<u8, A>, Memory>
    ensures { IfOk result (λ text. TellsWaiting line.now text.items) }
{
    match changed_log(alloc, line)? {
        Some(name) if store.is_held(name) => waiting_text(alloc, name),
        _ => Ok(Vec::new(alloc)),
    }
}

// The log that a command changes, if its words can be read.
fn changed_log<'a, A: Allocator + Copy>(
    alloc: A,
    line: &Line<'a>,
) -> Result<Option<&'a str>, Memory>
    ensures { IfOk result (λ log. option_map (λ name. name.now) log ≡ spec.changed_log line.now) }
{
    let Line::Change(log, _) = line else {
        return Ok(None);
    };
    match refused_word(alloc, line)? {
        Some(_) => Ok(None),
        None => Ok(Some(log.name)),
    }
}

// The line that tells that a log is waited for.
fn waiting_text<A: Allocator>(alloc: A, name: &str) -> Result<Vec<u8, A>, Memory>
    ensures { IfOk result (λ text. text.items ≡ spec.waiting_text name.now) }
{
    text_of(
        alloc,
        &[
            Piece::Text(name.as_bytes()),
            Piece::Text(b": another program holds it, waiting\n"),
        ],
    )
}
