//! The lines, words and numbers of texts that are read by lines, and the names of events and ids.
#![tactic(auto)]

pub use appending::all_or_nothing;
pub use bytes::{LINE_FEED, MOST_TEXT, begins_comment, is_space, is_too_long, is_visible};
pub use lines::{first_line, first_word};
pub use names::{print_event, print_id};
pub use numbers::{MOST_DIGITS, append_decimal, read_decimal, read_number};
pub use std::alloc::AllocError as Memory;

mod appending;
mod bytes;
mod lines;
mod names;
mod numbers;
