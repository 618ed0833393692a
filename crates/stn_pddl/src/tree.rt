//! The bytes of a domain text as one tree of words and lists, read with a cursor over the text and no tree in memory.

mod bytes;
mod cursor;
mod name;
mod scan;
mod word;

pub use cursor::{Child, Cursor};
pub use name::{Name, is_same_word};
pub use scan::{TreeFault, start};
