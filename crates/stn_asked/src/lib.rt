//! What the words of a command on a log ask for, and the word that refuses the command.
#![tactic(auto)]

pub use asked::{Asked, Update, read_question, read_update, refused_word};
pub use words::{Form, RefusedWord, read_tolerance};

mod asked;
mod words;
