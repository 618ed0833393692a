ghost use Rattle.std.specs.Prelude.{◌≡◌, ◌↔◌, IsTrue};
ghost use Rattle.stn_line.specs.Explanations.Subjects.{word_of_fault, subject_word};

use stn_refusal::{Code, Fault};
use stn_text::read_decimal;

/// What can be explained.
#[derive(Clone, Copy, Debug, PartialEq, Eq)]
pub enum Subject {
    /// A refusal, by its number.
    Refusal(Code),
    /// A fault, by its word.
    Fault(Fault),
}

impl Subject {
    /// Whether a word names the subject: the number of a refusal as it is printed, or the word of a fault.
    pub fn has_name(self, word: &str) -> bool
        ensures { IsTrue result ↔ (word.now ≡ subject_word self) }
    {
        match self {
            Subject::Refusal(code) => read_decimal(word.as_bytes())
                == Some(u16::from(code.number())),
            Subject::Fault(fault) => word.as_bytes() == fault_word(fault),
        }
    }
}

/// The word of a fault, as it is printed after `fault`.
pub fn fault_word(fault: Fault) -> &'static [u8]
    ensures { result.now ≡ word_of_fault fault }
{
    match fault {
        Fault::Read => b"read",
        Fault::Write => b"write",
        Fault::Bound => b"bound",
        Fault::Memory => b"memory",
        Fault::File => b"file",
        Fault::Net => b"net",
    }
}
