//! Frames that are cut off a reader's bytes, piece by piece.

pub use fault::FrameFault;
pub use reader::{FrameReader, Next};

mod fault;
mod reader;
