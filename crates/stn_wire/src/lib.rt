//! What two sites say to each other, as bytes: frames, each with one spelling, and the stream of
//! frames that comes in pieces, also from a reader.
#![tactic(auto)]

pub use encoding::{encode, say};
pub use fault::WireFault;
pub use feeder::{Fed, Feeder};
pub use frame::{Frame, Said};
pub use front::decode;
pub use laws::old_sides;
pub use stream::{FrameFault, FrameReader, Next};

mod body;
mod encoding;
mod fault;
mod feeder;
mod fields;
mod frame;
mod front;
mod item;
mod laws;
mod layout;
mod lists;
mod source;
mod state;
mod stream;

/// The greatest number of bytes in the body of a frame.
pub const MOST_BODY: usize = 262_144;
