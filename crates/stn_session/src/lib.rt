//! What two sites say to each other over a reader and a writer: a session that answers frames as
//! they come, and an exchange, which asks and takes in the replies.
#![tactic(auto)]

pub use exchange::{ReplyFault, receive_replies, send_requests};
pub use keeper::{Keeper, Nowhere};
pub use session::{End, KeepingFault, ServeFault, Served, serve, serve_keeping};
pub use stn_device::{Counted, MOST_BYTES};
pub use stn_wire::FrameFault;

mod exchange;
mod keeper;
mod replies;
mod session;
