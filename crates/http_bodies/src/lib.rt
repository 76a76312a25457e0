//! Bodies of HTTP messages (RFC 9112), by length and in chunks, over a source and the inbox beside it.
#![tactic(auto)]

mod fault;
mod mark;
mod read;
mod stage;
mod state;

pub use fault::BodyFault;
pub use read::read_body;
pub use state::{BodyState, MAX_BODY};
