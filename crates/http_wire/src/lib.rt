//! Messages of HTTP/1.1 (RFC 9112) over a source and a sink: what is read from one, and what is written to the other.
#![tactic(auto)]

mod answer;
mod inbox;
mod next;
mod session_end;
mod write;

pub use answer::{Answer, AnswerHeaders, write_response};
pub use inbox::Inbox;
pub use next::{Next, next_request};
pub use session_end::SessionEnd;
pub use write::{WriteFault, write_all};
