//! HTTP/1.1 (RFC 9112) from the client's side: requests that are written, and answers that are read.
#![tactic(auto)]

mod body;
mod front;
mod judge;
mod laws;
mod next;
mod request;

pub use laws::requests_are_read;
pub use request::write_request;
