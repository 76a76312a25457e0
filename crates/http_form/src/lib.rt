//! Forms of one part (RFC 7578) as bodies of HTTP messages.
#![tactic(auto)]

mod boundary;
mod field;
mod layout;
mod part;
mod search;
mod trim;

pub use boundary::{boundary_of, is_form};
pub use part::{Part, read_form};
