//! The requests of a list of bytes, and that it has one such list.
#![tactic(auto)]

mod laws;

pub use laws::{a_body_is_read_one_way, bytes_have_one_list_of_requests};
