//! What a request asks of a filer, as its head says, and with what a head is refused.
#![tactic(auto)]

mod check;
mod fault;
mod form;
mod place;
mod query;
mod read;
mod row;
mod wish;

pub use check::awaits_continue;
pub use fault::WishFault;
pub use form::boundary_of;
pub use read::read_wish;
pub use wish::{MAX_MIME, Wish, fits_mime};
