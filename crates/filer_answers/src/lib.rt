//! The answers of a filer as values: one for each row of its requests, and one for each way in which one is denied.
#![tactic(auto)]

mod changed;
mod denial;
mod heads;
mod json;
mod lines;
mod manner;
mod part;
mod text;

pub use changed::{continue_answer, made, moved, refused, removed, written};
pub use denial::{Denial, denied};
pub use heads::{file_head, subscription_head};
pub use manner::Manner;
pub use part::{Part, wished_part};
