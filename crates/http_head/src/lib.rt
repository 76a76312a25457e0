//! Heads of HTTP messages over `httparse`: what a request's head is taken as, and with what it is refused.
#![tactic(auto)]

mod body;
mod fault;
mod front;
mod head;
mod judge;
mod lines;
mod range;
mod target;
mod words;

pub use body::{BodyKind, body_of, has_other_coding};
pub use fault::HeadFault;
pub use front::{Front, MAX_HEAD, read_front};
pub use head::{Head, HeadQuery, Method, method_of};
pub use judge::{HeadParts, MAX_LINES, judge_head, says_close};
pub use lines::{first_value, is_named};
pub use range::{RangeWish, wish_of};
pub use target::{is_well_escaped, path_of, query_of};
pub use words::{back_of, front_of, has_word, is_word, place_of, read_number};
