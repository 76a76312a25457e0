//! The log of a filer or a follower: payloads behind gates in a file of a disk.
#![tactic(auto)]

mod check;
mod fault;
mod front;
mod gate_log;
mod gate_text;
mod head;
mod left;
mod make;
mod meta_log;
mod opening;
mod payloads;
mod place;
mod reading;
mod rising;
mod scan;
mod standing;
mod stem;
mod write;

pub use fault::LogFault;
pub use front::Front;
pub use gate_log::GateLog;
pub use gate_text::GateText;
pub use meta_log::MetaLog;
pub use place::Place;
pub use stem::Stem;
