//! File ids: the volume, key and cookie of a needle, and the text that names it.
#![tactic(auto)]

mod fault;
mod fid;
mod fid_text;
mod reading;

pub use fault::FidFault;
pub use fid::Fid;
pub use fid_text::FidText;

#[cfg(test)]
mod tests;
