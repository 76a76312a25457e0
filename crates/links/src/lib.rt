//! Links to other servers, and what gives cookies: as traits, and in memory.
#![tactic(auto)]

mod cookies;
mod link;
mod mem_calls;
mod mem_cookies;
mod mem_link;

pub use cookies::Cookies;
pub use link::Link;
pub use mem_cookies::MemCookies;
pub use mem_link::MemLink;
