//! Where a filer's published records go: an outlet takes each record's text and publishes it at one step.
#![tactic(auto)]

mod list_outlet;
mod outlet;

pub use list_outlet::ListOutlet;
pub use outlet::Outlet;
