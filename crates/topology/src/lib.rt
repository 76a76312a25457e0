//! The nodes of a store, the volumes that they report, and the nodes at which a volume may stand.
#![tactic(auto)]

mod fault;
mod member;
mod node;
mod numbered;
mod placing;
mod report;
#[cfg(test)]
mod tests;
mod topology_of_nodes;
mod volumes;
mod writable;

pub use fault::TopologyFault;
pub use member::Member;
pub use node::{Location, Node};
pub use numbered::Numbered;
pub use report::VolumeReport;
pub use topology_of_nodes::Topology;
