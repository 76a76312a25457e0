//! The master of a store: it knows the nodes, gives each needle its volume and key, and grows volumes.
#![tactic(auto)]

mod fault;
mod heartbeat;
mod heartbeat_fault;
mod heartbeat_message;
mod heartbeat_reading;
mod heartbeat_writing;
mod laws;
mod master;
mod turns;
mod volume_message;

pub use fault::MasterFault;
pub use heartbeat::{Heartbeat, HeartbeatVolumes};
pub use heartbeat_fault::HeartbeatFault;
pub use heartbeat_writing::write_report;
pub use laws::{heartbeats_are_read_back, keys_rise, numbers_rise};
pub use master::Master;
pub use turns::{Assigned, Grown, GrownNodes};
