ghost use Rattle.std.specs.Prelude.{◌≡◌, IfOk};
ghost use Rattle.topology.specs.Nodes.{location_of};

use std::alloc::{AllocError, Global};
use weed_base::Name;

/// A server that keeps volumes.
#[derive(Debug, Drop)]
pub struct Node {
    /// The address at which it is reached.
    pub id: Name,
    /// The address that clients are told besides.
    pub public: Name,
    pub data_center: Name,
    pub rack: Name,
    /// How many volumes it takes.
    pub room: u32,
}

/// Where a volume is reached.
#[derive(Debug, Drop)]
pub struct Location {
    pub url: Name,
    pub public_url: Name,
}

impl Node {
    /// The same node.
    pub fn copy(&self, alloc: Global) -> Result<Node, AllocError>
        ensures { IfOk result (λ node. node ≡ self.now) }
    {
        Ok(Node {
            id: self.id.copy(alloc)?,
            public: self.public.copy(alloc)?,
            data_center: self.data_center.copy(alloc)?,
            rack: self.rack.copy(alloc)?,
            room: self.room,
        })
    }

    /// Where it is reached.
    pub fn location(&self, alloc: Global) -> Result<Location, AllocError>
        ensures { IfOk result (λ location. location ≡ location_of self.now) }
    {
        Ok(Location {
            url: self.id.copy(alloc)?,
            public_url: self.public.copy(alloc)?,
        })
    }
}
