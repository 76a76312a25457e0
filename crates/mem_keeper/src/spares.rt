ghost use Rattle.std.specs.Prelude.{◌≡◌, ◌<◌, ◌≤◌, ◌+◌, OnOk};

use crate::tree::{Node, Tree};
use entry::Entry;
use name_core::directory_made_at;
use std::alloc::{AllocError, Global};
use std::marker::Model;
use weed_base::Path;

/// Nodes that are made ahead of puts. Contracts see how many.
#[derive(Debug, Drop)]
pub struct Spares {
    nodes: Vec<Box<Node>>,
}

impl Model for Spares {
    ghost use Rattle.std.specs.Prelude.{ℕ, length};

    ghost Value = { ℕ };

    ghost view = { λ spares. length spares.nodes.items };
}

impl Spares {
    /// None. Takes no memory.
    pub fn new(alloc: Global) -> Spares
        ensures { result ≡ 0 }
    {
        Spares {
            nodes: Vec::new(alloc),
        }
    }

    fn add(&mut self, alloc: Global) -> Result<(), AllocError>
        ensures { OnOk result (self.new ≡ self.old + 1) }
    {
        let node = Node {
            left: Tree::Empty,
            height: 1,
            path: Path::root(alloc),
            entry: directory_made_at(alloc, 0),
            right: Tree::Empty,
        };
        self.nodes.push(Box::new(alloc, node)?)?;
        Ok(())
    }

    /// Makes nodes until there are so many.
    pub fn reserve(&mut self, alloc: Global, count: usize) -> Result<(), AllocError>
        ensures { OnOk result (count ≤ self.new) }
    {
        while self.nodes.len() < count {
            self.add(alloc)?;
        }
        Ok(())
    }

    /// A node of an entry at its path. Takes no memory.
    pub fn take(&mut self, path: Path, entry: Entry) -> Box<Node>
        requires { 0 < self.old }
        ensures path { result.value.path ≡ path }
        ensures entry { result.value.entry ≡ entry }
        ensures left { self.old ≡ self.new + 1 }
    {
        match self.nodes.pop() {
            Some(mut node) => {
                node.path = path;
                node.entry = entry;
                node
            }
            None => unreachable!(),
        }
    }
}
