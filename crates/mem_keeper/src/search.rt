ghost use Rattle.std.specs.Prelude.{◌≡◌, ◌≤◌, ◌++◌, ◌∷◌, [], take, length, IfOk, OnOk, IsTrue, option_copied};
ghost use Rattle.mem_keeper.specs.Items.{RisesBetween, items, listed, named, wanted_of};
ghost use Rattle.mem_keeper.specs.Places.{IsNoneAmong};

use crate::places::{Place, Wanted};
use crate::tree::{Node, Tree};
use std::alloc::{AllocError, Global};

/// A search for the first nodes that are wanted, at most so many.
#[derive(Drop)]
pub struct Search<'w, W: Wanted> {
    pub alloc: Global,
    pub wanted: &'w W,
    pub room: usize,
}

impl<'w, W: Wanted> Search<'w, W> {
    /// Whether it is known that none is wanted between two nodes.
    fn skips(&self, least: Option<&Node>, most: Option<&Node>) -> Result<bool, AllocError>
        ensures { IfOk result (λ skips. IsTrue skips → IsNoneAmong (W.belongs self.now.wanted.now) (option_copied least.entry) (option_copied most.entry)) }
    {
        match (least, most) {
            (Some(least), Some(most)) => self.wanted.skips(self.alloc, &least.path, &most.path),
            _ => Ok(false),
        }
    }

    /// Adds a node to a page that isn't full.
    fn add<'a>(&self, node: &'a Node, page: &mut Vec<&'a Node>) -> Result<(), AllocError>
        ensures { length page.old.items ≤ self.now.room → OnOk result (listed page.new.items ≡ take self.now.room (listed page.old.items ++ named node.now ∷ [])) }
    {
        if page.len() < self.room {
            page.push(node)?;
        }
        Ok(())
    }

    /// Adds the first nodes of a tree that are wanted to a page, until it is full.
    pub fn gather<'a>(
        &self,
        tree: &'a Tree,
        least: Option<&'a Node>,
        most: Option<&'a Node>,
        page: &mut Vec<&'a Node>,
    ) -> Result<(), AllocError>
        ensures { RisesBetween (option_copied least.entry) tree.now (option_copied most.entry) → length page.old.items ≤ self.now.room
            → OnOk result (listed page.new.items ≡ take self.now.room (listed page.old.items ++ wanted_of (W.belongs self.now.wanted.now) (items tree.now))) }
    {
        match tree {
            Tree::Empty => Ok(()),
            Tree::Fork(node) => {
                let node: &'a Node = &**node;
                if page.len() >= self.room {
                    return Ok(());
                }
                if self.skips(least, most)? {
                    return Ok(());
                }
                match self.wanted.place(self.alloc, &node.path)? {
                    Place::Ahead => self.gather(&node.right, Some(node), most, page),
                    Place::Within => {
                        self.gather(&node.left, least, Some(node), page)?;
                        self.add(node, page)?;
                        self.gather(&node.right, Some(node), most, page)
                    }
                    Place::Apart => {
                        self.gather(&node.left, least, Some(node), page)?;
                        self.gather(&node.right, Some(node), most, page)
                    }
                    Place::Behind => self.gather(&node.left, least, Some(node), page),
                }
            }
        }
    }
}
