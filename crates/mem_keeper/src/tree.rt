ghost use Rattle.std.specs.Prelude.{◌≡◌, ◌++◌, ◌∷◌, [], IfOk};
ghost use Rattle.std.specs.FinMap.{find, put};
ghost use Rattle.weed_base.specs.PathOrder.{path_cmp};
ghost use Rattle.entry.specs.declared.entry.Entry.{Entry};
ghost use Rattle.mem_keeper.specs.Items.{IsSearchTree, items, without};
ghost use Rattle.name_core.specs.Namespace.{is_within};

use crate::path_order::order;
use entry::Entry;
use std::alloc::{AllocError, Global};
use std::cmp::Ordering;
use std::mem;
use weed_base::Path;

/// A search tree by paths. The heights of the two trees below a node differ by 1 at most.
#[derive(Debug, Drop)]
#[cycle(tree)]
pub enum Tree {
    Empty,
    Fork(Box<Node>),
}

#[derive(Debug, Drop)]
#[cycle(tree)]
pub struct Node {
    pub left: Tree,
    pub height: u8,
    pub path: Path,
    pub entry: Entry,
    pub right: Tree,
}

impl Tree {
    /// A copy of the entry at a path.
    pub fn find(&self, alloc: Global, path: &Path) -> Result<Option<Entry>, AllocError>
        ensures { IsSearchTree self.now → IfOk result (λ found. found ≡ find path_cmp path.now (items self.now)) }
    {
        match self {
            Tree::Empty => Ok(None),
            Tree::Fork(node) => match order(path, &node.path) {
                Ordering::Less => node.left.find(alloc, path),
                Ordering::Equal => Ok(Some(node.entry.copy(alloc)?)),
                Ordering::Greater => node.right.find(alloc, path),
            },
        }
    }

    /// What stands before a path, and what stands behind it. Takes no memory.
    pub fn split(self, at: &Path) -> (Tree, Tree)
        ensures { (entry : Entry) → IsSearchTree self → put path_cmp at.now entry (items self) ≡ items result.0 ++ (at.now, entry) ∷ items result.1 }
    {
        match self {
            Tree::Empty => (Tree::Empty, Tree::Empty),
            Tree::Fork(mut node) => match order(at, &node.path) {
                Ordering::Less => {
                    let left = mem::replace(&mut node.left, Tree::Empty);
                    let right = mem::replace(&mut node.right, Tree::Empty);
                    let (before, behind) = left.split(at);
                    (before, behind.join_at(node, right))
                }
                Ordering::Equal => {
                    let Node { left, right, .. } = Box::into_inner(node);
                    (left, right)
                }
                Ordering::Greater => {
                    let left = mem::replace(&mut node.left, Tree::Empty);
                    let right = mem::replace(&mut node.right, Tree::Empty);
                    let (before, behind) = right.split(at);
                    (left.join_at(node, before), behind)
                }
            },
        }
    }

    /// The tree with a node's entry at its path. Takes no memory.
    pub fn put(self, node: Box<Node>) -> Tree
        ensures { IsSearchTree self → items result ≡ put path_cmp node.value.path node.value.entry (items self) }
    {
        let (before, behind) = self.split(&node.path);
        before.join_at(node, behind)
    }

    /// The tree without what stands at a path and below it, in time in proportion to that and to the depth. Takes
    /// no memory.
    pub fn without(self, top: &Path) -> Tree
        ensures { IsSearchTree self → items result ≡ without top.now (items self) }
    {
        match self {
            Tree::Empty => Tree::Empty,
            Tree::Fork(mut node) => {
                if stands_within(&node.path, top) {
                    let Node { left, right, .. } = Box::into_inner(node);
                    return left.without(top).join(right.without(top));
                }
                match order(top, &node.path) {
                    Ordering::Less => {
                        let left = mem::replace(&mut node.left, Tree::Empty);
                        let right = mem::replace(&mut node.right, Tree::Empty);
                        left.without(top).join_at(node, right)
                    }
                    Ordering::Equal => unreachable!(),
                    Ordering::Greater => {
                        let left = mem::replace(&mut node.left, Tree::Empty);
                        let right = mem::replace(&mut node.right, Tree::Empty);
                        left.join_at(node, right.without(top))
                    }
                }
            }
        }
    }
}

/// The path is the top, or below it.
#[tactic(auto, using(crate::proofs::WithinLemmas::within_is))]
fn stands_within(path: &Path, top: &Path) -> bool
    ensures { result ≡ is_within top.now path.now }
{
    let is_top = path.is(top);
    let is_below = path.is_below(top);
    is_top || is_below
}
