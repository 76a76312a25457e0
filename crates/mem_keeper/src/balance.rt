ghost use Rattle.std.specs.Prelude.{◌≡◌, ◌++◌, ◌∷◌};
ghost use Rattle.mem_keeper.specs.Items.{items, node_items};

use crate::tree::{Node, Tree};
use std::mem;

impl Node {
    /// Counts its height anew, from those of the trees below it.
    fn measure(&mut self)
        ensures { node_items self.new ≡ node_items self.old }
    {
        let below = self.left.height().max(self.right.height());
        self.height = below.saturating_add(1);
    }
}

/// The tree of a node between two others.
fn between(left: Tree, mut node: Box<Node>, right: Tree) -> Tree
    ensures { items result ≡ items left ++ (node.value.path, node.value.entry) ∷ items right }
{
    node.left = left;
    node.right = right;
    node.measure();
    Tree::Fork(node)
}

/// The right child over its parent, where there is one.
fn turned_left(mut node: Box<Node>) -> Box<Node>
    ensures { node_items result.value ≡ node_items node.value }
{
    match mem::replace(&mut node.right, Tree::Empty) {
        Tree::Empty => node,
        Tree::Fork(mut top) => {
            node.right = mem::replace(&mut top.left, Tree::Empty);
            node.measure();
            top.left = Tree::Fork(node);
            top.measure();
            top
        }
    }
}

/// The left child over its parent, where there is one.
fn turned_right(mut node: Box<Node>) -> Box<Node>
    ensures { node_items result.value ≡ node_items node.value }
{
    match mem::replace(&mut node.left, Tree::Empty) {
        Tree::Empty => node,
        Tree::Fork(mut top) => {
            node.left = mem::replace(&mut top.right, Tree::Empty);
            node.measure();
            top.right = Tree::Fork(node);
            top.measure();
            top
        }
    }
}

/// The tree with a left side that isn't the lower one.
fn leaning_left(tree: Tree) -> Tree
    ensures { items result ≡ items tree }
{
    match tree {
        Tree::Empty => Tree::Empty,
        Tree::Fork(node) => {
            if node.left.height() < node.right.height() {
                Tree::Fork(turned_left(node))
            } else {
                Tree::Fork(node)
            }
        }
    }
}

/// The tree with a right side that isn't the lower one.
fn leaning_right(tree: Tree) -> Tree
    ensures { items result ≡ items tree }
{
    match tree {
        Tree::Empty => Tree::Empty,
        Tree::Fork(node) => {
            if node.right.height() < node.left.height() {
                Tree::Fork(turned_right(node))
            } else {
                Tree::Fork(node)
            }
        }
    }
}

/// The node with a lower left side.
fn lowered_left(mut node: Box<Node>) -> Box<Node>
    ensures { node_items result.value ≡ node_items node.value }
{
    let left = mem::replace(&mut node.left, Tree::Empty);
    node.left = leaning_left(left);
    turned_right(node)
}

/// The node with a lower right side.
fn lowered_right(mut node: Box<Node>) -> Box<Node>
    ensures { node_items result.value ≡ node_items node.value }
{
    let right = mem::replace(&mut node.right, Tree::Empty);
    node.right = leaning_right(right);
    turned_left(node)
}

/// The node in balance, where one of its sides is too high by one.
fn balanced(mut node: Box<Node>) -> Box<Node>
    ensures { node_items result.value ≡ node_items node.value }
{
    let left = node.left.height();
    let right = node.right.height();
    if left > right.saturating_add(1) {
        lowered_left(node)
    } else if right > left.saturating_add(1) {
        lowered_right(node)
    } else {
        node.measure();
        node
    }
}

/// The first of a node's items, and the rest.
struct Parted {
    first: Box<Node>,
    rest: Tree,
}

/// The first of a node's items, and the rest in balance.
fn without_first(mut node: Box<Node>) -> Parted
    ensures { node_items node.value ≡ (result.first.value.path, result.first.value.entry) ∷ items result.rest }
{
    match mem::replace(&mut node.left, Tree::Empty) {
        Tree::Empty => {
            let rest = mem::replace(&mut node.right, Tree::Empty);
            Parted { first: node, rest }
        }
        Tree::Fork(left) => {
            let Parted { first, rest } = without_first(left);
            node.left = rest;
            Parted {
                first,
                rest: Tree::Fork(balanced(node)),
            }
        }
    }
}

impl Tree {
    /// How many nodes stand above one another at most.
    fn height(&self) -> u8 {
        match self {
            Tree::Empty => 0,
            Tree::Fork(node) => node.height,
        }
    }

    /// A node and a tree that isn't higher, behind this one.
    fn before(self, node: Box<Node>, behind: Tree) -> Tree
        ensures { items result ≡ items self ++ (node.value.path, node.value.entry) ∷ items behind }
    {
        match self {
            Tree::Empty => between(Tree::Empty, node, behind),
            Tree::Fork(mut top) => {
                if top.height <= behind.height().saturating_add(1) {
                    return between(Tree::Fork(top), node, behind);
                }
                let right = mem::replace(&mut top.right, Tree::Empty);
                top.right = right.before(node, behind);
                Tree::Fork(balanced(top))
            }
        }
    }

    /// A node and a tree that isn't higher, before this one.
    fn behind(self, before: Tree, node: Box<Node>) -> Tree
        ensures { items result ≡ items before ++ (node.value.path, node.value.entry) ∷ items self }
    {
        match self {
            Tree::Empty => between(before, node, Tree::Empty),
            Tree::Fork(mut top) => {
                if top.height <= before.height().saturating_add(1) {
                    return between(before, node, Tree::Fork(top));
                }
                let left = mem::replace(&mut top.left, Tree::Empty);
                top.left = left.behind(before, node);
                Tree::Fork(balanced(top))
            }
        }
    }

    /// What two trees hold, with a node between them, in balance. Takes no memory, and time in proportion to how much
    /// higher one is.
    pub fn join_at(self, node: Box<Node>, behind: Tree) -> Tree
        ensures { items result ≡ items self ++ (node.value.path, node.value.entry) ∷ items behind }
    {
        if self.height() < behind.height() {
            behind.behind(self, node)
        } else {
            self.before(node, behind)
        }
    }

    /// What two trees hold, one behind the other, in balance. Takes no memory.
    pub fn join(self, behind: Tree) -> Tree
        ensures { items result ≡ items self ++ items behind }
    {
        match behind {
            Tree::Empty => self,
            Tree::Fork(node) => {
                let Parted { first, rest } = without_first(node);
                self.join_at(first, rest)
            }
        }
    }
}
