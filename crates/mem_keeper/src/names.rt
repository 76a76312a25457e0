ghost use Rattle.std.specs.Prelude.{◌≡◌, ◌≢◌, [], IfOk, IfSome, IsNone};
ghost use Rattle.std.specs.FinMap.{empty, get, insert};
ghost use Rattle.entry.specs.Entry.{IsValid};
ghost use Rattle.name_core.specs.Namespace.{step};
ghost use Rattle.name_core.specs.Pages.{page_of, AreNamed, IsPage};
ghost use Rattle.name_core.specs.declared.change.Change.TheVariants.{Drop};
ghost use Rattle.mem_keeper.specs.Items.{listed};

use crate::places::Wanted;
use crate::search::Search;
use crate::tree::{Node, Tree};
use entry::Entry;
use std::alloc::{AllocError, Global};
use std::marker::Model;
use std::mem;
use weed_base::Path;

/// A namespace in a search tree.
#[derive(Debug, Drop)]
pub struct NameTree {
    tree: Tree,
}

impl Model for NameTree {
    ghost use Rattle.std.specs.Coded.{coded_list, coded_ℕ};
    ghost use Rattle.std.specs.FinMap.{code};
    ghost use Rattle.entry.specs.contracts.entry.Entry as e;
    ghost use Rattle.name_core.specs.Namespace.{Namespace};
    ghost use Rattle.name_core.specs.Pages.{AreNamed};
    ghost use Rattle.mem_keeper.specs.Items.{items, IsSearchTree};
    ghost use Rattle.mem_keeper.specs.Names.{names_of};

    ghost Value = { Namespace };

    ghost coded = { code (coded_list (coded_list coded_ℕ)) e.the_row.coded };

    ghost view = { λ names. names_of (items names.tree) };

    ghost invariant = { λ names. IsSearchTree names.tree × AreNamed (names_of (items names.tree)) };
}

impl NameTree {
    /// No names. Takes no memory.
    #[tactic(auto, using(crate::proofs::NameLemmas::none_kept))]
    pub fn new() -> NameTree
        ensures names { result ≡ empty }
        ensures named { AreNamed result }
    {
        NameTree { tree: Tree::Empty }
    }

    /// A copy of the entry at a path.
    pub fn find(&self, alloc: Global, path: &Path) -> Result<Option<Entry>, AllocError>
        ensures found { IfOk result (λ found. found ≡ get self.now path.now) }
        ensures root { path.now ≡ [] → IfOk result IsNone }
        ensures valid { IfOk result (λ found. IfSome found IsValid) }
    {
        self.tree.find(alloc, path)
    }

    /// Puts a node's entry at its path. Takes no memory.
    pub fn put(&mut self, node: Box<Node>)
        requires rootless { node.value.path ≢ [] }
        requires valid { IsValid node.value.entry }
        ensures names { self.new ≡ insert self.old node.value.path node.value.entry }
        ensures named { AreNamed self.new }
    {
        // The text shows that the path is one.
        let _ = node.path.text();
        let tree = mem::replace(&mut self.tree, Tree::Empty);
        self.tree = tree.put(node);
    }

    /// Removes what stands at a path and below it. Takes no memory.
    pub fn remove_within(&mut self, top: &Path)
        ensures names { self.new ≡ step (Drop top.now) self.old }
        ensures named { AreNamed self.new }
    {
        let tree = mem::replace(&mut self.tree, Tree::Empty);
        self.tree = tree.without(top);
    }

    /// The first nodes that are wanted, at most so many, in order.
    pub fn first<'a, W: Wanted>(
        &'a self,
        alloc: Global,
        wanted: &W,
        room: u32,
    ) -> Result<Vec<&'a Node>, AllocError>
        ensures first { IfOk result (λ found. listed found.items ≡ page_of self.now room (W.belongs wanted.now)) }
        ensures page { IfOk result (λ found. IsPage room (W.belongs wanted.now) (listed found.items)) }
    {
        let mut found: Vec<&'a Node> = Vec::new(alloc);
        let search = Search {
            alloc,
            wanted,
            room: room as usize,
        };
        search.gather(&self.tree, None, None, &mut found)?;
        Ok(found)
    }
}
