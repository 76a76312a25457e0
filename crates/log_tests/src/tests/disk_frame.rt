//! What stands beside a disk stays while a log on it is appended to.
ghost use Rattle.std.specs.Prelude.{◌≡◌, ◌≢◌, ℕ, List, ◌∷◌, OnOk, OnErr, Option};
ghost use Rattle.std.specs.Option.{option_map};
ghost use Rattle.meta_log.specs.Held.{HoldsGateLog, stem_of};
ghost use Rattle.meta_log.specs.LogText.{Suits};

use meta_log::{GateLog, GateText};
use weed_base::{Disk, Failed};

/// A disk with a tree beside it.
trait Stand: Disk {
    /// The tree's nodes, the newest first, where told.
    ghost tree: { Self → Option (List ℕ) };

    /// Adds a node.
    fn grow(&mut self, node: u8) -> Result<(), Failed>
        ensures tree { OnOk result (tree self.new ≡ option_map (λ told. node ∷ told) (tree self.old)) }
        ensures same { OnErr result (tree self.new ≡ tree self.old) }
        ensures files { Self.files self.new ≡ Self.files self.old };

    /// A call of the disk leaves the tree.
    ghost keeps_tree: { (one two : Self) (was : Option (List ℕ)) → Self.beside two ≡ Self.beside one → tree one ≡ was → tree two ≡ was };
}

/// Adds a node, and then a mark of it to the log.
fn grow_and_mark<T: Stand>(
    stand: &mut T,
    log: &mut GateLog,
    node: u8,
    mark: &GateText,
) -> Result<(), Failed>
    requires held { HoldsGateLog (T.files stand.old) log.old }
    requires suits { Suits (stem_of log.old) mark.now }
    ensures grown { OnOk result (T.tree stand.new ≡ option_map (λ told. node ∷ told) (T.tree stand.old)) }
{
    stand.grow(node)?;
    log.append(stand, mark)
}
