ghost use Rattle.std.specs.Prelude.{◌≡◌, ◌≤◌, ℕ, IsErrOf, OnOk};
ghost use Rattle.std.specs.Option.{option_map};
ghost use Rattle.std.specs.FinMap.{empty};
ghost use Rattle.weed_base.specs.Told.{HasCause, IsCauseOf};
ghost use Rattle.name_core.specs.Namespace.{after_changes};
ghost use Rattle.filer_keeper.specs.Commit.{MayBeMade, put_count};

use name_core::{KeeperFault, Names, Record};
use std::alloc::Global;
use weed_base::{Failed, Word};

/// What holds a namespace, and takes the changes of records.
pub trait Keeper: Names {
    /// How many puts a commit has room for.
    ghost spare: { Self → ℕ };

    /// Makes the keeper ready to be used. What kind it is may be chosen by a word.
    fn attach(&mut self, kind: &Word) -> Result<(), Failed>
        ensures beside { Self.Names.beside self.new ≡ Self.Names.beside self.old }
        ensures cause { HasCause (Self.Names.faults self.old) (Self.Names.faults self.new) result };

    /// Leaves no name.
    fn clear(&mut self) -> Result<(), Failed>
        ensures map { OnOk result (Self.Names.map self.new ≡ option_map (λ _. empty) (Self.Names.map self.old)) }
        ensures beside { Self.Names.beside self.new ≡ Self.Names.beside self.old }
        ensures cause { HasCause (Self.Names.faults self.old) (Self.Names.faults self.new) result };

    /// Makes room for so many puts. The names stay, whatever the answer.
    fn reserve(&mut self, puts: u32) -> Result<(), KeeperFault>
        ensures spare { OnOk result (puts ≤ spare self.new) }
        ensures map { Self.Names.map self.new ≡ Self.Names.map self.old }
        ensures beside { Self.Names.beside self.new ≡ Self.Names.beside self.old }
        ensures cause { IsCauseOf (Self.Names.faults self.old) (Self.Names.faults self.new) (IsErrOf result KeeperFault.Failed) };

    /// Makes a record's changes, in order.
    fn commit(&mut self, step: Record) -> Result<(), Failed>
        requires spare { put_count step.changes ≤ spare self.old }
        requires changes { MayBeMade step.changes }
        ensures map { OnOk result (Self.Names.map self.new ≡ option_map (after_changes step.changes) (Self.Names.map self.old)) }
        ensures beside { Self.Names.beside self.new ≡ Self.Names.beside self.old }
        ensures cause { HasCause (Self.Names.faults self.old) (Self.Names.faults self.new) result };
}
