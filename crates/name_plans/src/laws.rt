ghost use Rattle.std.specs.Prelude.{◌≡◌, ℕ, Bool, List, Some, Ok};
ghost use Rattle.name_core.specs.declared.change.Change.{Change};
ghost use Rattle.name_core.specs.declared.change.Record.{Record};
ghost use Rattle.name_core.specs.Namespace.{Namespace, IsWellFormed, KeepsWellFormed};
ghost use Rattle.entry.specs.declared.entry.Entry.{Entry};
ghost use Rattle.name_plans.specs.declared.command.Command.{Command};
ghost use Rattle.name_plans.specs.Commands.{moving, removal, writing};
ghost use Rattle.name_plans.specs.Placing.{placing};
ghost use Rattle.name_plans.specs.Planning.{plan_of};
ghost use Rattle.name_plans.specs.Writing.{Written};

/// A removal leaves a well-formed namespace, where it meets one.
pub fn removals_keep_names_well_formed()
    ensures { (names : Namespace) (path : List (List ℕ)) (recursive : Bool) (changes : List Change) → IsWellFormed names
        → removal names path recursive ≡ Ok changes → KeepsWellFormed changes names }
{}

/// A write that meets a well-formed namespace leaves one after each of its changes.
pub fn writes_keep_names_well_formed()
    ensures { (names : Namespace) (time : ℕ) (path : List (List ℕ)) (w : Written) (changes : List Change) → IsWellFormed names
        → writing names time path w ≡ Ok changes → KeepsWellFormed changes names }
{}

/// An entry that is placed in a well-formed namespace leaves one after each of its changes.
pub fn places_keep_names_well_formed()
    ensures { (names : Namespace) (time : ℕ) (path : List (List ℕ)) (entry : Entry) (changes : List Change) → IsWellFormed names
        → placing names time path entry ≡ Ok changes → KeepsWellFormed changes names }
{}

/// A move in a well-formed namespace leaves one after each of its changes.
pub fn moves_keep_names_well_formed()
    ensures { (names : Namespace) (time : ℕ) (from to : List (List ℕ)) (changes : List Change) → IsWellFormed names
        → moving names time from to ≡ Ok changes → KeepsWellFormed changes names }
{}

/// Each change of the record of any command leaves a well-formed namespace, where the command meets one.
pub fn plans_keep_names_well_formed()
    ensures { (names : Namespace) (command : Command) (clock last : ℕ) (made : Record) → IsWellFormed names
        → plan_of names command clock last ≡ Ok (Some made) → KeepsWellFormed made.changes names }
{}
