ghost use Rattle.std.specs.Prelude.{◌≡◌, ◌≤◌, ◌<◌, ℕ, List, [], ◌∷◌, ◌++◌, All};
ghost use Rattle.name_core.specs.declared.change.Record.{Record};
ghost use Rattle.name_core.specs.declared.command.Command.{Command};
ghost use Rattle.name_core.specs.declared.command.Command.TheVariants.{MakeDir};
ghost use Rattle.name_core.specs.Namespace.{Namespace, IsDirectoryIn, IsWellFormed, KeepsWellFormed};
ghost use Rattle.name_core.specs.Log.{end_of_time, last_time, fold, IsSound, after_record};
ghost use Rattle.name_core.specs.Plan.{Recorded, Nothing, prefixes, plan_of};

/// Each change of a plan's record leaves a well-formed namespace, where the first one is.
pub fn plans_keep_names_well_formed()
    ensures { (names : Namespace) (command : Command) (clock last : ℕ) (made : Record) → IsWellFormed names
        → plan_of names command clock last ≡ Recorded made → KeepsWellFormed made.changes names }
{}

/// A plan's record comes after the last one, and not past the end of time.
pub fn plans_keep_times_rising()
    ensures { (names : Namespace) (command : Command) (clock last : ℕ) (made : Record) → last ≤ end_of_time
        → plan_of names command clock last ≡ Recorded made → (last < made.time) × (made.time ≤ end_of_time) }
{}

/// A sound log stays sound with the record that a command makes of its namespace, and its namespace takes
/// the record's step.
pub fn plans_keep_logs_sound()
    ensures sound { (log : List Record) (command : Command) (clock : ℕ) (made : Record) → IsSound log
        → plan_of (fold log) command clock (last_time log) ≡ Recorded made → IsSound (log ++ made ∷ []) }
    ensures folds { (log : List Record) (made : Record) → fold (log ++ made ∷ []) ≡ after_record made (fold log) }
{}

/// A directory that a command makes, or that is there already, is there behind the command, and so is each one above it.
pub fn made_directories_are_there()
    ensures made { (names : Namespace) (path : List (List ℕ)) (clock last : ℕ) (made : Record)
        → plan_of names (MakeDir path) clock last ≡ Recorded made → All (IsDirectoryIn (after_record made names)) (prefixes path) }
    ensures there { (names : Namespace) (path : List (List ℕ)) (clock last : ℕ)
        → plan_of names (MakeDir path) clock last ≡ Nothing → All (IsDirectoryIn names) (prefixes path) }
{}
