//! Laws over every entry and every record, which make no call.
ghost use Rattle.std.specs.Prelude.{◌≡◌, ◌≤◌, ◌<◌, ◌^◌, ◌↔◌, IsTrue, ℕ, List, length, All, Ok};
ghost use Rattle.entry.specs.declared.entry.Entry.{Entry};
ghost use Rattle.entry.specs.Entry.{IsValid};
ghost use Rattle.entry.specs.EntryReading.{entry_read};
ghost use Rattle.entry.specs.EntryWriting.{entry_text, FitsEntry};
ghost use Rattle.name_core.specs.declared.change.Record.{Record};
ghost use Rattle.name_core.specs.Plan.{MakesDirectories};
ghost use Rattle.name_core.specs.RecordText.{CanBeWritten};
ghost use Rattle.records.specs.RecordReading.{record_of};
ghost use Rattle.records.specs.RecordText.{record_text, FitsChange};
ghost use Rattle.records.specs.Sameness.{is_same_entry};

/// The text of a valid entry is read back to its name and to the entry.
pub fn written_entries_are_read()
    ensures { (name : List ℕ) (entry : Entry) → IsValid entry → FitsEntry entry → length (entry_text name entry) < 2 ^ 64
        → entry_read (entry_text name entry) ≡ Ok (name, entry) }
{}

/// The test that entries are the same is exactly that they are equal.
pub fn same_entries_are_equal()
    ensures { (a b : Entry) → IsTrue (is_same_entry a b) ↔ (a ≡ b) }
{}

/// The text of a record that can be written is read back to the record.
pub fn written_records_are_read()
    ensures { (written : Record) → CanBeWritten written → All FitsChange written.changes → length (record_text written) < 2 ^ 64
        → record_of (record_text written) ≡ Ok written }
{}

/// A log takes the text of a record of new directories, as many as a path has parts at the most.
pub fn records_of_directories_are_short()
    ensures { (made : Record) → MakesDirectories made.time made.changes → length (record_text made) ≤ 67108864 }
{}
