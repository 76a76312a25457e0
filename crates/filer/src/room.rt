ghost use Rattle.std.specs.Prelude.{◌≡◌, ◌≤◌, OnOk, IsErrOf};
ghost use Rattle.weed_base.specs.Told.{IsCauseOf};
ghost use Rattle.filer_keeper.specs.Commit.{put_count};

use filer_keeper::Keeper;
use name_core::{KeeperFault, Record};

/// Makes room for a record's puts. Of over 4,294,967,295 changes there is want of memory.
pub fn reserve_for<K: Keeper>(keeper: &mut K, step: &Record) -> Result<(), KeeperFault>
    ensures spare { OnOk result (put_count step.now.changes ≤ K.spare keeper.new) }
    ensures map { K.Names.map keeper.new ≡ K.Names.map keeper.old }
    ensures beside { K.Names.beside keeper.new ≡ K.Names.beside keeper.old }
    ensures cause { IsCauseOf (K.Names.faults keeper.old) (K.Names.faults keeper.new) (IsErrOf result KeeperFault.Failed) }
{
    match u32::try_from(step.changes.as_slice().len()) {
        Ok(puts) => keeper.reserve(puts),
        Err(_) => Err(KeeperFault::Memory),
    }
}
