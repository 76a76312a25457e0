ghost use Rattle.std.specs.Prelude.{◌≡◌, ◌≢◌, false, IfOk, IfErr, IfSome, IsErrOf, ◌⊎◌};
ghost use Rattle.weed_base.specs.Told.{IsCauseOf};
ghost use Rattle.weed_base.specs.Files.{BothTold};
ghost use Rattle.volume.specs.declared.held.Mode.TheVariants.{ReadWrite};
ghost use Rattle.volume_items.specs.Changes.{LeavesOthers};
ghost use Rattle.volume.specs.Opening.{IsOpened, IsRead, IsUnread};

use crate::held::{Mode, Volume};
use crate::mending::{mend, plan_index};
use crate::standing::stand_on;
use std::alloc::Global;
use volume_items::VolumeFault;
use weed_base::Disk;

/// What an opening did to the files of a volume.
#[derive(Clone, Copy, Debug, PartialEq, Eq)]
pub struct Opened {
    /// Where the file of items was cut, behind the last one, if something stood there.
    pub cut_from: Option<u64>,
    /// The index was written anew, since its file stood for another map, or for none.
    pub rewrote_index: bool,
}

/// Makes the files of a volume that was read ready to be written.
fn take_over<D: Disk>(
    alloc: Global,
    disk: &mut D,
    mut volume: Volume,
) -> Result<(Volume, Opened), VolumeFault>
    requires marks { D.MARKS_ONLY ≡ false }
    requires read { IfSome (D.files disk.old) (IsRead volume.id volume) }
    ensures opened { IfOk result (λ opened. BothTold (IsOpened volume.id ReadWrite opened.0 opened.1) (D.files disk.old) (D.files disk.new)) }
    ensures fault { IfErr result (λ fault. (fault ≡ VolumeFault.DiskFault) ⊎ (fault ≡ VolumeFault.Memory)) }
    ensures same { IfErr result (λ fault. fault ≢ VolumeFault.DiskFault → D.files disk.new ≡ D.files disk.old) }
    ensures others { BothTold (LeavesOthers volume.id) (D.files disk.old) (D.files disk.new) }
    ensures cause { IsCauseOf (D.faults disk.old) (D.faults disk.new) (IsErrOf result VolumeFault.DiskFault) }
    ensures beside { D.beside disk.new ≡ D.beside disk.old }
{
    let plan = plan_index(alloc, disk, &volume)?;
    let was_cut = mend(disk, volume.id, volume.end, &plan)?;
    let opened = Opened {
        cut_from: was_cut.then_some(volume.end),
        rewrote_index: plan.text.is_some(),
    };
    volume.mode = Mode::ReadWrite;
    volume.index_end = plan.len;
    Ok((volume, opened))
}

impl Volume {
    /// Opens a volume, after a sync. For writing, what stands behind its last item is cut, and its index is written
    /// anew where its file doesn't stand for the same map; for reading alone nothing is changed. After a `DiskFault`
    /// the cut stands as before or as after, and the index may hold anything; the next opening mends it.
    pub fn open<D: Disk>(
        alloc: Global,
        disk: &mut D,
        id: u32,
        mode: Mode,
    ) -> Result<(Volume, Opened), VolumeFault>
        requires { D.MARKS_ONLY ≡ false }
        ensures opened { IfOk result (λ opened. BothTold (IsOpened id mode opened.0 opened.1) (D.files disk.old) (D.files disk.new)) }
        ensures unread { IfErr result (λ fault. IfSome (D.files disk.old) (IsUnread id fault)) }
        ensures same { IfErr result (λ fault. fault ≢ VolumeFault.DiskFault → D.files disk.new ≡ D.files disk.old) }
        ensures others { BothTold (LeavesOthers id) (D.files disk.old) (D.files disk.new) }
        ensures cause { IsCauseOf (D.faults disk.old) (D.faults disk.new) (IsErrOf result VolumeFault.DiskFault) }
        ensures beside { D.beside disk.new ≡ D.beside disk.old }
    {
        disk.sync()?;
        let volume = stand_on(alloc, disk, id)?;
        match mode {
            Mode::ReadOnly => {
                let opened = Opened {
                    cut_from: None,
                    rewrote_index: false,
                };
                Ok((volume, opened))
            }
            Mode::ReadWrite => take_over(alloc, disk, volume),
        }
    }
}
