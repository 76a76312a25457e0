ghost use Rattle.std.specs.Prelude.{◌≡◌, ◌≤◌, false, None, IfOk, IfErr, IsErrOf};
ghost use Rattle.std.specs.Option.{option_map};
ghost use Rattle.std.specs.FinMap.{empty};
ghost use Rattle.weed_base.specs.Told.{IsCauseOf};
ghost use Rattle.meta_log.specs.Kept.{front_of};
ghost use Rattle.filer.specs.Faults.{IfDamaged};
ghost use Rattle.filer.specs.Filer.{state_of, broken_of};
ghost use Rattle.filer.specs.Opened.{LeavesLogs, Opens, IsBegun, IsBlamed, IsOfOpening, keeper_after, IsRefusedBy};
ghost use Rattle.filer.specs.State.{keeper_of, published_of, IsFiled};
ghost use Rattle.filer.specs.Taken.{TakesMany};

use crate::fault::LookFault;
use crate::filer::Filer;
use crate::state::FilerState;
use crate::tail::start_outlet;
use crate::taking::refill;
use filer_keeper::Keeper;
use log_buffer::Outlet;
use meta_log::MetaLog;
use std::alloc::Global;
use weed_base::Disk;

/// What an opening makes beside a keeper's names.
struct Begun<O> {
    log: MetaLog,
    outlet: O,
}

impl<K: Keeper, O: Outlet> Filer<K, O> {
    /// Opens the log of a disk, makes its first segment where none counts, clears the keeper and takes the log's records
    /// into it, page by page, and starts an outlet with the last of their texts, at most 4,096 and 67,108,864 bytes. A
    /// refusal hands the keeper back. Where the files are no log of records, `Damaged` names the first file and place
    /// to blame. `Broken` never comes.
    pub fn open<D: Disk>(
        alloc: Global,
        disk: &mut D,
        keeper: K,
        seed: O::Seed,
    ) -> Result<Filer<K, O>, (LookFault, K)>
        requires { D.MARKS_ONLY ≡ false }
        ensures opened { IfOk result (λ filer. Opens D.Disk (λ files records. IsFiled K.Names.map files (state_of filer) records) disk.old disk.new) }
        ensures all { IfOk result (λ filer. TakesMany (published_of (state_of filer)).count (option_map (λ _. empty) (K.Names.map keeper)) (K.Names.map (keeper_of (state_of filer)))) }
        ensures whole { IfOk result (λ filer. broken_of filer ≡ None) }
        ensures damaged { IfErr result (λ refused. IfDamaged (IsBlamed D.Disk disk.old disk.new) refused.0) }
        ensures faults { IfErr result (λ refused. IsOfOpening refused.0) }
        ensures leaves { LeavesLogs D.Disk disk.old disk.new }
        ensures cause { IsCauseOf (D.faults disk.old) (D.faults disk.new) (IsRefusedBy LookFault.DiskFault result) }
        ensures beside { D.beside disk.new ≡ D.beside disk.old }
        ensures keeper_cause { IsCauseOf (K.Names.faults keeper) (K.Names.faults (keeper_after result)) (IsRefusedBy LookFault.KeeperFault result) }
        ensures keeper_beside { K.Names.beside (keeper_after result) ≡ K.Names.beside keeper }
    {
        let mut keeper = keeper;
        match begin(alloc, disk, &mut keeper, seed) {
            Ok(Begun { log, outlet }) => {
                let published = log.front();
                Ok(Filer {
                    state: FilerState {
                        log,
                        keeper,
                        outlet,
                        published,
                    },
                    broken: None,
                })
            }
            Err(fault) => Err((fault, keeper)),
        }
    }
}

/// Opens the log, refills the keeper from it, and starts the outlet.
fn begin<D: Disk, K: Keeper, O: Outlet>(
    alloc: Global,
    disk: &mut D,
    keeper: &mut K,
    seed: O::Seed,
) -> Result<Begun<O>, LookFault>
    requires { D.MARKS_ONLY ≡ false }
    ensures opened { IfOk result (λ begun. Opens D.Disk (IsBegun (K.Names.map keeper.new) (O.StandsFor begun.outlet) begun.log) disk.old disk.new) }
    ensures all { IfOk result (λ begun. TakesMany (front_of begun.log).count (option_map (λ _. empty) (K.Names.map keeper.old)) (K.Names.map keeper.new)) }
    ensures count { IfOk result (λ begun. O.count begun.outlet ≡ (front_of begun.log).count) }
    ensures idle { IfOk result (λ begun. O.offered begun.outlet ≡ None) }
    ensures damaged { IfErr result (IfDamaged (IsBlamed D.Disk disk.old disk.new)) }
    ensures faults { IfErr result IsOfOpening }
    ensures leaves { LeavesLogs D.Disk disk.old disk.new }
    ensures cause { IsCauseOf (D.faults disk.old) (D.faults disk.new) (IsErrOf result LookFault.DiskFault) }
    ensures beside { D.beside disk.new ≡ D.beside disk.old }
    ensures keeper_cause { IsCauseOf (K.Names.faults keeper.old) (K.Names.faults keeper.new) (IsErrOf result LookFault.KeeperFault) }
    ensures keeper_beside { K.Names.beside keeper.new ≡ K.Names.beside keeper.old }
{
    let log = MetaLog::open(alloc, disk)?;
    let texts = refill(alloc, disk, &log, keeper)?;
    let outlet = start_outlet(alloc, seed, log.front().count, texts.as_slice())?;
    Ok(Begun { log, outlet })
}
