ghost use Rattle.std.specs.Prelude.{◌≡◌, ◌≤◌, length, drop, take, reverse, OnOk, OnErr};
ghost use Rattle.weed_base.specs.History.{changed, earlier, filled, settled_as, replayed, AreOpen, IsSettled};

use crate::mem::change::{Call, Change, Pick};
use crate::mem::table::FileTable;
use std::alloc::AllocError;

/// The calls that were made before a tick, of these, the oldest first.
pub(crate) fn earlier_calls(calls: &[Call], tick: u64) -> &[Call]
    ensures { reverse result.now ≡ earlier tick (reverse calls.now) }
{
    let mut count = calls.len();
    while count > 0 && calls[count - 1].tick >= tick {
        count -= 1;
    }
    &calls[..count]
}

/// How many of these calls a sync among them has settled.
pub(crate) fn settled_count(calls: &[Call]) -> usize
    ensures within { result ≤ length calls.now }
    ensures settled { IsSettled (reverse (take result calls.now)) }
    ensures left { AreOpen (drop result calls.now) }
{
    let mut count = calls.len();
    while count > 0 && !calls[count - 1].change.is_sync() {
        count -= 1;
    }
    count
}

impl FileTable {
    /// Makes a change. Nothing changes where memory is lacking.
    pub(crate) fn apply(&mut self, change: &Change) -> Result<(), AllocError>
        ensures ok { OnOk result (self.new ≡ changed change.now self.old) }
        ensures err { OnErr result (self.new ≡ self.old) }
    {
        match change {
            Change::Written { name, at, piece } => {
                self.write_there(name, *at as usize, piece.as_slice())
            }
            Change::Cut { name, to } => {
                self.cut_there(name, *to as usize);
                Ok(())
            }
            Change::Made { name } => self.make(name),
            Change::Removed { name } => {
                self.remove(name);
                Ok(())
            }
            Change::Renamed { from, to } => self.rename_there(from, to),
            Change::Torn { .. } | Change::Synced => Ok(()),
        }
    }

    /// Makes a change with this byte in each place that it leaves unsettled.
    fn fill(&mut self, change: &Change, byte: u8) -> Result<(), AllocError>
        ensures { OnOk result (self.new ≡ filled byte change.now self.old) }
    {
        match change {
            Change::Written { name, at, piece } => {
                self.write_byte(name, *at as usize, piece.as_slice().len(), byte)
            }
            Change::Torn { name, at, count } => {
                self.write_byte(name, *at as usize, *count, byte)
            }
            settled => self.apply(settled),
        }
    }

    /// Makes an unsettled change as the pick says.
    fn settle(&mut self, pick: Pick, change: &Change) -> Result<(), AllocError>
        ensures { OnOk result (self.new ≡ settled_as pick change.now self.old) }
    {
        match pick {
            Pick::Old => Ok(()),
            Pick::New => self.apply(change),
            Pick::Fill(byte) => self.fill(change, byte),
        }
    }

    /// Makes the changes of these calls in their order, each as the pick says.
    pub(crate) fn replay(&mut self, pick: Pick, calls: &[Call]) -> Result<(), AllocError>
        ensures { OnOk result (self.new ≡ replayed pick self.old calls.now) }
    {
        for call in calls {
            self.settle(pick, &call.change)?;
        }
        Ok(())
    }
}
