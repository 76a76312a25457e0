ghost use Rattle.std.specs.Prelude.{◌≡◌, ◌<◌, ◌+◌, ◌^◌, [], ◌∷◌, ◌++◌, length, OnOk, OnErr};
ghost use Rattle.weed_base.specs.History.{changed};
ghost use Rattle.weed_base.specs.MemForms.{KeepsTorn};

use crate::bytes::Bytes;
use crate::disk::ends_in_file;
use crate::faults::Faults;
use crate::file_name::FileName;
use crate::mem::change::{Call, Change};
use crate::mem::table::FileTable;
use std::alloc::AllocError;

/// Makes a call's change, and keeps the call. Where memory is lacking neither is done.
pub(crate) fn keep(
    table: &mut FileTable,
    past: &mut Vec<Call>,
    call: Call,
) -> Result<(), AllocError>
    ensures table { OnOk result (table.new ≡ changed call.change table.old) }
    ensures past { OnOk result (past.new.items ≡ past.old.items ++ call ∷ []) }
    ensures table_err { OnErr result (table.new ≡ table.old) }
    ensures past_err { OnErr result (past.new.items ≡ past.old.items) }
{
    past.reserve(1)?;
    table.apply(&call.change)?;
    past.push(call).unwrap();
    Ok(())
}

/// Writes a piece, and keeps the call. Where memory is lacking neither is done.
pub(crate) fn keep_written(
    table: &mut FileTable,
    past: &mut Vec<Call>,
    tick: u64,
    name: &FileName,
    at: u64,
    piece: &[u8],
) -> Result<(), AllocError>
    ensures table { OnOk result (table.new ≡ changed (Change.Written name.now at piece.now) table.old) }
    ensures past { OnOk result (past.new.items ≡ past.old.items ++ record { tick = tick; change = Change.Written name.now at piece.now } ∷ []) }
    ensures bound { OnOk result (at + length piece.now < 2 ^ 63) }
    ensures table_err { OnErr result (table.new ≡ table.old) }
    ensures past_err { OnErr result (past.new.items ≡ past.old.items) }
{
    if !ends_in_file(at, piece.len()) {
        return Err(AllocError);
    }
    let name = name.copy();
    let piece = Bytes::new(table.alloc(), piece)?;
    let change = Change::Written { name, at, piece };
    keep(table, past, Call { tick, change })
}

/// Keeps that a failed write left its range unsettled, and counts where memory is lacking for that. At the
/// last number nothing is kept.
pub(crate) fn keep_torn(
    past: &mut Vec<Call>,
    untold: &mut Faults,
    tick: u64,
    name: &FileName,
    at: u64,
    piece: &[u8],
)
    ensures { KeepsTorn record { tick = tick; change = Change.Torn name.now at (length piece.now) } past.old.items past.new.items untold.old untold.new }
{
    if tick == u64::MAX {
        return;
    }
    let name = name.copy();
    let count = piece.len();
    let change = Change::Torn { name, at, count };
    if past.push(Call { tick, change }).is_err() {
        untold.raise();
    }
}
