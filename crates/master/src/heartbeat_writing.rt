ghost use Rattle.std.specs.Prelude.{◌≡◌, ◌++◌, [], IfOk, OnOk};
ghost use Rattle.std.specs.Str.{IsUtf8};
ghost use Rattle.master.specs.HeartbeatWriting.{volume_text, volumes_text, node_text, heartbeat_text};

use crate::heartbeat::Heartbeat;
use proto_wire::Writer;
use std::alloc::{AllocError, Global};
use topology::VolumeReport;
use weed_base::Bytes;

impl Heartbeat {
    /// Its text.
    pub fn write(&self, alloc: Global) -> Result<Bytes, AllocError>
        requires id { IsUtf8 self.now.node.id }
        requires public { IsUtf8 self.now.node.public }
        requires data_center { IsUtf8 self.now.node.data_center }
        requires rack { IsUtf8 self.now.node.rack }
        ensures { IfOk result (λ text. text ≡ heartbeat_text self.now) }
    {
        let mut text = Writer::new(alloc);
        write_node(&mut text, self)?;
        let mut volume = Writer::new(alloc);
        write_volumes(&mut text, &mut volume, self.volumes.as_slice())?;
        Ok(text.done())
    }
}

/// Writes all but the volumes.
fn write_node(into: &mut Writer, beat: &Heartbeat) -> Result<(), AllocError>
    requires { into.old ≡ [] }
    ensures { OnOk result (into.new ≡ node_text beat.now) }
{
    into.bytes(1, beat.node.id.as_slice())?;
    into.bytes(2, beat.node.public.as_slice())?;
    into.bytes(3, beat.node.data_center.as_slice())?;
    into.bytes(4, beat.node.rack.as_slice())?;
    into.varint(5, u64::from(beat.node.room))?;
    into.varint(6, beat.greatest)
}

/// Writes each volume, first as a text of its own.
fn write_volumes(
    into: &mut Writer,
    volume: &mut Writer,
    reports: &[VolumeReport],
) -> Result<(), AllocError>
    ensures { OnOk result (into.new ≡ into.old ++ volumes_text reports.now) }
{
    for report in reports {
        set_volume(volume, report)?;
        into.message(7, volume.as_slice())?;
    }
    Ok(())
}

/// Writes a volume in place of what was written.
fn set_volume(into: &mut Writer, report: &VolumeReport) -> Result<(), AllocError>
    ensures { OnOk result (into.new ≡ volume_text report.now) }
{
    into.clear();
    into.varint(1, u64::from(report.volume))?;
    into.varint(2, report.size)?;
    into.varint(3, u64::from(report.placement.byte()))?;
    into.varint(4, u64::from(report.read_only))?;
    into.varint(5, u64::from(report.ttl[0]) * 256 + u64::from(report.ttl[1]))
}

/// The text of a volume.
pub fn write_report(alloc: Global, report: &VolumeReport) -> Result<Bytes, AllocError>
    ensures { IfOk result (λ text. text ≡ volume_text report.now) }
{
    let mut text = Writer::new(alloc);
    set_volume(&mut text, report)?;
    Ok(text.done())
}
