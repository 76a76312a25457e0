ghost use Rattle.std.specs.Prelude.{◌≡◌, IfOk, IsOk, IsTrue, Ok, Some, None, List, MatchResult, nat_lt};
ghost use Rattle.proto_wire.specs.Field.{FieldText, field_text, fields_of};
ghost use Rattle.proto_wire.specs.Taken.{text_in};
ghost use Rattle.topology.specs.declared.node.Node.{Node};
ghost use Rattle.master.specs.HeartbeatText.{heartbeat_in, are_good, IsNodeOf};
ghost use Rattle.master.specs.HeartbeatReading.{ReadsHeartbeat, FindsReport, AreReports, ReadsWhole};

use crate::heartbeat::{Heartbeat, HeartbeatVolumes};
use crate::heartbeat_fault::HeartbeatFault;
use crate::heartbeat_message::HeartbeatFields;
use crate::volume_message::read_fields;
use proto_wire::{Field, Reader, Value, WireFault, read_message};
use std::alloc::{AllocError, Global};
use topology::{Node, VolumeReport};
use weed_base::Name;

impl Heartbeat {
    /// The heartbeat that a text spells. `Wire` is the first fault of the text's own fields, else of the volumes in it,
    /// in their order; `BadVarint` comes besides where there is none, for a number past its type, a placement that
    /// isn't three digits of 0 to 2 and a text that isn't UTF-8.
    pub fn read(alloc: Global, text: &[u8]) -> Result<Heartbeat, HeartbeatFault>
        ensures { ReadsHeartbeat text.now result }
    {
        let fields = read_whole(text)?;
        let node = node_of(alloc, &fields)?;
        let volumes = collect_reports(alloc, text)?;
        Ok(Heartbeat {
            node,
            volumes: HeartbeatVolumes::of(volumes),
            greatest: fields.greatest,
        })
    }
}

/// The fields of a text without a fault. Takes no memory.
fn read_whole<'a>(text: &'a [u8]) -> Result<HeartbeatFields<'a>, WireFault>
    ensures { ReadsWhole text.now result }
{
    let fields: HeartbeatFields = read_message(text)?;
    match fields.seen.fault {
        Some(fault) => return Err(fault),
        None => {}
    }
    if !fields.are_good() {
        return Err(WireFault::BadVarint);
    }
    Ok(fields)
}

/// The node of fields that are good.
fn node_of(alloc: Global, fields: &HeartbeatFields) -> Result<Node, AllocError>
    requires { IsTrue (are_good fields.now) }
    ensures { IfOk result (IsNodeOf fields.now) }
{
    Ok(Node {
        id: Name::new(alloc, fields.id)?,
        public: Name::new(alloc, fields.public)?,
        data_center: Name::new(alloc, fields.data_center)?,
        rack: Name::new(alloc, fields.rack)?,
        room: fields.room as u32,
    })
}

/// The reports of a text that has only whole fields.
fn collect_reports(alloc: Global, text: &[u8]) -> Result<Vec<VolumeReport>, AllocError>
    requires { IsOk (fields_of text.now) }
    ensures { IfOk result (λ made. (fields : List FieldText) → fields_of text.now ≡ Ok fields → AreReports fields made.items) }
{
    let mut reader = Reader::new(text);
    let mut reports = Vec::new(alloc);
    while let Ok(Some(field)) = reader.next() {
        if let Some(report) = report_in(&field) {
            reports.push(report)?;
        }
    }
    Ok(reports)
}

/// The report that a field holds, if it holds a good one. Takes no memory.
fn report_in(field: &Field) -> Option<VolumeReport>
    ensures { FindsReport (text_in 7 (field_text field.now)) result }
{
    match field.value {
        Value::Bytes(text) if field.number == 7 => report_of(text),
        _ => None,
    }
}

/// The report of a text, if it is a good one. Takes no memory.
fn report_of(text: &[u8]) -> Option<VolumeReport>
    ensures { FindsReport (Some text.now) result }
{
    match read_fields(text) {
        Ok(volume) if volume.is_good() => Some(volume.to_report()),
        _ => None,
    }
}
