ghost use Rattle.std.specs.Prelude.{◌≡◌, List, Ok, IfOk, option_copied};
ghost use Rattle.proto_wire.specs.Field.{FieldText, field_text, fields_of};
ghost use Rattle.proto_wire.specs.Taken.{text_in};
ghost use Rattle.records.specs.RecordReading.{ReadsRecord, record_of, record_with_events};
ghost use Rattle.name_core.specs.RecordText.{CanBeWritten};

use crate::event_message::RecordFields;
use crate::event_reading::read_event;
use crate::found::Found;
use crate::meaning::changes_of;
use crate::record_fault::RecordFault;
use name_core::Record;
use proto_wire::{Field, Reader, Value, read_message};
use std::alloc::Global;

/// The record that the text spells. `Wire` is the first fault of the text's own fields, else of the messages that it
/// takes, in their order; `BadRecord` comes where there is none, for no change, a time of 0 or past 2^63 - 1, an event
/// without entries, a bad path or a bad entry. `Memory` comes for the text of a record alone: where memory runs out,
/// the rest is read all the same, and nothing of it is kept. An old entry is looked at and not built.
pub fn read_record(alloc: Global, text: &[u8]) -> Result<Record, RecordFault>
    ensures exact { ReadsRecord (record_of text.now) result }
    ensures valid { IfOk result CanBeWritten }
{
    read_fields(alloc, text)
}

fn read_fields(alloc: Global, text: &[u8]) -> Result<Record, RecordFault>
    ensures { ReadsRecord (record_of text.now) result }
{
    let fields: RecordFields = read_message(text)?;
    read_events(alloc, text, fields.time)
}

/// The record of this time and of all events of a text that has only whole fields.
fn read_events(alloc: Global, text: &[u8], time: u64) -> Result<Record, RecordFault>
    ensures { (fields : List FieldText) → fields_of text.now ≡ Ok fields → ReadsRecord (record_with_events time fields) result }
{
    let mut reader = Reader::new(text);
    let mut found = Found::none(alloc);
    while let Some(field) = reader.next()? {
        if let Some(event) = event_text(&field) {
            let event = read_event(event)?;
            found.take(changes_of(alloc, &event));
        }
    }
    found.into_record(time)
}

/// The event that the field holds, if it holds one.
fn event_text<'a>(field: &Field<'a>) -> Option<&'a [u8]>
    ensures { option_copied result ≡ text_in 2 (field_text field.now) }
{
    match field.value {
        Value::Bytes(text) if field.number == 2 => Some(text),
        _ => None,
    }
}
