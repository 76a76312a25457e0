ghost use Rattle.std.specs.Prelude.{◌≡◌};
ghost use Rattle.entry.specs.EntryReading.{attributes_at, entry_at, entry_in_turn};

use crate::attributes_reading::AttributesFields;
use crate::entry_message::EntryFields;
use proto_wire::{WireFault, read_message};
use std::marker::Model;

/// An entry's text as it was read, with the attributes in it.
#[derive(Debug, Drop)]
pub struct EntryText<'a> {
    text: &'a [u8],
    fields: EntryFields<'a>,
    attributes: AttributesFields<'a>,
}

impl<'a> Model for EntryText<'a> {
    ghost use Rattle.entry.specs.EntryParts.{EntryParts, IsOfText};

    ghost Value = { EntryParts };

    ghost view = { λ parts. record { text = parts.text.now; fields = parts.fields; attributes = parts.attributes } };

    ghost invariant = { λ parts. IsOfText parts.text.now parts.fields };
}

impl<'a> EntryText<'a> {
    ghost use Rattle.entry.specs.EntryParts.{IsOfText};

    /// The text. Takes no memory.
    pub fn text(&self) -> &'a [u8]
        ensures text { result.now ≡ self.now.text }
        ensures read { IsOfText self.now.text self.now.fields }
    {
        self.text
    }

    /// The entry's own fields. Takes no memory.
    pub fn fields(&self) -> &EntryFields<'a>
        ensures { result.now ≡ self.now.fields }
    {
        &self.fields
    }

    /// The attributes. Takes no memory.
    pub fn attributes(&self) -> &AttributesFields<'a>
        ensures { result.now ≡ self.now.attributes }
    {
        &self.attributes
    }
}

/// An entry's text with the messages that it takes, or the first fault in them. Takes no memory.
pub fn read_entry<'a>(text: &'a [u8]) -> Result<EntryText<'a>, WireFault>
    ensures { result ≡ entry_at text.now }
{
    read_in_turn(text)
}

fn read_in_turn<'a>(text: &'a [u8]) -> Result<EntryText<'a>, WireFault>
    ensures { result ≡ entry_in_turn text.now }
{
    let fields: EntryFields = read_message(text)?;
    let attributes = read_attributes(&fields)?;
    Ok(EntryText {
        text,
        fields,
        attributes,
    })
}

fn read_attributes<'a>(fields: &EntryFields<'a>) -> Result<AttributesFields<'a>, WireFault>
    ensures { result ≡ attributes_at fields.now }
{
    if let Some(fault) = fields.chunks.early {
        return Err(fault);
    }
    let attributes = read_message(fields.attributes)?;
    match fields.chunks.fault {
        Some(fault) => Err(fault),
        None => Ok(attributes),
    }
}
