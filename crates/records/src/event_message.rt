//! The messages of an event, as they are read: each with the last values of its fields.
ghost use Rattle.std.specs.Prelude.{◌≡◌, ◌==◌, if◌then◌else◌};

use proto_wire::{Field, Message, Value};
use std::marker::Model;

/// EventNotification, without the messages in it.
#[derive(Debug, Drop)]
pub struct NotificationFields<'a> {
    pub old_entry: Option<&'a [u8]>,
    pub new_entry: Option<&'a [u8]>,
    pub new_parent: &'a [u8],
    /// The old entry stands behind the new one.
    pub old_is_last: bool,
}

impl<'a> Model for NotificationFields<'a> {
    ghost use Rattle.std.specs.Prelude.{option_copied};
    ghost use Rattle.records.specs.Messages.{NotificationText};

    ghost Value = { NotificationText };

    ghost view = { λ taken. record {
      old_entry = option_copied taken.old_entry;
      new_entry = option_copied taken.new_entry;
      new_parent = taken.new_parent.now;
      old_is_last = taken.old_is_last;
    } };
}

impl<'a> NotificationFields<'a> {
    ghost use Rattle.records.specs.Steps.{notification_with_text};

    fn take_text(&mut self, number: u32, text: &'a [u8])
        ensures { self.new ≡ notification_with_text number text.entry.now self.old }
    {
        match number {
            1 => {
                self.old_entry = Some(text);
                self.old_is_last = true;
            }
            2 => {
                self.new_entry = Some(text);
                self.old_is_last = false;
            }
            4 => self.new_parent = text,
            _ => {}
        }
    }
}

impl<'a> Message<'a> for NotificationFields<'a> {
    ghost use Rattle.records.specs.Messages.{notification_in};

    ghost IsOf = { λ fields taken. taken ≡ notification_in fields };

    fn empty() -> Self {
        NotificationFields {
            old_entry: None,
            new_entry: None,
            new_parent: &[],
            old_is_last: false,
        }
    }

    fn take(&mut self, field: Field<'a>) {
        match field.value {
            Value::Bytes(text) => self.take_text(field.number, text),
            Value::Varint(_) | Value::Fixed64(_) | Value::Fixed32(_) => {}
        }
    }
}

/// SubscribeMetadataResponse, without the message in it.
#[derive(Debug, Drop)]
pub struct EventFields<'a> {
    pub directory: &'a [u8],
    pub notification: &'a [u8],
}

impl<'a> Model for EventFields<'a> {
    ghost use Rattle.records.specs.Messages.{EventFieldsText};

    ghost Value = { EventFieldsText };

    ghost view = { λ taken. record {
      directory = taken.directory.now;
      notification = taken.notification.now;
    } };
}

impl<'a> EventFields<'a> {
    ghost use Rattle.records.specs.Steps.{event_with_text};

    fn take_text(&mut self, number: u32, text: &'a [u8])
        ensures { self.new ≡ event_with_text number text.entry.now self.old }
    {
        match number {
            1 => self.directory = text,
            2 => self.notification = text,
            _ => {}
        }
    }
}

impl<'a> Message<'a> for EventFields<'a> {
    ghost use Rattle.records.specs.Messages.{event_fields_in};

    ghost IsOf = { λ fields taken. taken ≡ event_fields_in fields };

    fn empty() -> Self {
        EventFields {
            directory: &[],
            notification: &[],
        }
    }

    fn take(&mut self, field: Field<'a>) {
        match field.value {
            Value::Bytes(text) => self.take_text(field.number, text),
            Value::Varint(_) | Value::Fixed64(_) | Value::Fixed32(_) => {}
        }
    }
}

/// LogEntry, without its events.
#[derive(Debug, Drop)]
pub struct RecordFields {
    pub time: u64,
}

impl RecordFields {
    fn take_number(&mut self, number: u32, value: u64)
        ensures { self.new.time ≡ (if number == 1 then value else self.old.time) }
    {
        if number == 1 {
            self.time = value;
        }
    }
}

impl<'a> Message<'a> for RecordFields {
    ghost use Rattle.proto_wire.specs.Taken.{last_number};

    ghost IsOf = { λ fields taken. taken.time ≡ last_number 1 fields };

    fn empty() -> Self {
        RecordFields { time: 0 }
    }

    fn take(&mut self, field: Field<'a>) {
        match field.value {
            Value::Varint(value) => self.take_number(field.number, value),
            Value::Bytes(_) | Value::Fixed64(_) | Value::Fixed32(_) => {}
        }
    }
}
