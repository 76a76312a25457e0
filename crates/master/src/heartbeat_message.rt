//! Heartbeat, as it is read: with the last values of its fields, and what is seen of its volumes.
ghost use Rattle.std.specs.Prelude.{◌≡◌};
ghost use Rattle.std.specs.Str.{is_utf8};
ghost use Rattle.master.specs.HeartbeatText.{are_good};

use crate::volume_message::read_fields;
use proto_wire::{Field, Message, Value, WireFault};
use std::marker::Model;

/// What is seen of volumes: the first fault in their texts, and whether each has good numbers.
#[derive(Clone, Copy, Debug)]
pub struct VolumesSeen {
    pub fault: Option<WireFault>,
    pub are_good: bool,
}

impl VolumesSeen {
    ghost use Rattle.master.specs.HeartbeatText.{seen_with};

    /// Takes one volume more.
    fn take(&mut self, text: &[u8])
        ensures { self.new ≡ seen_with text.now self.old }
    {
        match read_fields(text) {
            Ok(volume) => self.are_good = self.are_good && volume.is_good(),
            Err(fault) => {
                self.are_good = false;
                self.fault = self.fault.or(Some(fault));
            }
        }
    }
}

/// Heartbeat, without the messages in it.
#[derive(Debug, Drop)]
pub struct HeartbeatFields<'a> {
    pub id: &'a [u8],
    pub public: &'a [u8],
    pub data_center: &'a [u8],
    pub rack: &'a [u8],
    pub room: u64,
    pub greatest: u64,
    pub seen: VolumesSeen,
}

impl<'a> Model for HeartbeatFields<'a> {
    ghost use Rattle.master.specs.HeartbeatText.{HeartbeatText};

    ghost Value = { HeartbeatText };

    ghost view = { λ taken. record {
      id = taken.id.now;
      public = taken.public.now;
      data_center = taken.data_center.now;
      rack = taken.rack.now;
      room = taken.room;
      greatest = taken.greatest;
      seen = taken.seen;
    } };
}

impl<'a> HeartbeatFields<'a> {
    ghost use Rattle.master.specs.HeartbeatText.{heartbeat_with_number, heartbeat_with_text};

    fn take_number(&mut self, number: u32, value: u64)
        ensures { self.new ≡ heartbeat_with_number number value self.old }
    {
        match number {
            5 => self.room = value,
            6 => self.greatest = value,
            _ => {}
        }
    }

    fn take_text(&mut self, number: u32, text: &'a [u8])
        ensures { self.new ≡ heartbeat_with_text number text.entry.now self.old }
    {
        match number {
            1 => self.id = text,
            2 => self.public = text,
            3 => self.data_center = text,
            4 => self.rack = text,
            7 => self.seen.take(text),
            _ => {}
        }
    }

    /// The texts are UTF-8, and all numbers are good.
    pub(crate) fn are_good(&self) -> bool
        ensures { result ≡ are_good self.now }
    {
        is_text(self.id)
            && is_text(self.public)
            && is_text(self.data_center)
            && is_text(self.rack)
            && self.room <= u64::from(u32::MAX)
            && self.seen.are_good
    }
}

fn is_text(bytes: &[u8]) -> bool
    ensures { result ≡ is_utf8 bytes.now }
{
    str::from_utf8(bytes).is_ok()
}

impl<'a> Message<'a> for HeartbeatFields<'a> {
    ghost use Rattle.master.specs.HeartbeatText.{heartbeat_in};

    ghost IsOf = { λ fields taken. taken ≡ heartbeat_in fields };

    fn empty() -> Self {
        HeartbeatFields {
            id: &[],
            public: &[],
            data_center: &[],
            rack: &[],
            room: 0,
            greatest: 0,
            seen: VolumesSeen {
                fault: None,
                are_good: true,
            },
        }
    }

    fn take(&mut self, field: Field<'a>) {
        match field.value {
            Value::Varint(value) => self.take_number(field.number, value),
            Value::Bytes(text) => self.take_text(field.number, text),
            Value::Fixed64(_) | Value::Fixed32(_) => {}
        }
    }
}
