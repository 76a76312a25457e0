//! VolumeInformationMessage, as it is read: with the last values of its fields.
ghost use Rattle.std.specs.Prelude.{◌≡◌, IsTrue, List};
ghost use Rattle.proto_wire.specs.Field.{FieldText};
ghost use Rattle.master.specs.VolumeText.{volume_at, is_good_volume, is_digits, IsVolume};

use needle::Placement;
use proto_wire::{Field, Message, Value, WireFault, read_message};
use topology::VolumeReport;

/// The greatest time to live, of two bytes.
const MAX_TTL: u64 = 65_535;

/// VolumeInformationMessage.
#[derive(Clone, Copy, Debug)]
pub struct VolumeFields {
    pub id: u64,
    pub size: u64,
    pub placement: u64,
    pub read_only: u64,
    pub ttl: u64,
}

impl VolumeFields {
    ghost use Rattle.master.specs.VolumeText.{volume_with};

    fn take_number(&mut self, number: u32, value: u64)
        ensures { self.new ≡ volume_with number value self.old }
    {
        match number {
            1 => self.id = value,
            2 => self.size = value,
            3 => self.placement = value,
            4 => self.read_only = value,
            5 => self.ttl = value,
            _ => {}
        }
    }

    /// The numbers fit their types, and the placement has three digits of 0 to 2.
    pub(crate) fn is_good(&self) -> bool
        ensures { result ≡ is_good_volume self.now }
    {
        self.id <= u64::from(u32::MAX) && is_digits(self.placement) && self.ttl <= MAX_TTL
    }

    /// The report of numbers that fit.
    pub(crate) fn to_report(self) -> VolumeReport
        requires { IsTrue (is_good_volume self) }
        ensures { IsVolume self result }
    {
        let placement = Placement {
            x: (self.placement / 100) as u8,
            y: (self.placement / 10 % 10) as u8,
            z: (self.placement % 10) as u8,
        };
        VolumeReport {
            volume: self.id as u32,
            placement,
            ttl: [(self.ttl / 256) as u8, (self.ttl % 256) as u8],
            size: self.size,
            read_only: self.read_only != 0,
        }
    }
}

/// Whether a number has three digits of 0 to 2.
fn is_digits(number: u64) -> bool
    ensures { result ≡ is_digits number }
{
    number / 100 <= 2 && number / 10 % 10 <= 2 && number % 10 <= 2
}

impl<'a> Message<'a> for VolumeFields {
    ghost use Rattle.master.specs.VolumeText.{volume_in};

    ghost IsOf = { λ fields taken. taken ≡ volume_in fields };

    fn empty() -> Self {
        VolumeFields {
            id: 0,
            size: 0,
            placement: 0,
            read_only: 0,
            ttl: 0,
        }
    }

    fn take(&mut self, field: Field<'a>) {
        match field.value {
            Value::Varint(value) => self.take_number(field.number, value),
            Value::Bytes(_) | Value::Fixed64(_) | Value::Fixed32(_) => {}
        }
    }
}

/// The fields of a volume's text. Takes no memory.
pub(crate) fn read_fields(text: &[u8]) -> Result<VolumeFields, WireFault>
    ensures { result ≡ volume_at text.now }
{
    read_message(text)
}
