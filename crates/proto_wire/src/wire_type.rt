ghost use Rattle.std.specs.Prelude.{◌≡◌, ◌≢◌, IfOk, IfErr};
ghost use Rattle.proto_wire.specs.WireType.{code_of};
ghost use Rattle.proto_wire.specs.declared.wire_type.WireType.{WireType};

use crate::fault::WireFault;

/// How a field's value is spelled.
#[derive(Clone, Copy, Debug, PartialEq, Eq)]
pub enum WireType {
    Varint = 0,
    Fixed64 = 1,
    Bytes = 2,
    Fixed32 = 5,
}

impl WireType {
    /// The wire type of that number; `BadWireType` where fields of it aren't read. Takes no memory.
    pub fn of_code(code: u64) -> Result<WireType, WireFault>
        ensures known { IfOk result (λ wire_type. code ≡ code_of wire_type) }
        ensures unknown { IfErr result (λ fault. (fault ≡ WireFault.BadWireType) × ((wire_type : WireType) → code ≢ code_of wire_type)) }
    {
        match code {
            0 => Ok(WireType::Varint),
            1 => Ok(WireType::Fixed64),
            2 => Ok(WireType::Bytes),
            5 => Ok(WireType::Fixed32),
            _ => Err(WireFault::BadWireType),
        }
    }

    /// The number that a tag has for it. Takes no memory.
    pub fn code(self) -> u8
        ensures { result ≡ code_of self }
    {
        self as u8
    }
}
