ghost use Rattle.std.specs.Prelude.{◌≡◌};

use thiserror::Error;

/// What is wrong with a text of fields: the first fault from the left.
#[derive(Clone, Copy, Debug, PartialEq, Eq, Error)]
pub enum WireFault {
    #[error("the text ends inside a field")]
    Truncated,
    #[error("a varint is over ten bytes or 64 bits")]
    BadVarint,
    #[error("a field's number is out of its range")]
    BadTag,
    #[error("a wire type is not read")]
    BadWireType,
}

impl WireFault {
    ghost use Rattle.proto_wire.specs.Reading.{name_of};

    /// The variant's name.
    pub fn name(self) -> &'static str
        ensures { result.now ≡ name_of self }
    {
        match self {
            WireFault::Truncated => "Truncated",
            WireFault::BadVarint => "BadVarint",
            WireFault::BadTag => "BadTag",
            WireFault::BadWireType => "BadWireType",
        }
    }
}
