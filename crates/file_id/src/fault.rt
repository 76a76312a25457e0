ghost use Rattle.std.specs.Prelude.{◌≡◌};
ghost use Rattle.file_id.specs.Faults.{fault_name};

use thiserror::Error;

/// What is wrong with a file id, in the order in which it is looked for.
#[derive(Clone, Copy, Debug, PartialEq, Eq, Error)]
pub enum FidFault {
    #[error("no comma")]
    NoComma,
    #[error("the volume is no decimal number below 2^32")]
    BadVolume,
    #[error("the delta is no decimal number below 2^64")]
    BadDelta,
    #[error("a byte of key and cookie is no hexadecimal digit")]
    BadHex,
    #[error("key and cookie have fewer than 9 digits")]
    KeyTooShort,
    #[error("key and cookie have more than 24 digits")]
    KeyTooLong,
    #[error("key and delta pass 2^64 - 1")]
    KeyOverflow,
}

impl FidFault {
    /// The name of the variant. Takes no memory.
    pub fn name(&self) -> &'static str
        ensures { result.now ≡ fault_name self.now }
    {
        match self {
            FidFault::NoComma => "NoComma",
            FidFault::BadVolume => "BadVolume",
            FidFault::BadDelta => "BadDelta",
            FidFault::BadHex => "BadHex",
            FidFault::KeyTooShort => "KeyTooShort",
            FidFault::KeyTooLong => "KeyTooLong",
            FidFault::KeyOverflow => "KeyOverflow",
        }
    }
}
