ghost use Rattle.std.specs.Prelude.{◌≡◌, true, false};

use std::marker::Model;
use weed_base::Bytes;

/// A needle in memory.
#[derive(Debug, Drop)]
pub struct MemNeedle {
    bytes: Bytes,
    is_held: bool,
}

impl Model for MemNeedle {
    ghost use Rattle.entry.specs.Needles.{NeedleText};

    ghost Value = { NeedleText };

    ghost view = { λ needle. record { bytes = needle.bytes; is_held = needle.is_held } };
}

impl MemNeedle {
    /// A needle of these bytes, which is held.
    pub fn new(bytes: Bytes) -> MemNeedle
        ensures { result ≡ record { bytes = bytes; is_held = true } }
    {
        MemNeedle {
            bytes,
            is_held: true,
        }
    }

    /// Its bytes. Takes no memory.
    pub fn as_slice(&self) -> &[u8]
        ensures { result.now ≡ self.now.bytes }
    {
        self.bytes.as_slice()
    }

    /// Whether it is held.
    pub fn is_held(&self) -> bool
        ensures { result ≡ self.now.is_held }
    {
        self.is_held
    }

    /// Lets go of it.
    pub fn let_go(&mut self)
        ensures { self.new ≡ record self.old { is_held = false } }
    {
        self.is_held = false;
    }
}
