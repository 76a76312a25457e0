ghost use Rattle.std.specs.Prelude.{◌≡◌, ◌≤◌, ◌++◌, ◌∷◌, [], length, IfOk};
ghost use Rattle.meta_log.specs.Segment.{IsShort, framed};

use std::alloc::{AllocError, Global};
use std::marker::Model;

/// A payload as it stands behind its gate: its length in 4 bytes, its bytes, and a closed gate.
#[derive(Debug, Drop)]
pub struct GateText {
    bytes: Vec<u8>,
}

impl Model for GateText {
    ghost use Rattle.std.specs.Prelude.{List, ℕ, ◌-◌, take, drop, length};
    ghost use Rattle.std.specs.Coded.{coded_list, coded_ℕ};
    ghost use Rattle.meta_log.specs.GateText.{payload_of, IsGateText};

    ghost Value = { List ℕ };

    ghost coded = { coded_list coded_ℕ };

    ghost view = { λ text. payload_of text.bytes.items };

    ghost invariant = { λ text. IsGateText text.bytes.items };
}

impl GateText {
    /// A payload of at most 67,108,864 bytes, ready to be appended.
    pub fn make(alloc: Global, payload: &[u8]) -> Result<GateText, AllocError>
        requires { IsShort payload.now }
        ensures { IfOk result (λ text. text ≡ payload.now) }
    {
        let mut bytes = Vec::with_capacity(alloc, payload.len() + 5)?;
        bytes.extend_from_slice(&(payload.len() as u32).to_be_bytes())?;
        bytes.extend_from_slice(payload)?;
        bytes.push(0)?;
        Ok(GateText { bytes })
    }

    /// The payload.
    pub fn as_slice(&self) -> &[u8]
        ensures short { IsShort self.now }
        ensures payload { result.now ≡ self.now }
    {
        &self.bytes[4..self.bytes.len() - 1]
    }

    /// What is written behind the gate.
    pub fn ready(&self) -> &[u8]
        ensures short { IsShort self.now }
        ensures bytes { result.now ≡ framed self.now ++ 0 ∷ [] }
    {
        self.bytes.as_slice()
    }
}
