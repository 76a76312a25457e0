ghost use Rattle.std.specs.Prelude.{◌≡◌, ◌↔◌, length, IsTrue};
ghost use Rattle.std.specs.Int.{w64, from_be_bytes};
ghost use Rattle.meta_log.specs.LogText.{IsMarks, IsAllowed};
ghost use Rattle.meta_log.specs.declared.stem.Stem.TheVariants.{Log, Marks};

use crate::check::Check;
use std::alloc::{AllocError, Global};

/// Lets every payload through.
#[derive(Debug, Drop)]
pub struct AnyPayload;

impl Check for AnyPayload {
    ghost allowed = { IsAllowed Log };

    ghost passed = { λ _ payloads. IsAllowed Log payloads };

    ghost count = { λ _. 0 };

    fn pass(&mut self, _alloc: Global, _payload: &[u8]) -> Result<bool, AllocError> {
        Ok(true)
    }

    ghost sound = { λ _ _ passed. passed };
}

/// Lets marks through.
#[derive(Debug, Drop)]
pub struct AnyMarks;

impl Check for AnyMarks {
    ghost allowed = { IsAllowed Marks };

    ghost passed = { λ _ payloads. IsAllowed Marks payloads };

    ghost count = { λ _. 0 };

    fn pass(&mut self, _alloc: Global, payload: &[u8]) -> Result<bool, AllocError> {
        Ok(is_marks(payload))
    }

    ghost sound = { λ _ _ passed. passed };
}

/// The number of eight bytes, highest first.
fn number(bytes: &[u8]) -> u64
    requires { length bytes.now ≡ 8 }
    ensures { result ≡ from_be_bytes w64 bytes.now }
{
    let mut eight = [0; 8];
    eight.copy_from_slice(bytes);
    u64::from_be_bytes(eight)
}

fn is_marks(payload: &[u8]) -> bool
    ensures { IsTrue result ↔ IsMarks payload.now }
{
    payload.len() == 16 && number(&payload[..8]) <= number(&payload[8..])
}
