ghost use Rattle.std.specs.Prelude.{◌≡◌, ◌≤◌, MatchResult, Ok, Err};
ghost use Rattle.weed_base.specs.Told.{raised, HasCause, HasWriteCause};

use crate::source::Failed;
use std::marker::Model;

/// How many calls of a form of the outside failed.
#[derive(Debug, Drop)]
pub struct Faults {
    count: u64,
}

impl Model for Faults {
    ghost use Rattle.std.specs.Prelude.{ℕ};

    ghost Value = { ℕ };

    ghost view = { λ faults. faults.count };
}

impl Faults {
    /// None so far.
    pub fn new() -> Faults
        ensures { result ≡ 0 }
    {
        Faults { count: 0 }
    }

    /// How many failed.
    pub fn count(&self) -> u64
        ensures { result ≡ self.now }
    {
        self.count
    }

    /// Counts one. The count stays at its end.
    pub fn raise(&mut self) -> Failed
        ensures count { self.new ≡ raised self.old }
        ensures later { self.old ≤ self.new }
    {
        self.count = self.count.saturating_add(1);
        Failed
    }

    /// Hands on what a call answered, and counts its error.
    pub fn note<T, E: Drop>(&mut self, answer: Result<T, E>) -> Result<T, Failed>
        ensures value { MatchResult answer (λ value. result ≡ Ok value) (λ _. result ≡ Err record {}) }
        ensures cause { HasCause self.old self.new result }
    {
        match answer {
            Ok(value) => Ok(value),
            Err(_) => Err(self.raise()),
        }
    }

    /// Hands on what a write of this piece answered, and counts its error, or that it took nothing.
    pub fn note_write<E: Drop>(
        &mut self,
        answer: Result<usize, E>,
        piece: &[u8],
    ) -> Result<usize, Failed>
        ensures value { MatchResult answer (λ count. result ≡ Ok count) (λ _. result ≡ Err record {}) }
        ensures cause { HasWriteCause self.old self.new result piece.now }
    {
        let count = self.note(answer)?;
        if count == 0 && !piece.is_empty() {
            self.raise();
        }
        Ok(count)
    }
}
