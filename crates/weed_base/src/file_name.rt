ghost use Rattle.std.specs.Prelude.{◌≡◌, ◌≤◌, IsTrue, Some, length, take, nat_eq, refl};
ghost use Rattle.std.specs.Ordering.{nat_cmp};
ghost use Rattle.std.specs.Cmp.{partial_equiv_from_equiv};
ghost use Rattle.std.specs.Cmp.Lexicographic.{pointwise, slice_cmp, nat_list_cmp_total, nat_list_eq_equiv, texts_po, texts_ties};
ghost use Rattle.std.specs.Option.{SomeIff};
ghost use Rattle.std.specs.List.{list_all};
ghost use Rattle.weed_base.specs.FileName.{is_file_byte, is_file_name};

use std::cmp::Ordering;
use std::marker::Model;

const MAX_LENGTH: usize = 64;

/// The name of a file of a disk: 1 to 64 bytes of `a-z`, `0-9`, `.` and `_`.
#[derive(Debug, Drop)]
pub struct FileName {
    bytes: [u8; MAX_LENGTH],
    length: usize,
}

impl Model for FileName {
    ghost use Rattle.std.specs.Prelude.{List, ℕ, take, IsTrue, ◌≤◌};
    ghost use Rattle.std.specs.Coded.{coded_list, coded_ℕ};
    ghost use Rattle.weed_base.specs.FileName.{is_file_name};

    ghost Value = { List ℕ };

    ghost coded = { coded_list coded_ℕ };

    ghost view = { λ name. take name.length name.bytes };

    ghost invariant = { λ name. (name.length ≤ 64) × IsTrue (is_file_name (take name.length name.bytes)) };
}

fn is_allowed(byte: u8) -> bool
    ensures { result ≡ is_file_byte byte }
{
    matches!(byte, b'a'..=b'z' | b'0'..=b'9' | b'.' | b'_')
}

fn all_allowed(text: &[u8]) -> bool
    ensures { result ≡ list_all is_file_byte text.now }
{
    text.iter().all(|byte| is_allowed(*byte))
}

/// The test for the text of a name.
fn is_name(text: &[u8]) -> bool
    ensures { result ≡ is_file_name text.now }
{
    text.len() >= 1 && text.len() <= MAX_LENGTH && all_allowed(text)
}

fn padded(text: &[u8]) -> [u8; MAX_LENGTH]
    requires { length text.now ≤ 64 }
    ensures { take (length text.now) result ≡ text.now }
{
    let mut bytes = [0; MAX_LENGTH];
    bytes[..text.len()].copy_from_slice(text);
    bytes
}

impl FileName {
    /// A name of this text, exactly where it is one. Takes no memory.
    pub fn new(text: &[u8]) -> Option<FileName>
        ensures { SomeIff result (IsTrue (is_file_name text.now)) text.now }
    {
        if !is_name(text) {
            return None;
        }
        Some(FileName {
            bytes: padded(text),
            length: text.len(),
        })
    }

    /// The same name again. Takes no memory.
    pub fn copy(&self) -> FileName
        ensures { result ≡ self.now }
    {
        FileName {
            bytes: self.bytes,
            length: self.length,
        }
    }

    /// Its bytes. Takes no memory.
    pub fn as_slice(&self) -> &[u8]
        ensures name { IsTrue (is_file_name self.now) }
        ensures text { result.now ≡ self.now }
    {
        &self.bytes[..self.length]
    }
}

// Names are compared by their bytes.

impl PartialEq for FileName {
    ghost eq = { pointwise nat_eq };

    ghost laws = { partial_equiv_from_equiv nat_list_eq_equiv };

    fn eq(&self, other: &FileName) -> bool {
        self.as_slice() == other.as_slice()
    }
}

impl Eq for FileName {
    ghost laws = { nat_list_eq_equiv };
}

impl PartialOrd for FileName {
    ghost partial_cmp = { λ left right. Some (slice_cmp nat_cmp left right) };

    ghost laws = { texts_po };

    fn partial_cmp(&self, other: &FileName) -> Option<Ordering> {
        Some(self.cmp(other))
    }
}

impl Ord for FileName {
    ghost cmp = { slice_cmp nat_cmp };

    ghost total = { nat_list_cmp_total };

    ghost matches_partial_cmp = { λ _ _. refl };

    ghost matches_eq = { texts_ties };

    fn cmp(&self, other: &FileName) -> Ordering {
        self.as_slice().cmp(other.as_slice())
    }
}
