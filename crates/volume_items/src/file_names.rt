ghost use Rattle.std.specs.Prelude.{◌≡◌, ◌+◌, ◌≤◌, ◌++◌, length, take};
ghost use Rattle.volume_items.specs.FileNames.{ending, name_of};

use weed_base::FileName;

/// The longest name: ten digits, and an end of four bytes.
const MAX_LENGTH: usize = 14;

/// What a file of a volume is.
#[derive(Clone, Copy, Debug, PartialEq, Eq)]
pub enum Part {
    /// The superblock and the items.
    Items,
    /// Where the needle of each key lies.
    Index,
    /// The sign that the volume is whole.
    Sign,
    /// The items that a vacuum copies.
    Copy,
}

impl Part {
    /// The end of its name.
    fn ending(self) -> &'static [u8; 4]
        ensures { result.now ≡ ending self }
    {
        match self {
            Part::Items => b".dat",
            Part::Index => b".idx",
            Part::Sign => b".vif",
            Part::Copy => b".cpd",
        }
    }
}

/// Digits and an end behind them.
fn joined(digits: &[u8], end: &[u8; 4]) -> [u8; MAX_LENGTH]
    requires { length digits.now ≤ 10 }
    ensures { take (length digits.now + 4) result ≡ digits.now ++ end.now }
{
    let mut text = [0; MAX_LENGTH];
    let len = digits.len();
    text[..len].copy_from_slice(digits);
    text[len..len + 4].copy_from_slice(end);
    text
}

/// The name of a volume's file. Takes no memory.
pub fn file_name(id: u32, part: Part) -> FileName
    ensures { result ≡ name_of id part }
{
    let mut buffer = itoa::Buffer::new();
    let digits = buffer.format(id).as_bytes();
    let text = joined(digits, part.ending());
    FileName::new(&text[..digits.len() + 4]).unwrap()
}
