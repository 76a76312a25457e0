ghost use Rattle.std.specs.Prelude.{◌≡◌};
ghost use Rattle.meta_log.specs.LogText.{segment_name, on_name};

use weed_base::FileName;

/// Whose log it is, by what the names of its files begin with.
#[derive(Clone, Copy, Debug, PartialEq, Eq)]
pub enum Stem {
    /// A filer's log.
    Log,
    /// A follower's marks.
    Marks,
}

/// The name of the first segment's file.
pub fn first_segment(stem: Stem) -> FileName
    ensures { result ≡ segment_name stem 1 }
{
    match stem {
        Stem::Log => FileName::new(b"log.00000001").unwrap(),
        Stem::Marks => FileName::new(b"marks.00000001").unwrap(),
    }
}

/// The name of the second segment's file.
pub fn second_segment(stem: Stem) -> FileName
    ensures { result ≡ segment_name stem 2 }
{
    match stem {
        Stem::Log => FileName::new(b"log.00000002").unwrap(),
        Stem::Marks => FileName::new(b"marks.00000002").unwrap(),
    }
}

/// The name of the file by which the first segment counts.
pub fn first_on(stem: Stem) -> FileName
    ensures { result ≡ on_name stem 1 }
{
    match stem {
        Stem::Log => FileName::new(b"log.00000001.on").unwrap(),
        Stem::Marks => FileName::new(b"marks.00000001.on").unwrap(),
    }
}
