ghost use Rattle.std.specs.Prelude.{◌≡◌};
ghost use Rattle.weed_base.specs.Told.{HasCause};
ghost use Rattle.weed_command.specs.Written.{WritesAll};
ghost use Rattle.weed_command.specs.Exit.{status_of, line_of};

use crate::write::{WriteFault, write_pieces};
use itoa::Buffer;
use weed_base::{FileName, Sink};

/// How a run ended.
#[derive(Debug, Drop)]
pub enum Exit {
    /// The input was read to its end, or to an answer that closes.
    Done,
    /// The words name no command, or lack or misspell a flag.
    BadWords { place: u32 },
    /// A call of the disk failed.
    DiskFault,
    /// A file of the disk isn't what it should be, from that offset on.
    Damaged { file: FileName, at: u64 },
    /// A read of the input failed.
    ReadFault,
    /// A write of an answer failed.
    WriteFault,
    /// Out of memory.
    Memory,
    /// The run took as many turns as it may.
    TurnsSpent,
}

impl Exit {
    /// The status of the process. Takes no memory.
    pub fn status(&self) -> u8
        ensures { result ≡ status_of self.now }
    {
        match self {
            Exit::Done => 0,
            Exit::BadWords { .. } => 1,
            Exit::DiskFault => 2,
            Exit::Damaged { .. } => 3,
            Exit::ReadFault => 5,
            Exit::WriteFault => 6,
            Exit::Memory => 7,
            Exit::TurnsSpent => 15,
        }
    }

    /// Writes the line that tells of the end, nothing where all is done. Takes no memory.
    pub fn tell<K: Sink>(&self, to: &mut K) -> Result<(), WriteFault>
        ensures line { WritesAll (K.written to.old) (K.written to.new) result (line_of self.now) }
        ensures cause { HasCause (K.faults to.old) (K.faults to.new) result }
    {
        let mut digits = Buffer::new();
        match self {
            Exit::Done => Ok(()),
            Exit::BadWords { place } => write_pieces(
                to,
                &[b"weed: bad word ", digits.format(*place).as_bytes(), b"\n"],
            ),
            Exit::DiskFault => write_pieces(to, &[b"weed: disk fault\n"]),
            Exit::Damaged { file, at } => write_pieces(
                to,
                &[
                    b"weed: damaged ",
                    file.as_slice(),
                    b" at ",
                    digits.format(*at).as_bytes(),
                    b"\n",
                ],
            ),
            Exit::ReadFault => write_pieces(to, &[b"weed: read fault\n"]),
            Exit::WriteFault => write_pieces(to, &[b"weed: write fault\n"]),
            Exit::Memory => write_pieces(to, &[b"weed: out of memory\n"]),
            Exit::TurnsSpent => write_pieces(to, &[b"weed: turns spent\n"]),
        }
    }
}
