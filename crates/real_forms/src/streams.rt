ghost use Rattle.std.specs.Prelude.{◌≡◌, List, ℕ, Option, None, IsSome, ⊤};
ghost use Rattle.std.specs.Io.{ReadsAtMost, WritesAtMost};
ghost use Rattle.std.specs.Result.{result_ok};
ghost use Rattle.std.specs.Io.KnownBytes.{ReadConsumes, WriteAppends};
ghost use Rattle.weed_base.specs.Sent.{Sends};
ghost use Rattle.weed_base.specs.Told.{HasCause, HasWriteCause, Reads, Writes};

use std::io::{self, Read, Stderr, Stdin, Stdout, Write};
use weed_base::{Course, Failed, Faults, Sender, Sink, Source};

/// A reader of a type that tells of each of its values what is left, or of none.
pub trait SteadyRead: Read {
    /// One read of it led from here to there, with this in the room and this count, or none where it failed. Generic
    /// code has this from `read_once` alone.
    ghost one_read: { Self → Self → List ℕ → Option ℕ → Type 0 };

    /// Reads as `read` does.
    fn read_once(&mut self, room: &mut [u8]) -> io::Result<usize>
        ensures bound { ReadsAtMost result room.new }
        ensures bytes { ReadConsumes (Self.remaining self.old) (Self.remaining self.new) result room.new }
        ensures once { one_read self.old self.new room.new (result_ok result) };

    /// Where one tells, each does.
    ghost steady: { (one other : Self) → IsSome (Self.remaining one) → IsSome (Self.remaining other) };
}

/// The system tells nothing of its input.
impl SteadyRead for Stdin {
    ghost steady = { λ _ _ told. told };

    ghost one_read = { λ _ _ _ _. ⊤ };

    fn read_once(&mut self, room: &mut [u8]) -> io::Result<usize> {
        self.read(room)
    }
}

/// A writer of a type that tells of each of its values what was written, or of none.
pub trait SteadyWrite: Write {
    /// One write of this piece led from here to there, with this count, or none where it failed. Generic code has
    /// this from `write_once` alone.
    ghost one_write: { Self → Self → List ℕ → Option ℕ → Type 0 };

    /// Writes as `write` does.
    fn write_once(&mut self, piece: &[u8]) -> io::Result<usize>
        ensures bound { WritesAtMost result piece.now }
        ensures bytes { WriteAppends (Self.contents self.old) (Self.contents self.new) result piece.now }
        ensures once { one_write self.old self.new piece.now (result_ok result) };

    /// Where one tells, each does.
    ghost steady: { (one other : Self) → IsSome (Self.contents one) → IsSome (Self.contents other) };
}

/// The system tells nothing of its output.
impl SteadyWrite for Stdout {
    ghost steady = { λ _ _ told. told };

    ghost one_write = { λ _ _ _ _. ⊤ };

    fn write_once(&mut self, piece: &[u8]) -> io::Result<usize> {
        self.write(piece)
    }
}

impl SteadyWrite for Stderr {
    ghost steady = { λ _ _ told. told };

    ghost one_write = { λ _ _ _ _. ⊤ };

    fn write_once(&mut self, piece: &[u8]) -> io::Result<usize> {
        self.write(piece)
    }
}

/// A source over a reader of the outside. Each read is one read of it. What is left is told where the reader
/// tells it.
#[derive(Drop)]
pub struct ReaderSource<R> {
    reader: R,
    faults: Faults,
}

/// Standard input, of which no byte is read ahead.
pub type StandardInput = ReaderSource<Stdin>;

impl<R: Read> ReaderSource<R> {
    /// Of this reader, of which nothing was read yet.
    pub fn new(reader: R) -> ReaderSource<R>
        ensures { result ≡ record { reader = reader; faults = 0 } }
    {
        ReaderSource {
            reader,
            faults: Faults::new(),
        }
    }

    /// How many reads failed.
    pub fn faults(&self) -> u64
        ensures { result ≡ self.now.faults }
    {
        self.faults.count()
    }
}

impl<R> Course for ReaderSource<R> {
    ghost course = { λ _ _. ⊤ };
}

impl<R: SteadyRead> Source for ReaderSource<R> {
    ghost left = { λ source. R.remaining source.reader };

    ghost faults = { λ source. source.faults };

    ghost Beside = { Unit {0} };

    ghost beside = { λ _. tt };

    fn read(&mut self, room: &mut [u8]) -> Result<usize, Failed>
        ensures bytes { Reads (R.remaining self.old.reader) (R.remaining self.new.reader) result room.new }
        ensures cause { HasCause self.old.faults self.new.faults result }
        ensures once { R.one_read self.old.reader self.new.reader room.new (result_ok result) }
    {
        let answer = self.reader.read_once(room);
        self.faults.note(answer)
    }
}

/// A sink over a writer of the outside. Each write is one write of it. What was written is told where the
/// writer tells it.
#[derive(Drop)]
pub struct WriterSink<W> {
    writer: W,
    faults: Faults,
}

/// Standard output, without a buffer.
pub type StandardOutput = WriterSink<Stdout>;

/// Standard error, without a buffer.
pub type StandardError = WriterSink<Stderr>;

impl<W: Write> WriterSink<W> {
    /// Over this writer, to which nothing was written yet.
    pub fn new(writer: W) -> WriterSink<W>
        ensures { result ≡ record { writer = writer; faults = 0 } }
    {
        WriterSink {
            writer,
            faults: Faults::new(),
        }
    }

    /// How many writes failed.
    pub fn faults(&self) -> u64
        ensures { result ≡ self.now.faults }
    {
        self.faults.count()
    }
}

impl<W> Course for WriterSink<W> {
    ghost course = { λ _ _. ⊤ };
}

impl<W: SteadyWrite> Sink for WriterSink<W> {
    ghost written = { λ sink. W.contents sink.writer };

    ghost faults = { λ sink. sink.faults };

    ghost Beside = { Unit {0} };

    ghost beside = { λ _. tt };

    fn write(&mut self, piece: &[u8]) -> Result<usize, Failed>
        ensures bytes { Writes (W.contents self.old.writer) (W.contents self.new.writer) result piece.now }
        ensures cause { HasWriteCause self.old.faults self.new.faults result piece.now }
        ensures once { W.one_write self.old.writer self.new.writer piece.now (result_ok result) }
    {
        let answer = self.writer.write_once(piece);
        self.faults.note_write(answer, piece)
    }
}

/// Each send is one write. The pieces aren't told.
impl<W: SteadyWrite> Sender for WriterSink<W> {
    ghost sent = { λ _. None };

    ghost faults = { λ sink. sink.faults };

    fn send(&mut self, _tick: u64, piece: &[u8]) -> Result<usize, Failed>
        ensures pieces { Sends _tick None None result piece.now }
        ensures cause { HasWriteCause self.old.faults self.new.faults result piece.now }
        ensures once { W.one_write self.old.writer self.new.writer piece.now (result_ok result) }
    {
        self.write(piece)
    }
}
