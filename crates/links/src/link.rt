ghost use Rattle.std.specs.Prelude.{◌≡◌, ℕ, List, [], Option};
ghost use Rattle.std.specs.Option.{option_map};
ghost use Rattle.links.specs.Lines.{Line, Opens};

use weed_base::{Failed, Sink, Source};

/// A connection to one server after another. Its reads and writes go to the one that was opened last.
pub trait Link: Source + Sink {
    /// Where it leads.
    ghost line: { Self → Line };

    /// Connects to that address. What the former connection had left to read is gone, unless this fails.
    fn open(&mut self, address: &[u8]) -> Result<(), Failed>
        ensures opens { Opens (line self.old) (line self.new) (Self.left self.old) (Self.left self.new) address.now result }
        ensures written { Self.written self.new ≡ Self.written self.old }
        ensures reads { Self.Source.faults self.new ≡ Self.Source.faults self.old }
        ensures writes { Self.Sink.faults self.new ≡ Self.Sink.faults self.old }
        ensures course { (start : Self) → Self.course start self.old → Self.course start self.new };

    /// Ends the connection: nothing is left to read.
    fn close(&mut self)
        ensures left { Self.left self.new ≡ option_map (λ _. []) (Self.left self.old) }
        ensures written { Self.written self.new ≡ Self.written self.old }
        ensures line { line self.new ≡ line self.old }
        ensures reads { Self.Source.faults self.new ≡ Self.Source.faults self.old }
        ensures writes { Self.Sink.faults self.new ≡ Self.Sink.faults self.old }
        ensures course { (start : Self) → Self.course start self.old → Self.course start self.new };

    /// A read leaves what was written.
    ghost reads_leave_written: { (one two : Self) (was : Option (List ℕ)) → Self.Source.beside two ≡ Self.Source.beside one → Self.written one ≡ was → Self.written two ≡ was };

    /// And the count of failed writes.
    ghost reads_leave_writes: { (one two : Self) (was : ℕ) → Self.Source.beside two ≡ Self.Source.beside one → Self.Sink.faults one ≡ was → Self.Sink.faults two ≡ was };

    /// And where it leads.
    ghost reads_leave_line: { (one two : Self) (was : Line) → Self.Source.beside two ≡ Self.Source.beside one → line one ≡ was → line two ≡ was };

    /// A write leaves what is left to read.
    ghost writes_leave_left: { (one two : Self) (was : Option (List ℕ)) → Self.Sink.beside two ≡ Self.Sink.beside one → Self.left one ≡ was → Self.left two ≡ was };

    /// And the count of failed reads.
    ghost writes_leave_reads: { (one two : Self) (was : ℕ) → Self.Sink.beside two ≡ Self.Sink.beside one → Self.Source.faults one ≡ was → Self.Source.faults two ≡ was };

    /// And where it leads.
    ghost writes_leave_line: { (one two : Self) (was : Line) → Self.Sink.beside two ≡ Self.Sink.beside one → line one ≡ was → line two ≡ was };
}
