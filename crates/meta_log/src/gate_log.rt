ghost use Rattle.std.specs.Prelude.{◌≡◌, ◌≤◌, ◌<◌, ◌+◌, ◌-◌, ◌^◌, ◌⊎◌, ◌++◌, ◌∷◌, [], List, length, ℕ, Err, IfOk, OnOk, IfErr, OnErr, IsErrOf, IfSome, None, Some};
ghost use Rattle.weed_base.specs.Told.{HasCause, IsCauseOf};
ghost use Rattle.weed_base.specs.Files.{BothTold, Files, content};
ghost use Rattle.weed_base.specs.DiskCalls.{Looks, Acts};
ghost use Rattle.meta_log.specs.Making.{LeavesOthers};
ghost use Rattle.meta_log.specs.LogText.{IsBlamable, segment_name, AppendsAt, ChangesOnly, Suits, MayKeep, IsDamage, IsLogText};
ghost use Rattle.meta_log.specs.Segment.{items};

use crate::fault::LogFault;
use crate::gate_text::GateText;
use crate::left::collect;
use crate::opening::open_stem;
use crate::place::Place;
use crate::reading::Reading;
use crate::stem::{Stem, first_segment};
use crate::write::write_settled;
use std::alloc::Global;
use weed_base::{Disk, Failed, Items, LogText};

/// A log on a disk, by the place of the gate behind its last item.
#[derive(Debug, Drop)]
pub struct GateLog {
    pub(crate) stem: Stem,
    pub(crate) gate: u64,
    ghost bounded: { gate < 2 ^ 64 - 1 },
}

impl GateLog {
    ghost use Rattle.meta_log.specs.Held.{HoldsGateLog, TellsPayloads, TellsText, TellsEither, HoldsPayloads, IsOpened, stem_of, gate_of, IsEither};
    ghost use Rattle.meta_log.specs.Images.{ComesBy, ImagesHoldPayloads, IsMadeFrom, HasListOf};
    ghost use Rattle.meta_log.specs.Faults.{IfDamaged};
    ghost use Rattle.meta_log.specs.Left.{BreaksAt};
    ghost use Rattle.meta_log.specs.Places.{place_behind, HoldsPlace, IsNext, begins_at, ReadsFrom};

    /// Opens the log of a disk, and makes its first segment where none counts. Syncs first. Where the files are no
    /// log, `Damaged` names the first file and place to blame, and nothing is changed.
    pub fn open<D: Disk>(alloc: Global, disk: &mut D, stem: Stem) -> Result<GateLog, LogFault>
        requires { MayKeep D.MARKS_ONLY stem }
        ensures held { IfOk result (HoldsGateLog (D.files disk.new)) }
        ensures opened { IfOk result (λ log. IsOpened stem (D.files disk.old) (D.files disk.new) log) }
        ensures damaged { IfErr result (IfDamaged (λ file at.
            IfSome (D.files disk.old) (λ files. IsDamage stem files file at) × (D.files disk.new ≡ D.files disk.old))) }
        ensures blamed { IfErr result (IfDamaged (λ file _. IsBlamable stem file)) }

        // Whatever comes of it, the list that the disk holds stays.
        ensures kept { (payloads : List (List ℕ)) → TellsText stem (D.files disk.old) payloads → TellsText stem (D.files disk.new) payloads }

        // Where any segment counts, nothing is changed, whatever is answered.
        ensures files { BothTold (IsMadeFrom stem) (D.files disk.old) (D.files disk.new) }

        // A crash at any moment leaves an image as it was, or the first segment in the making where none counted.
        ensures steps { (files : Files) → D.files disk.old ≡ Some files
            → Acts D.Disk disk.old disk.new (ComesBy (IsMadeFrom stem) (D.images disk.old)) }

        // A crash at any moment leaves a list that one before the call would have left; after `Ok` the list that was
        // read. Where each would have left a list, nothing is damaged.
        ensures atomic { (files : Files) → D.files disk.old ≡ Some files → Acts D.Disk disk.old disk.new (HasListOf stem (D.images disk.old)) }
        ensures settled { IfOk result (λ _. (files : Files) (payloads : List (List ℕ)) → D.files disk.old ≡ Some files → IsLogText stem files payloads
            → ImagesHoldPayloads stem (D.images disk.new) payloads) }
        ensures own { (files : Files) → D.files disk.old ≡ Some files
            → ((image : Files) → D.images disk.old image → (payloads : List (List ℕ)) × IsLogText stem image payloads) → IfErr result (IfDamaged (λ _ _. ⊥)) }

        ensures others { BothTold (LeavesOthers stem) (D.files disk.old) (D.files disk.new) }
        ensures cause { IsCauseOf (D.faults disk.old) (D.faults disk.new) (IsErrOf result LogFault.DiskFault) }
        ensures beside { D.beside disk.new ≡ D.beside disk.old }
    {
        let gate = open_stem(alloc, disk, stem)?;
        Ok(GateLog { stem, gate })
    }

    /// Adds a payload, by four calls of the disk at most. Takes no memory. After `Failed` the log is to be opened
    /// again.
    pub fn append<D: Disk>(&mut self, disk: &mut D, text: &GateText) -> Result<(), Failed>
        requires held { HoldsGateLog (D.files disk.old) self.old }
        requires suits { Suits (stem_of self.old) text.now }

        ensures held { OnOk result (HoldsGateLog (D.files disk.new) self.new) }
        ensures appended { OnOk result ((payloads : List (List ℕ)) → TellsPayloads (D.files disk.old) self.old payloads
            → TellsPayloads (D.files disk.new) self.new (payloads ++ text.now ∷ [])) }
        ensures failed { OnErr result ((payloads : List (List ℕ)) → TellsPayloads (D.files disk.old) self.old payloads
            → TellsEither (stem_of self.old) (D.files disk.new) payloads text.now) }
        ensures stem { stem_of self.new ≡ stem_of self.old }
        ensures bytes { OnOk result (AppendsAt (segment_name (stem_of self.old) 1) (gate_of self.old) text.now (D.files disk.old) (D.files disk.new)) }
        ensures moves { OnOk result (gate_of self.old < gate_of self.new) }
        ensures same { OnErr result (self.new ≡ self.old) }

        // A crash at any moment leaves the list, or the list with the payload; after `Ok` the latter.
        ensures atomic { (files : Files) (payloads : List (List ℕ)) → D.files disk.old ≡ Some files → HoldsPayloads files self.old payloads
            → ImagesHoldPayloads (stem_of self.old) (D.images disk.old) payloads
            → Acts D.Disk disk.old disk.new (IsEither (stem_of self.old) payloads text.now) }
        ensures settled { OnOk result ((files : Files) (payloads : List (List ℕ)) → D.files disk.old ≡ Some files → HoldsPayloads files self.old payloads
            → ImagesHoldPayloads (stem_of self.old) (D.images disk.new) (payloads ++ text.now ∷ [])) }

        ensures calls { D.tick disk.new ≤ D.tick disk.old + 4 }
        ensures others { BothTold (ChangesOnly (segment_name (stem_of self.old) 1)) (D.files disk.old) (D.files disk.new) }
        ensures cause { HasCause (D.faults disk.old) (D.faults disk.new) result }
        ensures beside { D.beside disk.new ≡ D.beside disk.old }
    {
        let segment = first_segment(self.stem);
        let behind = text.ready();
        write_settled(disk, &segment, self.gate + 1, behind)?;
        write_settled(disk, &segment, self.gate, &[1])?;
        self.gate += behind.len() as u64;
        Ok(())
    }

    /// The place of the first payload. Takes no memory.
    pub fn start(&self) -> Place
        ensures { result ≡ place_behind [] }
    {
        Place { segment: 1, at: 0 }
    }

    /// The next payloads from a place on, at most `room`, and the place behind them. Over files that hold the log
    /// nothing is damaged.
    pub fn read_from<D: Disk>(
        &self,
        alloc: Global,
        disk: &mut D,
        place: Place,
        room: u32,
    ) -> Result<(Items<LogText>, Place), LogFault>
        ensures next { IfOk result (λ read. IsNext (D.files disk.old) self.now place room read.0 read.1) }
        ensures behind { IfOk result (λ read. HoldsPlace (D.files disk.old) self.now place → HoldsPlace (D.files disk.new) self.now read.1) }
        ensures damaged { IfErr result (IfDamaged (λ _ _. HoldsPlace (D.files disk.old) self.now place → D.files disk.old ≡ None)) }

        // Whatever the file holds, what is read stands there, and damage is named where no item stands behind it.
        ensures reads { IfOk result (λ read. IfSome (D.files disk.old) (λ files.
            ReadsFrom (content files (segment_name (stem_of self.now) 1)) (gate_of self.now) place room read.0 read.1)) }
        ensures breaks { IfErr result (IfDamaged (λ _ at. IfSome (D.files disk.old) (λ files.
            BreaksAt (content files (segment_name (stem_of self.now) 1)) (gate_of self.now) room (2 ^ 64 - 1)
            (begins_at (content files (segment_name (stem_of self.now) 1)) place) at))) }

        // Over any disk the room is filled or the gate is reached, by no more than the texts that are handed on, and
        // damage is one of the log's file, before its gate.
        ensures whole { IfOk result (λ read. (length read.0 ≡ room) ⊎ (gate_of self.now ≤ read.1.at)) }
        ensures moves { IfOk result (λ read. read.1.at ≤ place.at + length (items read.0)) }
        ensures blamed { IfErr result (IfDamaged (λ file at. (file ≡ segment_name (stem_of self.now) 1) × (at < gate_of self.now))) }

        ensures looks { Looks D.Disk disk.old disk.new }
        ensures cause { IsCauseOf (D.faults disk.old) (D.faults disk.new) (IsErrOf result LogFault.DiskFault) }
        ensures beside { D.beside disk.new ≡ D.beside disk.old }
    {
        let name = first_segment(self.stem);
        let mut reading = Reading::begin(alloc, disk, &name, place.at)?;
        let texts = collect(alloc, disk, &name, self.gate, &mut reading, room, u64::MAX)?;
        let next = Place {
            segment: 1,
            at: reading.at(),
        };
        Ok((Items::of(texts), next))
    }
}
