ghost use Rattle.std.specs.Prelude.{◌≡◌, [], All, Ok, IfOk, OnOk};
ghost use Rattle.weed_base.specs.Path.{IsPath, text_of};
ghost use Rattle.entry.specs.EntryWriting.{entry_text, FitsEntry};
ghost use Rattle.name_core.specs.RecordText.{CanBeWritten, directory_of, name_of};
ghost use Rattle.records.specs.RecordReading.{record_of};
ghost use Rattle.records.specs.RecordText.{change_text, notification_text, record_text, FitsChange, HasFittingEntry};

use entry::{Entry, EntryBuffers};
use name_core::{Change, Record};
use proto_wire::Writer;
use std::alloc::{AllocError, Global};
use weed_base::{LogText, Path};

/// The text of the record, as a log keeps it. It is read back to the same record.
pub fn write_record(alloc: Global, step: &Record) -> Result<LogText, AllocError>
    requires { CanBeWritten step.now }
    ensures text { IfOk result (λ text. text ≡ record_text step.now) }
    ensures read_back { IfOk result (λ text. record_of text ≡ Ok step.now) }
{
    let mut text = Writer::new(alloc);
    text.varint(1, step.time)?;
    let mut buffers = Buffers::new(alloc);
    for change in step.changes.as_slice() {
        buffers.set_event(change)?;
        text.message(2, buffers.event.as_slice())?;
    }
    Ok(LogText::of(text.done().into_vec()))
}

/// The messages inside one event, each written ahead of the one that holds it. The next event has their
/// room again.
#[derive(Drop)]
struct Buffers {
    inside: EntryBuffers,
    entry: Writer,
    notification: Writer,
    event: Writer,
}

impl Buffers {
    fn new(alloc: Global) -> Buffers {
        Buffers {
            inside: EntryBuffers::new(alloc),
            entry: Writer::new(alloc),
            notification: Writer::new(alloc),
            event: Writer::new(alloc),
        }
    }

    fn set_event(&mut self, change: &Change) -> Result<(), AllocError>
        ensures text { OnOk result (self.new.event ≡ change_text change.now) }
        ensures fits { OnOk result (FitsChange change.now) }
    {
        self.set_notification(change)?;
        self.event.clear();
        self.event.bytes(1, directory_text(change.path()))?;
        self.event.message(2, self.notification.as_slice())
    }

    fn set_notification(&mut self, change: &Change) -> Result<(), AllocError>
        ensures text { OnOk result (self.new.notification ≡ notification_text change.now) }
        ensures fits { OnOk result (HasFittingEntry change.now) }
    {
        match change {
            Change::Put(path, entry) => {
                self.set_entry(name_text(path), entry)?;
                self.notification.clear();
                self.notification.message(2, self.entry.as_slice())
            }
            Change::Drop(path) => {
                self.entry.clear();
                self.entry.bytes(1, name_text(path))?;
                self.notification.clear();
                self.notification.message(1, self.entry.as_slice())
            }
        }
    }

    fn set_entry(&mut self, name: &[u8], entry: &Entry) -> Result<(), AllocError>
        ensures text { OnOk result (self.new.entry ≡ entry_text name.now entry.now) }
        ensures fits { OnOk result (FitsEntry entry.now) }
    {
        self.entry.clear();
        self.inside.write_entry(&mut self.entry, name, entry)
    }
}

/// The last part of a path, none for the root.
pub fn name_text(path: &Path) -> &[u8]
    ensures { result.now ≡ name_of path.now }
{
    path.name().unwrap_or(&[])
}

/// The text of a path's parent, for the root its own.
pub fn directory_text(path: &Path) -> &[u8]
    ensures text { result.now ≡ text_of (directory_of path.now) }
    ensures valid { IsPath path.now }
{
    let text = path.text();
    let Some(name) = path.name() else {
        return text;
    };
    let slash = text.len() - name.len() - 1;
    if slash == 0 { b"/" } else { &text[..slash] }
}
