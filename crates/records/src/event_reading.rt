ghost use Rattle.std.specs.Prelude.{◌≡◌, option_copied};
ghost use Rattle.records.specs.Events.{entries_at, entry_if_there, event_at};

use crate::event_message::{EventFields, NotificationFields};
use crate::event_parts::{EntriesParts, EventParts};
use entry::{EntryText, read_entry};
use proto_wire::{WireFault, read_message};

/// An event with the messages that it takes, or the first fault in them. Takes no memory.
pub fn read_event<'a>(text: &'a [u8]) -> Result<EventParts<'a>, WireFault>
    ensures { result ≡ event_at text.now }
{
    let fields: EventFields = read_message(text)?;
    let notification: NotificationFields = read_message(fields.notification)?;
    let entries = read_entries(&notification)?;
    Ok(EventParts {
        fields,
        notification,
        entries,
    })
}

/// Both entries of a notification, in the order of their bytes.
fn read_entries<'a>(notification: &NotificationFields<'a>) -> Result<EntriesParts<'a>, WireFault>
    ensures { result ≡ entries_at notification.now.old_is_last notification.now.old_entry notification.now.new_entry }
{
    if notification.old_is_last {
        let new_entry = read_if_there(notification.new_entry)?;
        let old_entry = read_if_there(notification.old_entry)?;
        Ok(EntriesParts {
            old_entry,
            new_entry,
        })
    } else {
        let old_entry = read_if_there(notification.old_entry)?;
        let new_entry = read_if_there(notification.new_entry)?;
        Ok(EntriesParts {
            old_entry,
            new_entry,
        })
    }
}

fn read_if_there<'a>(text: Option<&'a [u8]>) -> Result<Option<EntryText<'a>>, WireFault>
    ensures { result ≡ entry_if_there (option_copied text.entry) }
{
    match text {
        Some(text) => Ok(Some(read_entry(text)?)),
        None => Ok(None),
    }
}
