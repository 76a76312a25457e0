//! An event's messages, one in the other: what it is made of before it is looked at what it means.
use crate::event_message::{EventFields, NotificationFields};
use entry::EntryText;

/// The entries of an EventNotification.
#[derive(Debug, Drop)]
pub struct EntriesParts<'a> {
    pub old_entry: Option<EntryText<'a>>,
    pub new_entry: Option<EntryText<'a>>,
}

/// SubscribeMetadataResponse with all that it takes.
#[derive(Debug, Drop)]
pub struct EventParts<'a> {
    pub fields: EventFields<'a>,
    pub notification: NotificationFields<'a>,
    pub entries: EntriesParts<'a>,
}
