ghost use Rattle.std.specs.Prelude.{◌≡◌, ◌≤◌, ◌<◌, ◌-◌, ℕ, true, false, length, slice_index_or};
ghost use Rattle.topology.specs.Nodes.{is_from, has_id, AreInOrder};
ghost use Rattle.topology.specs.Changes.{is_heard};
ghost use Rattle.topology.specs.Choices.{has_room};
ghost use Rattle.std.specs.FinMap.{len};
ghost use Rattle.topology.specs.Places.{IsSeat};

use crate::node::Node;
use crate::numbered::Numbered;
use crate::report::VolumeReport;

/// How long a node may be silent, in nanoseconds.
const SILENCE: u64 = 25_000_000_000;

/// A node, when it was last heard, and its volumes.
#[derive(Debug, Drop)]
pub struct Member {
    pub node: Node,
    /// The moment of its last join or beat, in nanoseconds since 1970.
    pub heard: u64,
    /// By their volumes.
    pub reports: Numbered<VolumeReport>,
}

impl Member {
    /// Whether its id is this one or stands behind it.
    fn is_from(&self, id: &[u8]) -> bool
        ensures { result ≡ is_from id.now self.now }
    {
        !id.cmp(self.node.id.as_slice()).is_gt()
    }

    /// Whether it was heard within 25 seconds before now.
    pub(crate) fn is_heard(&self, now: u64) -> bool
        ensures { result ≡ is_heard now self.now }
    {
        now.saturating_sub(self.heard) <= SILENCE
    }

    /// How many volumes more it takes.
    pub(crate) fn room_left(&self) -> usize
        ensures { result ≡ self.now.node.room - len self.now.reports }
    {
        usize::try_from(self.node.room)
            .unwrap_or(usize::MAX)
            .saturating_sub(self.reports.len())
    }

    /// Whether it has fewer volumes than room.
    pub(crate) fn has_room(&self) -> bool
        ensures { result ≡ has_room self.now }
    {
        self.room_left() > 0
    }

    /// Whether its id is this one.
    pub(crate) fn has_id(&self, id: &[u8]) -> bool
        ensures { result ≡ has_id id.now self.now }
    {
        id == self.node.id.as_slice()
    }
}

/// The place of the first member whose id doesn't stand before this one.
fn seat_of(members: &[Member], id: &[u8]) -> usize
    ensures within { result ≤ length members.now }
    ensures before { (k : ℕ) (d : Member) → k < result → is_from id.now (slice_index_or members.now k d) ≡ false }
    ensures here { (d : Member) → result < length members.now → is_from id.now (slice_index_or members.now result d) ≡ true }
{
    for (at, member) in members.iter().enumerate() {
        if member.is_from(id) {
            return at;
        }
    }
    members.len()
}

/// Where the member with an id stands, or belongs.
#[derive(Clone, Copy)]
pub(crate) enum Seat {
    Taken(usize),
    Free(usize),
}

/// Where the member with this id stands, or belongs.
pub(crate) fn find_seat(members: &[Member], id: &[u8]) -> Seat
    requires { AreInOrder members.now }
    ensures { IsSeat id.now members.now result }
{
    let at = seat_of(members, id);
    match members.get(at) {
        Some(member) if member.has_id(id) => Seat::Taken(at),
        _ => Seat::Free(at),
    }
}
