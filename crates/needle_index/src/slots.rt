ghost use Rattle.std.specs.Prelude.{◌≡◌, ◌+◌, ◌<◌, ◌≤◌, ◌↔◌, None, IsTrue, IfOk, IsOk, OnOk, OnErr, map, nat_eq};
ghost use Rattle.std.specs.FinMap.{empty, get, insert, len, remove};
ghost use Rattle.std.specs.List.{IsDistinct};
ghost use Rattle.std.specs.Map.{keys_of};
ghost use Rattle.needle_index.specs.Order.{AreEntriesOf, entry_with};

use crate::entry::IndexEntry;
use crate::spot::Spot;
use std::alloc::{AllocError, Global};
use std::collections::HashMap;
use std::marker::Model;

/// The spots by their keys.
#[derive(Debug, Drop)]
pub struct Slots {
    map: HashMap<u64, Spot>,
}

impl Model for Slots {
    ghost use Rattle.std.specs.FinMap.{from_entries};
    ghost use Rattle.std.specs.HashMap.{spare};
    ghost use Rattle.needle_index.specs.Index.{Index, index_code};

    ghost Value = { Index };

    ghost coded = { index_code };

    ghost view = { λ slots. record { spots = from_entries slots.map.entries; spare = spare slots.map } };
}

/// The entries of spots and their keys, one by one.
fn entries_in(alloc: Global, spots: &HashMap<u64, Spot>) -> Result<Vec<IndexEntry>, AllocError>
    ensures entries { IfOk result (λ entries. entries.items ≡ map entry_with spots.now.entries) }
    ensures apart { IsDistinct nat_eq (keys_of spots.now.entries) }
{
    let mut entries = Vec::with_capacity(alloc, spots.len())?;
    for (key, spot) in spots {
        entries.push(IndexEntry {
            key: *key,
            offset: spot.offset,
            size: spot.size,
        })?;
    }
    Ok(entries)
}

impl Slots {
    /// Of no key. Takes no memory.
    pub fn new(alloc: Global) -> Slots
        ensures { result.spots ≡ empty }
    {
        Slots {
            map: HashMap::new(alloc),
        }
    }

    /// The spot of a key. Takes no memory.
    pub fn get(&self, key: u64) -> Option<Spot>
        ensures { result ≡ get self.now.spots key }
    {
        self.map.get(&key).copied()
    }

    /// How many keys there are. Takes no memory.
    pub fn len(&self) -> usize
        ensures { result ≡ len self.now.spots }
    {
        self.map.len()
    }

    /// The entries of all spots, in some order.
    pub fn entries(&self, alloc: Global) -> Result<Vec<IndexEntry>, AllocError>
        ensures { IfOk result (λ entries. AreEntriesOf self.now.spots entries.items) }
    {
        entries_in(alloc, &self.map)
    }

    /// Whether the other has the same spots. Takes no memory.
    pub fn is_same(&self, other: &Slots) -> bool
        ensures { IsTrue result ↔ (self.now.spots ≡ other.now.spots) }
    {
        self.map == other.map
    }

    /// Takes the memory for so many puts more.
    pub fn reserve(&mut self, puts: usize) -> Result<(), AllocError>
        ensures spots { self.new.spots ≡ self.old.spots }
        ensures ok { OnOk result (puts ≤ self.new.spare) }
        ensures spare { self.old.spare ≤ self.new.spare }
        ensures enough { puts ≤ self.old.spare → IsOk result }
    {
        self.map.reserve(puts)
    }

    /// Puts a spot at a key, and answers the former one. Fails only where no put is taken ahead.
    pub fn insert(&mut self, key: u64, spot: Spot) -> Result<Option<Spot>, AllocError>
        ensures former { IfOk result (λ former. former ≡ get self.old.spots key) }
        ensures ok { OnOk result (self.new.spots ≡ insert self.old.spots key spot) }
        ensures err { OnErr result (self.new.spots ≡ self.old.spots) }
        ensures succeeds { 0 < self.old.spare → IsOk result }
        ensures absent { OnErr result (get self.old.spots key ≡ None) }
        ensures spare { self.old.spare ≤ self.new.spare + 1 }
    {
        Ok(self.map.insert(key, spot)?)
    }

    /// Takes a key out, and answers its spot. Takes no memory.
    pub fn remove(&mut self, key: u64) -> Option<Spot>
        ensures former { result ≡ get self.old.spots key }
        ensures spots { self.new.spots ≡ remove self.old.spots key }
        ensures spare { self.old.spare ≤ self.new.spare }
    {
        self.map.remove(&key)
    }
}
