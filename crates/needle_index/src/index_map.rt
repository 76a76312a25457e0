ghost use Rattle.std.specs.Prelude.{◌≡◌, ◌≢◌, ◌+◌, ◌-◌, ◌%◌, ◌^◌, ◌<◌, ◌≤◌, ◌↔◌, None, IsTrue, length, IfErr, IfOk, IsOk, OnOk, OnErr};
ghost use Rattle.std.specs.FinMap.{empty, get, insert, len, remove};
ghost use Rattle.std.specs.List.Sorted.{IsNonDecreasingBy};
ghost use Rattle.needle_index.specs.Bytes.{live, padded_in};
ghost use Rattle.needle_index.specs.Order.{AreEntriesOf};
ghost use Rattle.needle_index.specs.Text.{IsCauseIn, entered, entered_all, spots_of};

use crate::entry::IndexEntry;
use crate::fault::IndexFault;
use crate::slots::Slots;
use crate::spot::Spot;
use needle::{Version, padded_len};
use std::alloc::{AllocError, Global};
use std::marker::Model;

/// Where the needle of each key lies.
#[derive(Debug, Drop)]
pub struct IndexMap {
    slots: Slots,
    /// The padded lengths together in each version, without what passes 64 bits.
    live_v2: u64,
    live_v3: u64,
}

impl Model for IndexMap {
    ghost use Rattle.std.specs.Prelude.{◌≡◌, ◌%◌, ◌^◌};
    ghost use Rattle.needle_index.specs.Index.{Index, index_code};
    ghost use Rattle.needle_index.specs.Bytes.{live};
    ghost use Rattle.needle.specs.declared.version.Version.TheVariants.{V2, V3};

    ghost Value = { Index };

    ghost coded = { index_code };

    ghost view = { λ map. map.slots };

    ghost invariant = { λ map. (map.live_v2 ≡ live V2 map.slots.spots % 2 ^ 64) × (map.live_v3 ≡ live V3 map.slots.spots % 2 ^ 64) };
}

impl IndexMap {
    /// An empty map. Takes no memory.
    pub fn new(alloc: Global) -> IndexMap
        ensures { result.spots ≡ empty }
    {
        IndexMap {
            slots: Slots::new(alloc),
            live_v2: 0,
            live_v3: 0,
        }
    }

    /// The map that the entries of a text leave, one after another. `Ragged` comes exactly where its length is no
    /// multiple of 16.
    pub fn load(alloc: Global, text: &[u8]) -> Result<IndexMap, IndexFault>
        ensures loaded { IfOk result (λ map. map.spots ≡ spots_of text.now) }
        ensures cause { IfErr result (IsCauseIn text.now) }
        ensures ragged { length text.now % 16 ≢ 0 → result ≡ Err (IndexFault.Ragged (length text.now)) }
    {
        if text.len() % IndexEntry::LENGTH != 0 {
            return Err(IndexFault::Ragged {
                length: text.len() as u64,
            });
        }
        let mut map = IndexMap::new(alloc);
        map.enter_all(text)?;
        Ok(map)
    }

    /// Does what the whole entries of a text say, one after another. After an `Err` those up to one of them are
    /// done.
    #[tactic(auto, unfolding(crate::specs::Text::entered_all))]
    pub fn enter_all(&mut self, text: &[u8]) -> Result<(), AllocError>
        ensures { OnOk result (self.new.spots ≡ entered_all self.old.spots text.now) }
    {
        let (entries, _) = text.as_chunks::<{ IndexEntry::LENGTH }>();
        for bytes in entries {
            self.enter(&IndexEntry::read(bytes))?;
        }
        Ok(())
    }

    /// Does what an entry says. Where `spare` is above 0, and for a removal, it takes no memory. An `Err` changes no
    /// spot.
    pub fn enter(&mut self, entry: &IndexEntry) -> Result<(), AllocError>
        ensures ok { OnOk result (self.new.spots ≡ entered self.old.spots entry.now) }
        ensures err { OnErr result (self.new.spots ≡ self.old.spots) }
        ensures succeeds { 0 < self.old.spare → IsOk result }
        ensures spare { self.old.spare ≤ self.new.spare + 1 }
    {
        if entry.is_removal() {
            let _ = self.remove(entry.key);
            return Ok(());
        }
        let spot = Spot {
            offset: entry.offset,
            size: entry.size,
        };
        let _ = self.put(entry.key, spot)?;
        Ok(())
    }

    /// The spot of a key, if it has one. Takes no memory.
    pub fn get(&self, key: u64) -> Option<Spot>
        ensures { result ≡ get self.now.spots key }
    {
        self.slots.get(key)
    }

    /// The entries of all spots, by their offsets.
    pub fn in_order(&self, alloc: Global) -> Result<Vec<IndexEntry>, AllocError>
        ensures entries { IfOk result (λ entries. AreEntriesOf self.now.spots entries.items) }
        ensures order { IfOk result (λ entries. IsNonDecreasingBy (λ entry. entry.offset) entries.items) }
    {
        let mut entries = self.slots.entries(alloc)?;
        entries.sort_by_key(|entry| entry.offset)?;
        Ok(entries)
    }

    /// How many keys have a spot. Takes no memory.
    pub fn len(&self) -> u64
        ensures { result ≡ len self.now.spots }
    {
        self.slots.len() as u64
    }

    /// Whether the other map has the same spots. Takes no memory.
    pub fn is_same(&self, other: &IndexMap) -> bool
        ensures { IsTrue result ↔ (self.now.spots ≡ other.now.spots) }
    {
        self.slots.is_same(&other.slots)
    }

    /// Takes the memory for so many puts. The map stays, whatever the answer.
    pub fn reserve(&mut self, puts: u64) -> Result<(), AllocError>
        ensures spots { self.new.spots ≡ self.old.spots }
        ensures ok { OnOk result (puts ≤ self.new.spare) }
        ensures spare { self.old.spare ≤ self.new.spare }
        ensures enough { puts ≤ self.old.spare → IsOk result }
    {
        self.slots.reserve(puts as usize)
    }

    /// Gives the key this spot, and answers its former one. Where `spare` is above 0, or the key has a spot, it
    /// takes no memory. An `Err` changes no spot.
    pub fn put(&mut self, key: u64, spot: Spot) -> Result<Option<Spot>, AllocError>
        ensures former { IfOk result (λ former. former ≡ get self.old.spots key) }
        ensures ok { OnOk result (self.new.spots ≡ insert self.old.spots key spot) }
        ensures err { OnErr result (self.new.spots ≡ self.old.spots) }
        ensures succeeds { 0 < self.old.spare → IsOk result }
        ensures absent { OnErr result (get self.old.spots key ≡ None) }
        ensures spare { self.old.spare ≤ self.new.spare + 1 }
    {
        let former = self.slots.insert(key, spot)?;
        self.live_v2 = changed(self.live_v2, Version::V2, former, Some(spot));
        self.live_v3 = changed(self.live_v3, Version::V3, former, Some(spot));
        Ok(former)
    }

    /// Takes the key out, and answers its spot. Takes no memory.
    pub fn remove(&mut self, key: u64) -> Option<Spot>
        ensures former { result ≡ get self.old.spots key }
        ensures spots { self.new.spots ≡ remove self.old.spots key }
        ensures spare { self.old.spare ≤ self.new.spare }
    {
        let former = self.slots.remove(key);
        self.live_v2 = changed(self.live_v2, Version::V2, former, None);
        self.live_v3 = changed(self.live_v3, Version::V3, former, None);
        former
    }

    /// The padded lengths of all needles together, in bytes. Takes no memory.
    pub fn live_bytes(&self, version: Version) -> u64
        requires { live version self.now.spots < 2 ^ 64 }
        ensures { result ≡ live version self.now.spots }
    {
        match version {
            Version::V2 => self.live_v2,
            Version::V3 => self.live_v3,
        }
    }

    /// What a volume with this end holds besides its superblock and these needles, in bytes. Takes no memory.
    pub fn dead_bytes(&self, version: Version, end: u64) -> u64
        requires { 8 + live version self.now.spots ≤ end }
        ensures { result ≡ end - 8 - live version self.now.spots }
    {
        end - 8 - self.live_bytes(version)
    }
}

/// The padded length, 0 where there is no needle.
fn padded_of(version: Version, spot: Option<Spot>) -> u64
    ensures { result ≡ padded_in version spot }
{
    spot.map_or(0, |spot| padded_len(spot.size, version))
}

/// A sum of padded lengths after one spot has taken another's place.
fn changed(sum: u64, version: Version, former: Option<Spot>, spot: Option<Spot>) -> u64
    ensures { (result + padded_in version former) % 2 ^ 64 ≡ (sum + padded_in version spot) % 2 ^ 64 }
{
    let without = sum.wrapping_sub(padded_of(version, former));
    without.wrapping_add(padded_of(version, spot))
}
