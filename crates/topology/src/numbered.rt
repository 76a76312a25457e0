ghost use Rattle.std.specs.Prelude.{◌≡◌, OnOk, OnErr};
ghost use Rattle.std.specs.Option.{option_copied};
ghost use Rattle.std.specs.FinMap.{get, empty, entries, insert, len, values};

use std::alloc::{AllocError, Global};
use std::collections::BTreeMap;
use std::collections::btree_map::{Iter, Values};
use std::marker::Model;

/// Values by their numbers.
#[derive(Debug, Drop)]
pub struct Numbered<V> {
    map: BTreeMap<u32, V>,
}

impl<V> Model for Numbered<V> {
    ghost use Rattle.std.specs.FinMap.{FinMap, from_entries, code};
    ghost use Rattle.std.specs.Ordering.{nat_cmp};
    ghost use Rattle.std.specs.Coded.{coded_ℕ};

    ghost Value = { FinMap nat_cmp V };

    ghost coded = { code coded_ℕ V.code };

    ghost view = { λ table. from_entries table.map.entries };
}

impl<V> Numbered<V> {
    /// Of no number. Takes no memory.
    pub fn new(alloc: Global) -> Numbered<V>
        ensures { result ≡ empty }
    {
        Numbered {
            map: BTreeMap::new(alloc),
        }
    }

    /// The value of a number, if it has one. Takes no memory.
    pub fn get(&self, number: u32) -> Option<&V>
        ensures { option_copied result ≡ get self.now number }
    {
        self.map.get(&number)
    }

    /// How many numbers have a value. Takes no memory.
    pub fn len(&self) -> usize
        ensures { result ≡ len self.now }
    {
        self.map.len()
    }

    /// The values, by rising number. Takes no memory.
    pub fn values(&self) -> Values<'_, u32, V>
        ensures { result ≡ values self.now }
    {
        self.map.values()
    }

    /// The numbers, rising, each with its value. Takes no memory.
    pub fn entries(&self) -> Iter<'_, u32, V>
        ensures { result ≡ entries self.now }
    {
        self.map.iter()
    }

    /// Gives a number this value, in place of one that it has. An `Err` changes nothing.
    pub fn insert(&mut self, number: u32, value: V) -> Result<(), AllocError>
    where
        V: Drop,
        ensures ok { OnOk result (self.new ≡ insert self.old number value) }
        ensures err { OnErr result (self.new ≡ self.old) }
    {
        self.map.insert(number, value)?;
        Ok(())
    }
}
