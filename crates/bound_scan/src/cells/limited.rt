//! The map in which the table grows.

ghost use Rattle.std.specs.Prelude.{◌≡◌, ◌<◌, ◌≤◌, length};
ghost use Rattle.bound_scan.specs.Below.{AreBelow};

use super::key_hasher::KeyHasher;
use crate::worst::Worst;
use indexmap::IndexMap;
use std::alloc::{AllocError, Global};
use std::hash::BuildHasherDefault;

/// Entries of the table of worst times by key, in the order in which they were added. There are
/// never more of them than keys, at no moment: an entry is added for a key below their number which
/// has none, and none is ever taken away.
#[derive(Drop)]
pub struct Limited {
    map: IndexMap<u32, Worst, BuildHasherDefault<KeyHasher>>,
    /// How many keys there are.
    keys: usize,
    ghost below: { AreBelow map.entries keys },
    ghost limit: { length map.entries ≤ keys },
}

impl Limited {
    ghost use Rattle.std.specs.Prelude.{None, [], ◌∷◌, ◌++◌, IfOk, IfSome, OnOk, OnErr, nat_eq};
    ghost use Rattle.std.specs.Map.{keys_of, values_of};
    ghost use Rattle.indexmap.specs.IndexMap.{get};
    ghost use Rattle.indexmap.specs.Layout.{set_value_at};
    ghost use Rattle.bound_scan.specs.InLimited.{IsFound, AreApart};

    /// The entry of one of so many keys, alone.
    pub fn new(alloc: Global, keys: usize, key: u32, entry: Worst) -> Result<Limited, AllocError>
        requires { key < keys }
        ensures entries { IfOk result (λ limited. limited.map.entries ≡ (key, entry) ∷ []) }
        ensures apart { IfOk result AreApart }
        ensures keys { IfOk result (λ limited. limited.keys ≡ keys) }
    {
        let mut map = IndexMap::with_hasher(alloc, BuildHasherDefault::new());
        map.insert(key, entry)?;
        Ok(Limited { map, keys })
    }

    /// How many entries there are.
    pub fn len(&self) -> usize
        ensures { result ≡ length self.now.map.entries }
    {
        self.map.len()
    }

    /// How many keys there are, which is how many entries there may be.
    pub fn most(&self) -> usize
        ensures { result ≡ self.now.keys }
    {
        self.keys
    }

    /// The keys that have one.
    #[inline(always)]
    pub fn keys(&self) -> &[u32]
        ensures { result.now ≡ keys_of self.now.map.entries }
    {
        self.map.keys().as_slice()
    }

    /// The entries.
    #[inline(always)]
    pub fn entries(&self) -> &[Worst]
        ensures { result.now ≡ values_of self.now.map.entries }
    {
        self.map.values().as_slice()
    }

    /// The index of a key's entry.
    #[inline(always)]
    pub fn index_of(&self, key: u32) -> Option<usize>
        ensures { IsFound self.now key result }
    {
        self.map.get_index_of(&key)
    }

    /// Asks for room for an entry of each key.
    pub fn reserve(&mut self) -> Result<(), AllocError>
        ensures entries { self.new.map.entries ≡ self.old.map.entries }
        ensures keys { self.new.keys ≡ self.old.keys }
    {
        self.map.reserve(self.keys)
    }

    /// Adds the entry of a key that has none.
    #[inline(always)]
    pub fn add(&mut self, key: u32, entry: Worst) -> Result<(), AllocError>
        requires there { key < self.old.keys }
        requires none { get nat_eq self.old.map key ≡ None }
        ensures added { OnOk result
            (self.new.map.entries ≡ self.old.map.entries ++ (key, entry) ∷ []) }
        ensures apart { OnOk result (AreApart self.new) }
        ensures same { OnErr result (self.new.map.entries ≡ self.old.map.entries) }
        ensures keys { self.new.keys ≡ self.old.keys }
    {
        self.map.insert(key, entry)?;
        Ok(())
    }

    /// Puts an entry in the place of that of this index.
    #[inline(always)]
    pub fn put(&mut self, index: usize, entry: Worst)
        requires { index < length self.old.map.entries }
        ensures entries { self.new.map.entries ≡ set_value_at self.old.map.entries index entry }
        ensures keys { self.new.keys ≡ self.old.keys }
    {
        let Some(one) = self.map.get_index_mut(index) else {
            unreachable!()
        };
        *one = entry;
    }
}
