//! The entries of the table of worst times, by key, while they are raised.

ghost use Rattle.std.specs.Prelude.{◌≡◌, ◌≢◌, ◌+◌, ◌<◌, ◌≤◌};

use super::limited::Limited;
use crate::key_hop::KeyHop;
use crate::latest::Latest;
use crate::scan::steps::end::End;
use crate::worst::Worst;
use base_words::Location;
use std::alloc::{AllocError, Global};

/// How many entries there are when room for as many as there are keys is asked for at once.
const MANY: usize = 65_536;

/// An entry of the table for each key at which something is kept, in the order in which the keys
/// were first led to, and where its time comes from.
#[derive(Drop)]
pub struct Entries {
    table: Limited,
    /// Where each entry's time comes from. The start's comes from its own key, which no hop does.
    origins: Vec<KeyHop>,
    /// The start angle: an entry's clock is its time from there on.
    angle: u64,
    /// The index of the entry that was added or raised last: the key that is looked for next is
    /// mostly that entry's, or that of the one before it.
    near: usize,
    /// The greatest key that has an entry: most keys that have none yet are beyond it.
    greatest: u32,
}

impl Entries {
    ghost use Rattle.std.specs.Prelude.{ℕ, true, [], ◌∷◌, length, slice_get, Some, None};
    ghost use Rattle.std.specs.Prelude.{option_map, IfOk, IfSome, OnOk, OnErr, nat_eq};
    ghost use Rattle.std.specs.Map.{keys_of, values_of};
    ghost use Rattle.indexmap.specs.IndexMap.{get};
    ghost use Rattle.bound_scan.specs.EndOf.{latest_in};
    ghost use Rattle.bound_scan.specs.InEntries.{AreKept, HasFirst, IsEntryOf, Keeps, kept_of};
    ghost use Rattle.bound_scan.specs.InEntries.{keys_in, pairs_of};

    /// The start's alone, of so many keys: its key keeps the moment of the start, at this angle.
    pub fn new(
        alloc: Global,
        keys: usize,
        start_key: u32,
        start: Location,
        angle: u64,
    ) -> Result<Entries, AllocError>
        requires there { start_key < keys }
        requires on_drum { angle < 50 }
        ensures kept { IfOk result AreKept }
        ensures start { IfOk result (λ entries. kept_of entries start_key
            ≡ Some (record { clock = angle; origin = None })) }
        ensures others { IfOk result (λ entries. (other : ℕ) → other ≢ start_key
            → kept_of entries other ≡ None) }
        ensures entry { IfOk result (λ entries.
            HasFirst start_key start angle (pairs_of entries)) }
        ensures angle { IfOk result (λ entries. entries.angle ≡ angle) }
        ensures keys { IfOk result (λ entries. keys_in entries ≡ keys) }
    {
        let mut origins = Vec::new(alloc);
        let entry = Worst {
            place: start,
            angle: angle as u8,
            counts: 0,
            time: 0,
        };
        let table = Limited::new(alloc, keys, start_key, entry)?;
        origins.push(KeyHop {
            key: start_key,
            number: 0,
        })?;
        Ok(Entries {
            table,
            origins,
            angle,
            near: 0,
            greatest: start_key,
        })
    }

    /// The entries: one of each key at which something is kept.
    fn table(&self) -> &[Worst]
        ensures { result.now ≡ values_of (pairs_of self.now) }
    {
        self.table.entries()
    }

    /// The entries, as a list that no map goes along with. Where their times come from is given up
    /// first.
    pub fn into_table(self, alloc: Global) -> Result<Vec<Worst>, AllocError>
        ensures { IfOk result (λ table. table.items ≡ values_of (pairs_of self)) }
    {
        drop(self.origins);
        Vec::from_slice(alloc, self.table.entries())
    }

    /// The start angle, 0 to 49.
    pub fn angle(&self) -> u64
        ensures { result ≡ self.now.angle }
    {
        self.angle
    }

    /// Whether the entry of this index is a key's.
    #[inline(always)]
    fn is_at(&self, key: u32, index: usize) -> bool
        ensures key { result ≡ true → slice_get (keys_of (pairs_of self.now)) index ≡ Some key }
        ensures inside { result ≡ true → index < length (pairs_of self.now) }
    {
        match self.table.keys().get(index) {
            Some(one) => *one == key,
            None => false,
        }
    }

    /// The index of a key's entry, which is looked for near this one first; `None` where nothing is
    /// kept.
    #[inline(always)]
    fn index_of(&self, key: u32, near: usize) -> Option<usize>
        requires { AreKept self.now }
        ensures found { IfSome result (IsEntryOf key (pairs_of self.now)) }
        ensures inside { IfSome result (λ index. index < length (pairs_of self.now)) }
        ensures none { result ≡ None → get nat_eq self.now.table.map key ≡ None }
    {
        if key > self.greatest {
            return None;
        }
        if self.is_at(key, near) {
            return Some(near);
        }
        if near > 0 && self.is_at(key, near - 1) {
            return Some(near - 1);
        }
        self.table.index_of(key)
    }

    /// What the entry of this index keeps, which is a key's.
    #[inline(always)]
    fn kept_by(&self, key: u32, index: usize) -> Latest
        requires kept { AreKept self.now }
        requires there { IsEntryOf key (pairs_of self.now) index }
        requires inside { index < length (pairs_of self.now) }
        ensures { kept_of self.now key ≡ Some result }
    {
        let origin = self.origins[index];
        Latest {
            clock: self.angle + self.table()[index].time,
            origin: if origin.key == key {
                None
            } else {
                Some(origin)
            },
        }
    }

    /// What is kept at a key, with the index of its entry, which is looked for near this one first;
    /// `None` where nothing is.
    pub fn kept_at(&self, key: u32, near: usize) -> Option<(usize, Latest)>
        requires { AreKept self.now }
        ensures { option_map (λ kept. kept.1) result ≡ kept_of self.now key }
    {
        let Some(index) = self.index_of(key, near) else {
            return None;
        };
        Some((index, self.kept_by(key, index)))
    }

    /// The clock that a key keeps; `None` where nothing is.
    #[inline(always)]
    pub fn clock_at(&self, key: u32) -> Option<u64>
        requires { AreKept self.now }
        ensures { option_map (λ kept. kept.clock) (kept_of self.now key) ≡ result }
    {
        let Some(index) = self.index_of(key, self.near) else {
            return None;
        };
        Some(self.kept_by(key, index).clock)
    }

    /// Keeps an end of a hop that goes on at a key, at this location and with the counts of this
    /// number, where it is later than what is kept there.
    #[inline(always)]
    pub fn keep(
        &mut self,
        key: u32,
        location: Location,
        counts: u32,
        end: &End,
    ) -> Result<(), AllocError>
        requires kept { AreKept self.old }
        requires there { key < keys_in self.old }
        requires onward { end.now.origin.key < key }
        requires after { self.old.angle ≤ end.now.clock }
        ensures keeps { OnOk result (Keeps self.old key location counts (latest_in end.now)
            self.new) }
        ensures same { OnErr result (pairs_of self.new ≡ pairs_of self.old) }
        ensures keys { keys_in self.new ≡ keys_in self.old }
    {
        match self.index_of(key, self.near) {
            Some(index) => {
                self.raise(key, index, end);
                Ok(())
            }
            None => self.add(key, location, counts, end),
        }
    }

    /// Raises the entry of a key, where the end is later.
    #[inline(always)]
    fn raise(&mut self, key: u32, index: usize, end: &End)
        requires kept { AreKept self.old }
        requires there { IsEntryOf key (pairs_of self.old) index }
        requires inside { index < length (pairs_of self.old) }
        requires onward { end.now.origin.key < key }
        requires after { self.old.angle ≤ end.now.clock }
        ensures keeps { (location : Location) (counts : ℕ)
            → Keeps self.old key location counts (latest_in end.now) self.new }
        ensures keys { keys_in self.new ≡ keys_in self.old }
    {
        self.near = index;
        let was = self.table()[index];
        let time = end.clock() - self.angle;
        if time <= was.time {
            return;
        }
        let entry = Worst {
            place: was.place,
            angle: end.angle(),
            counts: was.counts,
            time,
        };
        self.table.put(index, entry);
        self.origins[index] = end.origin();
    }

    /// Adds the entry of a key at which nothing is kept.
    #[inline(always)]
    fn add(
        &mut self,
        key: u32,
        location: Location,
        counts: u32,
        end: &End,
    ) -> Result<(), AllocError>
        requires kept { AreKept self.old }
        requires there { key < keys_in self.old }
        requires none { get nat_eq self.old.table.map key ≡ None }
        requires onward { end.now.origin.key < key }
        requires after { self.old.angle ≤ end.now.clock }
        ensures keeps { OnOk result (Keeps self.old key location counts (latest_in end.now)
            self.new) }
        ensures same { OnErr result (pairs_of self.new ≡ pairs_of self.old) }
        ensures keys { keys_in self.new ≡ keys_in self.old }
    {
        let entry = Worst {
            place: location,
            angle: end.angle(),
            counts,
            time: end.clock() - self.angle,
        };
        self.make_room(key)?;
        self.origins.push(end.origin())?;
        self.table.add(key, entry)?;
        Ok(())
    }

    /// Makes ready for the entry of a key: asks for room for all keys once there are many entries,
    /// and has the next search begin near the new entry.
    fn make_room(&mut self, key: u32) -> Result<(), AllocError>
        ensures pairs { pairs_of self.new ≡ pairs_of self.old }
        ensures origins { self.new.origins.items ≡ self.old.origins.items }
        ensures angle { self.new.angle ≡ self.old.angle }
        ensures grown { self.old.greatest ≤ self.new.greatest }
        ensures within { key ≤ self.new.greatest }
        ensures keys { keys_in self.new ≡ keys_in self.old }
    {
        if key > self.greatest {
            self.greatest = key;
        }
        self.near = self.table.len();
        if self.near == MANY {
            self.table.reserve()?;
            self.origins.reserve(self.table.most())?;
        }
        Ok(())
    }
}
