ghost use Rattle.std.specs.Prelude.{◌≡◌, ◌++◌, ◌<◌, ◌^◌, [], ◌∷◌, OnErr, OnOk, is_some, position};
ghost use Rattle.std.specs.Prelude.{if◌then◌else◌, length};
ghost use Rattle.std.specs.List.{list_any, IsDistinct};
ghost use Rattle.std.specs.HashMap.{get};
ghost use Rattle.std.proofs.Props.{props};

use std::alloc::{AllocError, Global};
use std::collections::HashMap;
use std::fmt::{self, Debug, Formatter, Write};
use std::hash::Hash;

/// Values without repeats, each with its index in the order in which they were added, from 0.
#[derive(Drop)]
pub struct Distinct<K: Copy + Eq + Hash> {
    keys: Vec<K>,
    /// The index of each.
    indices: HashMap<K, usize>,
    ghost agree: { (key : K) → get K.eq indices key ≡ position (K.eq key) keys.items },
    ghost apart: { IsDistinct K.eq keys.items } by { Prim.hlevel props },
}

impl<K: Copy + Eq + Hash> Distinct<K> {
    /// None yet.
    pub fn none(alloc: Global) -> Distinct<K>
        ensures { result.keys.items ≡ [] }
    {
        Distinct {
            keys: Vec::new(alloc),
            indices: HashMap::new(alloc),
        }
    }

    /// Adds a value, unless it is there.
    ///
    /// # Errors
    ///
    /// [`AllocError`] where there is no memory.
    pub fn add(&mut self, key: K) -> Result<(), AllocError>
        ensures keys { OnOk result (self.new.keys.items
            ≡ (if list_any (K.eq key) self.old.keys.items then self.old.keys.items
            else self.old.keys.items ++ key ∷ [])) }
        ensures kept { OnErr result (self.new.keys.items ≡ self.old.keys.items) }
    {
        if self.indices.contains_key(&key) {
            return Ok(());
        }
        let index = self.keys.len();
        self.keys.push(key)?;
        if self.indices.insert(key, index).is_err() {
            self.keys.pop();
            return Err(AllocError);
        }
        Ok(())
    }

    /// All of them, in order.
    pub fn as_slice(&self) -> &[K]
        ensures keys { result.now ≡ self.now.keys.items }
        ensures apart { IsDistinct K.eq self.now.keys.items }
    {
        &self.keys
    }

    /// How many there are.
    pub fn len(&self) -> usize
        ensures len { result ≡ length self.now.keys.items }
        ensures small { length self.now.keys.items < 2 ^ 63 }
    {
        self.keys.len()
    }

    /// The index of a value; `None` for one that isn't there.
    pub fn index_of(&self, key: K) -> Option<usize>
        ensures index { result ≡ position (K.eq key) self.now.keys.items }
        ensures found { is_some result ≡ list_any (K.eq key) self.now.keys.items }
    {
        self.indices.get(&key).copied()
    }

    /// Whether a value is there.
    pub fn contains(&self, key: K) -> bool
        ensures { result ≡ list_any (K.eq key) self.now.keys.items }
    {
        self.index_of(key).is_some()
    }
}

impl<K: Copy + Eq + Hash + Debug> Debug for Distinct<K> {
    fn fmt<W: Write>(&self, formatter: &mut Formatter<W>) -> fmt::Result {
        self.keys.fmt(formatter)
    }
}
