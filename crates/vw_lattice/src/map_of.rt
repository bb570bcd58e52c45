ghost use Rattle.std.specs.Prelude.{◌≡◌, ◌≢◌, ◌<◌, ◌≤◌, ◌≤ℤ◌, ◌<ℤ◌, ◌⊎◌, ℤ, [], length, IsTrue, ◌↔◌, Some, None, MatchOption, IfOk, OnOk, OnErr, slice_get};
ghost use Rattle.std.specs.Option.{option_copied};
ghost use Rattle.vw_lattice.specs.Entries.{IsAscending, value_at, IsBelowAt, map_below, IsValidMap, map_rank, HasKey, with_value};
ghost use Rattle.vw_lattice.specs.Order.{IsJoin, IsLeast, TellsChange};
ghost use Rattle.vw_lattice.specs.EntryOrder.{value_laws, map_reflexive, map_transitive, map_antisymmetric, map_ranks};

use crate::Lattice;
use crate::cuts::cut_keys;
use crate::joins::join_entries;
use crate::places::find;
use std::alloc::Global;
use std::marker::Model;
use vw_bits::OutOfMemory;

/// A map from integers to values of a lattice, which contracts see as the list of its keys and values
/// in ascending order of the keys. An absent key stands for a value above every other.
#[derive(Debug, Drop)]
pub struct MapOf<V> {
    entries: Vec<(i64, V)>,
}

impl<V> Model for MapOf<V> {
    ghost use Rattle.std.specs.Prelude.{List, ℤ};
    ghost use Rattle.std.specs.Coded.{coded_list, coded_ℤ, coded×};
    ghost use Rattle.vw_lattice.specs.Entries.{IsAscending};

    ghost Value = { List (ℤ × V) };

    ghost coded = { coded_list (coded× coded_ℤ V.code) };

    ghost view = { λ map. map.entries.items };

    ghost invariant = { λ map. IsAscending map.entries.items };
}

impl<V> MapOf<V> {
    /// A map with no keys, whose memory will come from `alloc`. Takes no memory.
    pub fn new(alloc: Global) -> MapOf<V>
        ensures { result ≡ [] }
    {
        MapOf {
            entries: Vec::new(alloc),
        }
    }

    /// Lends the value at a key, and None exactly where the key is absent.
    pub fn get(&self, key: i64) -> Option<&V>
        ensures { option_copied result ≡ value_at self.now key }
    {
        let entries = self.entries.as_slice();
        match find(entries, key) {
            Ok(at) => Some(&entries[at].1),
            Err(_) => None,
        }
    }

    /// Lends the key number `i` in ascending order, counted from 0, and its value. None exactly where
    /// there are at most `i` keys. Takes no memory.
    pub fn nth(&self, i: usize) -> Option<(i64, &V)>
        ensures entry { MatchOption result (length self.now ≤ i) (λ entry. slice_get self.now i ≡ Some (entry.0, entry.1.now)) }
        ensures ascending { IsAscending self.now }
    {
        let entries = self.entries.as_slice();
        if i < entries.len() {
            let entry = &entries[i];
            Some((entry.0, &entry.1))
        } else {
            None
        }
    }
}

impl<V> MapOf<V> {
    /// The number of keys.
    pub fn len(&self) -> usize
        ensures { result ≡ length self.now }
    {
        self.entries.len()
    }

    /// Whether there are no keys.
    pub fn is_empty(&self) -> bool
        ensures { IsTrue result ↔ (length self.now ≡ 0) }
    {
        self.entries.is_empty()
    }
}

impl<V: Drop> MapOf<V> {
    /// Sets the value at key number `i` in ascending order, counted from 0. Takes no memory.
    pub fn set_nth(&mut self, i: usize, value: V)
        requires { i < length self.old }
        ensures { self.new ≡ with_value self.old i value }
    {
        self.entries[i].1 = value;
    }

    /// Sets the value at a key. Where memory is refused, the map stays as it was.
    pub fn put(&mut self, key: i64, value: V) -> Result<(), OutOfMemory>
        ensures here { OnOk result (value_at self.new key ≡ Some value) }
        ensures others { OnOk result ((other : ℤ) → other ≢ key → value_at self.new other ≡ value_at self.old other) }
        ensures err { OnErr result (self.new ≡ self.old) }
        ensures ascending { IsAscending self.new }
    {
        match find(self.entries.as_slice(), key) {
            Ok(at) => self.entries[at] = (key, value),
            Err(at) => self.entries.insert(at, (key, value))?,
        }
        Ok(())
    }

    /// Takes out a key and its value, where the map has the key. Takes no memory.
    pub fn cut(&mut self, key: i64)
        ensures here { value_at self.new key ≡ None }
        ensures others { (other : ℤ) → other ≢ key → value_at self.new other ≡ value_at self.old other }
        ensures ascending { IsAscending self.new }
    {
        match find(self.entries.as_slice(), key) {
            Ok(at) => {
                let _taken = self.entries.remove(at);
            }
            Err(_) => {}
        }
    }

    /// Takes out the keys from `low` to `high` - 1 and their values. Takes no memory.
    pub fn cut_range(&mut self, low: i64, high: i64)
        ensures inside { (key : ℤ) → low ≤ℤ key → key <ℤ high → value_at self.new key ≡ None }
        ensures outside { (key : ℤ) → (key <ℤ low) ⊎ (high ≤ℤ key)
            → value_at self.new key ≡ value_at self.old key }
        ensures ascending { IsAscending self.new }
    {
        cut_keys(&mut self.entries, low, high);
    }
}

impl<V: Lattice> MapOf<V> {
    /// Whether the key is present, with a value below the given one or equal to it.
    fn is_below_at(&self, key: i64, greater: &V) -> bool
        ensures { IsTrue result ↔ IsBelowAt V.below self.now key greater.now }
    {
        match self.get(key) {
            Some(lower) => lower.leq(greater),
            None => false,
        }
    }
}

impl<V: Lattice> Lattice for MapOf<V> {
    type Bounds = V::Bounds;

    ghost valid = { λ bounds map. IsValidMap (V.valid bounds) map };

    ghost well_formed = { IsValidMap V.well_formed };

    ghost below = { map_below V.below };

    ghost rank = { λ bounds map. map_rank (V.rank bounds) map };

    fn leq(&self, other: &Self) -> bool {
        for entry in &other.entries {
            if !self.is_below_at(entry.0, &entry.1) {
                return false;
            }
        }
        true
    }

    fn join(&mut self, other: &Self, bounds: &V::Bounds) -> Result<bool, OutOfMemory>
        ensures kept { IsValidMap (V.valid bounds.now) self.old → IsValidMap (V.valid bounds.now) self.new }
        ensures join { OnOk result (IsValidMap (V.valid bounds.now) self.old → IsValidMap (V.valid bounds.now) other.now
            → IsJoin (map_below V.below) (IsValidMap (V.valid bounds.now)) self.old other.now self.new) }
        ensures changed { IfOk result (λ changed. TellsChange changed self.old self.new) }
        ensures formed { OnOk result (IsValidMap V.well_formed self.old → IsValidMap V.well_formed other.now
            → IsValidMap V.well_formed self.new) }
        ensures least { OnOk result (IsValidMap V.well_formed self.old → IsValidMap V.well_formed other.now
            → IsLeast (map_below V.below) (IsValidMap (V.valid bounds.now)) self.old other.now self.new) }
        ensures keys { OnOk result ((key : ℤ) → HasKey self.new key ↔ (HasKey self.old key × HasKey other.now key)) }
    {
        join_entries(&mut self.entries, other.entries.as_slice(), bounds)
    }

    fn copy(&self) -> Result<Self, OutOfMemory> {
        let alloc = *self.entries.allocator();
        let mut entries = Vec::with_capacity(alloc, self.entries.len())?;
        for entry in &self.entries {
            let value = entry.1.copy()?;
            entries.push((entry.0, value))?;
        }
        Ok(MapOf { entries })
    }

    ghost reflexive = { λ b x v. map_reflexive (V.valid b) V.below (V.rank b) (value_laws (V.valid b) V.below (V.rank b) (V.reflexive b) (V.transitive b) (V.rank_falls b) (V.rank_strict b)) x v };

    ghost transitive = { λ b x y z u v w f g. map_transitive (V.valid b) V.below (V.rank b) (value_laws (V.valid b) V.below (V.rank b) (V.reflexive b) (V.transitive b) (V.rank_falls b) (V.rank_strict b)) x y z u v w f g };

    ghost antisymmetric = { λ b x y v w f g. map_antisymmetric (V.valid b) V.below (V.rank b) (value_laws (V.valid b) V.below (V.rank b) (V.reflexive b) (V.transitive b) (V.rank_falls b) (V.rank_strict b)) x y v w f g };

    ghost rank_falls = { λ b x y v w f. (map_ranks (V.valid b) V.below (V.rank b) (value_laws (V.valid b) V.below (V.rank b) (V.reflexive b) (V.transitive b) (V.rank_falls b) (V.rank_strict b)) x y v w f).0 };

    ghost rank_strict = { λ b x y v w f. (map_ranks (V.valid b) V.below (V.rank b) (value_laws (V.valid b) V.below (V.rank b) (V.reflexive b) (V.transitive b) (V.rank_falls b) (V.rank_strict b)) x y v w f).1 };
}
