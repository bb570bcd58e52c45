ghost use Rattle.std.specs.Prelude.{◌≡◌, ◌<◌, ◌^◌, [], ◌∷◌, ◌++◌, take, length, IsTrue, OnOk, OnErr, ◌↔◌};
ghost use Rattle.std.specs.Slice.Iter.{iter_rest};
ghost use Rattle.std.specs.Iterator.Adapters.{IterYieldsInOrder, IterYieldsInReverse};

use crate::OutOfMemory;
use std::alloc::Global;
use std::marker::Model;
use std::slice::Iter;

/// A growable list that contracts see as the list of its items.
#[derive(Debug, Drop)]
pub struct List<T> {
    items: Vec<T>,
}

impl<T> Model for List<T> {
    ghost use Rattle.std.specs.Prelude.{List};
    ghost use Rattle.std.specs.Coded.{coded_list};

    ghost Value = { List T };

    ghost coded = { coded_list T.code };

    ghost view = { λ list. list.items.items };
}

impl<T> List<T> {
    /// An empty list, whose items will come from `alloc`. Takes no memory.
    pub fn new(alloc: Global) -> List<T>
        ensures { result ≡ [] }
    {
        List {
            items: Vec::new(alloc),
        }
    }

    /// The list of a vector's items. Takes no memory.
    pub fn from_vec(items: Vec<T>) -> List<T>
        ensures { result ≡ items.items }
    {
        List { items }
    }

    /// Lends the items in order.
    pub fn as_slice(&self) -> &[T]
        ensures { result.now ≡ self.now }
    {
        self.items.as_slice()
    }

    /// How many items there are.
    pub fn len(&self) -> usize
        ensures { result ≡ length self.now }
    {
        self.items.len()
    }

    /// Whether there is no item.
    pub fn is_empty(&self) -> bool
        ensures { IsTrue result ↔ (length self.now ≡ 0) }
    {
        self.items.is_empty()
    }

    /// Lends the items one by one, in order, or from the back.
    pub fn iter(&self) -> Iter<'_, T>
        ensures rest { iter_rest result ≡ self.now }
        ensures len { length (iter_rest result) ≡ length self.now }
        ensures bound { length (iter_rest result) < 2 ^ 64 }
        ensures runs { IterYieldsInOrder T }
        ensures runs_back { IterYieldsInReverse T }
    {
        self.items.as_slice().iter()
    }
}

impl<T: Drop> List<T> {
    /// Appends an item. Where memory is refused, the list stays as it was and the item is dropped.
    pub fn push(&mut self, item: T) -> Result<(), OutOfMemory>
        ensures ok { OnOk result (self.new ≡ self.old ++ item ∷ []) }
        ensures err { OnErr result (self.new ≡ self.old) }
    {
        self.items.push(item)?;
        Ok(())
    }

    /// Keeps the first `len` items, or all where there are fewer. Takes no memory.
    pub fn truncate(&mut self, len: usize)
        ensures { self.new ≡ take len self.old }
    {
        self.items.truncate(len);
    }
}
