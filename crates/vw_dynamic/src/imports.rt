ghost use Rattle.std.specs.Prelude.{◌≡◌, ◌+◌, ◌<◌, ◌^◌, [], length, Some, IfOk, OnOk, slice_get};
ghost use Rattle.std.specs.List.{position};
ghost use Rattle.std.specs.Str.{bytes_eq};
ghost use Rattle.vw_dynamic.specs.Names.{with_name};

use indexmap::IndexSet;
use std::alloc::Global;
use std::marker::Model;
use vw_bits::OutOfMemory;

/// The names of a file's imports, each once, numbered from 0 in the order of the first relocations on
/// them. Contracts see the list of the names.
#[derive(Debug, Drop)]
pub struct Imports {
    names: IndexSet<Vec<u8>>,
}

impl Model for Imports {
    ghost use Rattle.std.specs.Prelude.{List, ℕ, map, length, ◌<◌, ◌^◌};
    ghost use Rattle.std.specs.Coded.{coded_list, coded_ℕ};

    ghost Value = { List (List ℕ) };

    ghost coded = { coded_list (coded_list coded_ℕ) };

    ghost view = { λ imports. map (λ name. name.items) imports.names.keys };

    ghost invariant = { λ imports. length imports.names.keys < 2 ^ 32 };
}

impl Imports {
    // No name.
    pub(crate) fn new(alloc: Global) -> Imports
        ensures { result ≡ [] }
    {
        Imports {
            names: IndexSet::new(alloc),
        }
    }

    // Adds a name, if it is new, and answers its number.
    pub(crate) fn add(&mut self, alloc: Global, name: &[u8]) -> Result<u32, OutOfMemory>
        requires { length self.old + 1 < 2 ^ 32 }
        ensures names { OnOk result (self.new ≡ with_name self.old name.now) }
        ensures number { IfOk result (λ number. position (bytes_eq name.now) self.new ≡ Some number) }
    {
        if let Some(number) = self.names.get_index_of(name) {
            return Ok(number as u32);
        }
        let number = self.names.len() as u32;
        self.names.insert(Vec::from_slice(alloc, name)?)?;
        Ok(number)
    }

    /// How many names there are. Takes no memory.
    pub fn len(&self) -> u32
        ensures { result ≡ length self.now }
    {
        self.names.len() as u32
    }

    /// The name with a number below `len`. Takes no memory.
    pub fn name(&self, number: u32) -> &[u8]
        requires { number < length self.now }
        ensures { slice_get self.now number ≡ Some result.now }
    {
        &self.names.as_slice()[number as usize]
    }
}
