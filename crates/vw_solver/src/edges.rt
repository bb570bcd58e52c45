ghost use Rattle.std.specs.Prelude.{◌≡◌, [], ◌∷◌, ◌++◌, take, OnOk, OnErr, MatchOption};

use std::alloc::Global;
use std::marker::Model;
use vw_bits::OutOfMemory;

/// The edges that leave a point: each with its target, and with the state that it carries there. Contracts
/// see them as a list.
#[derive(Debug, Drop)]
pub struct Edges<S> {
    items: Vec<(u32, S)>,
}

impl<S> Model for Edges<S> {
    ghost use Rattle.std.specs.Prelude.{List, ℕ};

    ghost Value = { List (ℕ × S) };

    ghost view = { λ edges. edges.items.items };
}

impl<S> Edges<S> {
    /// No edges. Takes no memory.
    pub fn new(alloc: Global) -> Edges<S>
        ensures { result ≡ [] }
    {
        Edges {
            items: Vec::new(alloc),
        }
    }

    /// Lends the edges in order. Takes no memory.
    pub fn as_slice(&self) -> &[(u32, S)]
        ensures { result.now ≡ self.now }
    {
        self.items.as_slice()
    }

    /// Takes the last edge out, and gives None exactly where there is none. Takes no memory.
    pub fn pop(&mut self) -> Option<(u32, S)>
        ensures { MatchOption result (self.old ≡ [] × self.new ≡ []) (λ edge. self.old ≡ self.new ++ edge ∷ []) }
    {
        self.items.pop()
    }
}

impl<S: Drop> Edges<S> {
    /// Appends an edge. Where memory is refused, the edges stay as they were and this one is dropped.
    pub fn push(&mut self, edge: (u32, S)) -> Result<(), OutOfMemory>
        ensures ok { OnOk result (self.new ≡ self.old ++ edge ∷ []) }
        ensures err { OnErr result (self.new ≡ self.old) }
    {
        self.items.push(edge)?;
        Ok(())
    }

    /// Keeps the first `len` edges, or all where there are fewer. Takes no memory.
    pub fn truncate(&mut self, len: usize)
        ensures { self.new ≡ take len self.old }
    {
        self.items.truncate(len);
    }
}
