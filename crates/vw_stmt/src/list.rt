ghost use Rattle.std.specs.Prelude.{◌≡◌, ◌<◌, ◌≤◌, [], ◌∷◌, ◌++◌, length};

use crate::Stmt;
use smallvec::SmallVec;
use std::alloc::Global;
use std::marker::Model;

/// The statements of one instruction in order, at most eight, which stand in the value itself and never in memory
/// of an allocator. Contracts see their list.
#[derive(Debug, Drop)]
pub struct Stmts {
    items: SmallVec<Stmt, 8>,
}

impl Model for Stmts {
    ghost use Rattle.std.specs.Prelude.{List, length, ◌≡◌, ◌≤◌};
    ghost use Rattle.vw_stmt.specs.declared.statement.Stmt.{Stmt};

    ghost Value = { List Stmt };

    ghost view = { λ stmts. stmts.items.items };

    ghost invariant = { λ stmts. (length stmts.items.items ≤ 8) × (stmts.items.capacity ≡ 8) };
}

impl Stmts {
    /// No statement. Takes no memory, now or later: `alloc` is kept alone.
    pub fn new(alloc: Global) -> Stmts
        ensures { result ≡ [] }
    {
        Stmts {
            items: SmallVec::new(alloc),
        }
    }

    /// Adds a statement at the end of fewer than eight. Takes no memory.
    pub fn add(&mut self, stmt: Stmt)
        requires { length self.old < 8 }
        ensures { self.new ≡ self.old ++ stmt ∷ [] }
    {
        self.items.push_reserved(stmt);
    }

    /// Lends the statements in order, of which there are at most eight. Takes no memory.
    pub fn as_slice(&self) -> &[Stmt]
        ensures items { result.now ≡ self.now }
        ensures few { length self.now ≤ 8 }
    {
        self.items.as_slice()
    }
}
