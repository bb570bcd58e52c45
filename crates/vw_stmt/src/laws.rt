//! Facts about the meaning of statements, each the contract of a function that does nothing.

ghost use Rattle.std.specs.Prelude.{ℕ, List};
ghost use Rattle.std.specs.List.{AllByRecursion};
ghost use Rattle.vw_stmt.specs.declared.statement.Stmt.{Stmt};
ghost use Rattle.vw_stmt.specs.Environment.{Environment, Pick};
ghost use Rattle.vw_stmt.specs.Lifted.{IsLifted};
ghost use Rattle.vw_stmt.specs.Laws.{HoldsWords, AddsItsReads, AddsItsWrites, LeavesMemory, KeepsWords};

/// What a statement reads and writes, and how many bytes, whatever memory is and whatever the statement leaves
/// open. Memory stays where nothing is written.
pub fn accesses_are_stated()
    ensures reads { (loads : (ℕ → ℕ) → ℕ → ℕ → ℕ) (stores : (ℕ → ℕ) → ℕ → ℕ → ℕ → ℕ → ℕ) (next : ℕ) (stmt : Stmt) (pick : Pick) (e : Environment)
        → AddsItsReads loads stores next stmt pick e }
    ensures writes { (loads : (ℕ → ℕ) → ℕ → ℕ → ℕ) (stores : (ℕ → ℕ) → ℕ → ℕ → ℕ → ℕ → ℕ) (next : ℕ) (stmt : Stmt) (pick : Pick) (e : Environment)
        → AddsItsWrites loads stores next stmt pick e }
    ensures memory { (loads : (ℕ → ℕ) → ℕ → ℕ → ℕ) (stores : (ℕ → ℕ) → ℕ → ℕ → ℕ → ℕ → ℕ) (next : ℕ) (stmt : Stmt) (pick : Pick) (e : Environment)
        → LeavesMemory loads stores next stmt pick e }
{}

/// Statements of an instruction keep registers and tmp words of 64 bits and memory bytes, where loads from bytes give
/// words and stores keep bytes.
pub fn words_stay()
    ensures { (loads : (ℕ → ℕ) → ℕ → ℕ → ℕ) (stores : (ℕ → ℕ) → ℕ → ℕ → ℕ → ℕ → ℕ) (next : ℕ) (stmts : List Stmt)
        → HoldsWords loads stores → AllByRecursion IsLifted stmts → KeepsWords loads stores next stmts }
{}
