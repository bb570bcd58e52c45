ghost use Rattle.std.specs.Prelude.{◌≡◌, ◌↔◌, ◌≤◌, ◌<◌, ℕ, length, IsTrue, IfOk};
ghost use Rattle.vw_lattice.specs.Order.{IsJoin, TellsChange};
ghost use Rattle.vw_values.specs.Values.{IsAmong};
ghost use Rattle.vw_domain.specs.Registers.{IsRegister, IsValidRegister, register_below, register_at, row_below, IsRow, JoinsRegister, JoinsRows, IsRowAmong};

use crate::cells::Cell;
use vw_bits::OutOfMemory;
use vw_lattice::Lattice;
use vw_stack::Offset;
use vw_values::{Bounds, Value};

/// What is known of a register: how far it is from the value that rsp had at the function's entry, and its
/// value.
#[derive(Clone, Copy, PartialEq, Eq)]
pub struct Register {
    /// The distance, in bytes.
    pub offset: Offset,
    /// The value.
    pub value: Value,
}

// Cells are most often equal, and then nothing is unpacked.
fn is_cell_below(low: &Cell, high: &Cell) -> bool
    ensures { IsTrue result ↔ register_below low.now high.now }
{
    low.is_same(high) || are_parts_below(low, high)
}

#[inline(never)]
fn are_parts_below(low: &Cell, high: &Cell) -> bool
    ensures { IsTrue result ↔ register_below low.now high.now }
{
    is_register_below(&low.register(), &high.register())
}

fn is_register_below(low: &Register, high: &Register) -> bool
    ensures { IsTrue result ↔ register_below low.now high.now }
{
    low.offset.leq(&high.offset) && low.value.leq(&high.value)
}

// The join part by part.
fn join_parts(
    register: Register,
    other: &Register,
    bounds: &Bounds,
) -> Result<Register, OutOfMemory>
    requires register { IsRegister register }
    requires other { IsRegister other.now }
    ensures { IfOk result (λ join. IsJoin register_below (IsValidRegister bounds.now) register other.now join) }
{
    let mut offset = register.offset;
    let mut value = register.value;
    let _offset = offset.join(&other.offset, &())?;
    let _value = value.join(&other.value, bounds)?;
    Ok(Register { offset, value })
}

// Joins what is known of a register twice, and answers whether that changed the first. Cells are most often equal, and
// then nothing is unpacked.
fn join_cell(cell: &mut Cell, other: &Cell, bounds: &Bounds) -> Result<bool, OutOfMemory>
    requires cell { IsRegister cell.old }
    requires other { IsRegister other.now }
    ensures joins { IfOk result (λ _. JoinsRegister bounds.now cell.old other.now cell.new) }
    ensures told { IfOk result (λ changed. TellsChange changed cell.old cell.new) }
{
    if cell.is_same(other) {
        return Ok(false);
    }
    join_other(cell, other, bounds)
}

// Where one is below the other, which is most often so, it is the other, and nothing is joined.
#[inline(never)]
fn join_other(cell: &mut Cell, other: &Cell, bounds: &Bounds) -> Result<bool, OutOfMemory>
    requires cell { IsRegister cell.old }
    requires other { IsRegister other.now }
    ensures joins { IfOk result (λ _. JoinsRegister bounds.now cell.old other.now cell.new) }
    ensures told { IfOk result (λ changed. TellsChange changed cell.old cell.new) }
{
    let mine = cell.register();
    let theirs = other.register();
    if is_register_below(&theirs, &mine) {
        return Ok(false);
    }
    if is_register_below(&mine, &theirs) && other.is_among(bounds) {
        *cell = *other;
        return Ok(true);
    }
    let join = join_parts(mine, &theirs, bounds)?;
    *cell = Cell::of(join);
    Ok(true)
}

// How far a register is from the value that rsp had at the function's entry.
pub(crate) fn offset_at(row: &[Cell; 17], r: u8) -> Offset
    requires { r < 17 }
    ensures { result ≡ (register_at row.now r).offset }
{
    row[r as usize].offset()
}

// A register's value.
pub(crate) fn value_at(row: &[Cell; 17], r: u8) -> Value
    requires { r < 17 }
    ensures { result ≡ (register_at row.now r).value }
{
    row[r as usize].value()
}

// Whether each register of a row is below that of the other.
pub(crate) fn is_row_below(low: &[Cell; 17], high: &[Cell; 17]) -> bool
    ensures { IsTrue result ↔ row_below low.now high.now }
{
    for i in 0..17 {
        if !is_cell_below(&low[i], &high[i]) {
            return false;
        }
    }
    true
}

// Whether the bound that the greater register's value names is among these, and the other is below it. Most cells are
// equal and name no bound.
fn does_cell_land(low: &Cell, high: &Cell, bounds: &Bounds) -> bool
    ensures { IsTrue result ↔ (IsAmong bounds.now high.now.value × register_below low.now high.now) }
{
    if low.is_same_simple(high) {
        return true;
    }
    high.is_among(bounds) && is_cell_below(low, high)
}

// The same of each register of two rows, in one pass over both.
pub(crate) fn does_row_land(low: &[Cell; 17], high: &[Cell; 17], bounds: &Bounds) -> bool
    ensures { IsTrue result ↔ (IsRowAmong bounds.now high.now × row_below low.now high.now) }
{
    for i in 0..17 {
        if !does_cell_land(&low[i], &high[i], bounds) {
            return false;
        }
    }
    true
}

// Whether two registers are equal, and the bound that their value names is among these. Most name no bound.
fn is_cell_same(cell: &Cell, other: &Cell, bounds: &Bounds) -> bool
    ensures { IsTrue result ↔ ((cell.now ≡ other.now) × IsAmong bounds.now other.now.value) }
{
    if cell.is_same_simple(other) {
        return true;
    }
    cell.is_same(other) && other.is_among(bounds)
}

// The same of each register of two rows, in one pass over both.
pub(crate) fn is_row_same(row: &[Cell; 17], other: &[Cell; 17], bounds: &Bounds) -> bool
    ensures { IsTrue result ↔ ((row.now ≡ other.now) × IsRowAmong bounds.now other.now) }
{
    for i in 0..17 {
        if !is_cell_same(&row[i], &other[i], bounds) {
            return false;
        }
    }
    true
}

// Joins each of seventeen registers with that of the other row, and answers whether that changed one.
pub(crate) fn join_rows(
    row: &mut [Cell],
    other: &[Cell],
    bounds: &Bounds,
) -> Result<bool, OutOfMemory>
    requires row { IsRow row.old }
    requires other { IsRow other.now }
    ensures joins { IfOk result (λ _. JoinsRows bounds.now row.old other.now row.new) }
    ensures told { IfOk result (λ changed. TellsChange changed row.old row.new) }
{
    let mut changed = false;
    for i in 0..17 {
        if join_cell(&mut row[i], &other[i], bounds)? {
            changed = true;
        }
    }
    Ok(changed)
}

// Whether the bound that each register's value names is among these.
pub(crate) fn is_row_among(row: &[Cell; 17], bounds: &Bounds) -> bool
    ensures { IsTrue result ↔ IsRowAmong bounds.now row.now }
{
    for i in 0..17 {
        if !row[i].is_among(bounds) {
            return false;
        }
    }
    true
}
