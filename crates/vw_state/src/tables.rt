use vw_bits::List;
use vw_domain::State;

/// The tables of a module's functions.
#[derive(Drop)]
pub struct Tables {
    /// By ascending entry.
    pub functions: List<FunctionTable>,
}

/// The table of a function: some of its points, from 0 to its size, with a state each.
#[derive(Drop)]
pub struct FunctionTable {
    /// The address of the function's first byte, counted from the load address.
    pub entry: u64,
    /// By ascending point.
    pub states: List<PointState>,
}

/// A point of a function with its state.
#[derive(Drop)]
pub struct PointState {
    /// The offset from the function's first byte.
    pub at: u32,
    pub state: State,
}

/// Where a check fails.
#[derive(Clone, Copy, Debug, PartialEq, Eq)]
pub struct Place {
    /// The address of the function's first byte, counted from the load address.
    pub entry: u64,
    /// The offset from the function's first byte.
    pub at: u32,
    /// The number of the check, 1 to 8, or 0 where given tables are no solution.
    pub check: u8,
}

/// What the analysis answers of a module.
#[derive(Drop)]
pub enum Verdict {
    /// Every function is safe: the least tables.
    Safe(Tables),
    /// Some function is not: the place where a check fails.
    Unsafe(Place),
}
