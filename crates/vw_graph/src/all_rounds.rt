use vw_state::FunctionTable;

/// How the rounds over a function end. Points are offsets from its first byte, from 0 to its size.
#[derive(Drop)]
pub enum Rounds {
    /// Neither check 1 nor check 2 fails at a point of this table, the function's least one, and it tells of no jump that
    /// the last round did not have: at each point an instruction begins, no direct jump or branch goes out of the
    /// function, and each jump through a register goes through a table whose entries lead to points of the function.
    Stable(FunctionTable),
    /// One of the two fails at some point of the table of the last round.
    Stopped {
        /// That table.
        table: FunctionTable,
        /// The lowest point of the table at which one of the two fails.
        at: u32,
        /// The check that fails there: 1, code, where no instruction begins; 2, jump, where a direct jump or branch
        /// out of the function begins, or a jump through a register of which it is not known that it stays inside.
        check: u8,
    },
}
