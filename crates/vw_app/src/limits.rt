/// The most bytes that a module's file may have.
pub const LONGEST_FILE: u64 = 0x400_0000;

/// The most bytes that a report may have.
pub const LONGEST_REPORT: u64 = 0x2000_0000;
