/// The exit status of the program.
#[derive(Clone, Copy, Debug, PartialEq, Eq)]
pub struct Status(pub u8);

impl Status {
    /// Done, or safe.
    pub const DONE: Status = Status(0);
    /// A check fails.
    pub const UNSAFE: Status = Status(1);
    /// A rule of modules breaks.
    pub const MALFORMED: Status = Status(2);
    /// The words are none of the program's forms.
    pub const USAGE: Status = Status(3);
    /// A file was not read.
    pub const READ_FAULT: Status = Status(4);
    /// The answer was not written whole.
    pub const WRITE_FAULT: Status = Status(5);
    /// Memory was refused.
    pub const OUT_OF_MEMORY: Status = Status(6);
    /// A report was not read.
    pub const BAD_REPORT: Status = Status(7);
}
