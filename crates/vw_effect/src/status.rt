//! The status flags, and how results set them.

/// The status flags that instructions test (SDM volume 1, 3.4.3.1).
#[derive(Clone, Copy, Debug, PartialEq, Eq)]
pub struct Flags {
    /// CF.
    pub carry: bool,
    /// PF.
    pub parity: bool,
    /// ZF.
    pub is_zero: bool,
    /// SF.
    pub sign: bool,
    /// OF.
    pub overflow: bool,
}
