/// The legacy prefix of an instruction (SDM volume 2, 2.1.1). The processor takes one of each group; here
/// there is one at most.
#[derive(Clone, Copy, Debug, PartialEq, Eq)]
pub enum Prefix {
    /// None of 66, F2 and F3.
    Plain,
    P66,
    PF2,
    PF3,
}

/// The opcode map (SDM volume 2, A.2.4): what stands before the opcode's last byte.
#[derive(Clone, Copy, Debug, PartialEq, Eq)]
pub enum Map {
    /// Opcodes of one byte.
    One,
    /// 0F, then the opcode.
    Two,
    /// 0F 3A, then the opcode.
    Three,
}

/// Which prefixes a row takes.
#[derive(Clone, Copy, Debug, PartialEq, Eq)]
pub enum Prefixes {
    /// No prefix.
    Plain,
    /// No prefix, or 66, which makes operands of variable width 16 bits wide.
    PlainOr66,
    /// 66, as part of the opcode.
    P66,
    /// F2, as part of the opcode.
    PF2,
    /// F3, as part of the opcode.
    PF3,
}

/// What the mod field of ModRM may say (SDM volume 2, 2.1.5).
#[derive(Clone, Copy, Debug, PartialEq, Eq)]
pub enum Form {
    /// A register or memory; also where the row has no ModRM.
    Any,
    /// Memory: mod is below 3.
    Memory,
    /// A register: mod is 3.
    Register,
}

/// What the bytes of an instruction must be for a row to be theirs.
#[derive(Clone, Copy, Debug, PartialEq, Eq)]
pub struct Pattern {
    pub prefixes: Prefixes,
    pub map: Map,
    /// The opcode's last byte, but of F3 0F 1E FA the one before it.
    pub opcode: u8,
    /// The low three bits of the opcode name a register (`+r`, SDM volume 2, 3.1.1.1): they are 0 in
    /// `opcode`, and free.
    pub plus: bool,
    /// The reg field of ModRM where it extends the opcode (`/digit`), 0 to 7.
    pub digit: Option<u8>,
    pub form: Form,
}

/// What an instruction's bytes say of its row.
#[derive(Clone, Copy, Debug, PartialEq, Eq)]
pub struct Key {
    pub prefix: Prefix,
    pub map: Map,
    /// The opcode's last byte, but of F3 0F 1E FA the one before it.
    pub opcode: u8,
    /// The reg field of ModRM. A row that asks no digit takes any.
    pub digit: u8,
    /// The mod field of ModRM is 3. A row that asks no form takes any.
    pub register_form: bool,
}
