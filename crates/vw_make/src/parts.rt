use vw_bits::{List, Text};

/// What a module is made of. Functions, imports and tables are numbered from 0 in their order.
#[derive(Debug, Drop)]
pub struct Parts {
    /// The functions, in the order in which they stand in the text.
    pub functions: List<Func>,
    /// The names of the imports; each gets a slot and a stub.
    pub imports: List<Text>,
    /// The function tables. An entry is a tag and the number of a function; an entry without one is
    /// empty, and its tag is not looked at.
    pub tables: List<List<(u64, Option<u32>)>>,
    /// The bytes of the data, which stand behind the tables.
    pub content: List<u8>,
    /// Words of the data that are bound to an import: the offset of eight bytes of the content, and
    /// the number of the import.
    pub binds: List<(u32, u32)>,
}

/// A function of a module.
#[derive(Debug, Drop)]
pub struct Func {
    /// Its name.
    pub name: Text,
    /// Its machine code.
    pub code: List<u8>,
    /// Displacements that are known only once the module is laid out: the offset of four bytes of the
    /// code, and what they lead to from the address behind them.
    pub fixes: List<(u32, Target)>,
}

/// What a displacement in the code leads to.
#[derive(Clone, Copy, Debug, PartialEq, Eq)]
pub enum Target {
    /// The function with this number.
    Function(u32),
    /// The stub of the import with this number.
    Stub(u32),
    /// This byte of `lucet_tables`, which has 16 bytes for each table.
    Tables(u32),
    /// This byte of the data.
    Data(u32),
}
