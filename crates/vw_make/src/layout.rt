ghost use Rattle.std.specs.Prelude.{◌≡◌};
ghost use Rattle.vw_make.specs.Layout.{layout_from};
ghost use Rattle.vw_make.specs.Small.{AreSmall};

use crate::buffer::round_up;
use crate::sizes::Sizes;

/// Where the parts of a module begin: offsets in the file, which are addresses too.
#[derive(Clone, Copy)]
pub struct Layout {
    /// The string table of the dynamic symbols.
    pub dynamic_strings: u64,
    /// The relocation table.
    pub relocations: u64,
    /// The text, which begins with the first function.
    pub text: u64,
    /// The first stub.
    pub stubs: u64,
    /// The end of the text.
    pub text_end: u64,
    /// The slots of the imports, with which the second segment begins.
    pub slots: u64,
    /// `lucet_tables`.
    pub lucet_tables: u64,
    /// The first table.
    pub tables: u64,
    /// The data.
    pub content: u64,
    /// The dynamic section.
    pub dynamic: u64,
    /// The symbol table.
    pub symbols: u64,
    /// Its string table.
    pub strings: u64,
    /// The section headers.
    pub sections: u64,
}

/// Where the dynamic symbols begin, behind the ELF header and three program headers.
pub const DYNAMIC_SYMBOLS: u64 = 232;

/// The places of parts with these sizes.
pub fn lay_out(size: &Sizes) -> Layout
    requires { AreSmall size.now }
    ensures { result ≡ layout_from size.now }
{
    let dynamic_strings = DYNAMIC_SYMBOLS + 24 * (1 + size.imports);
    let relocations = round_up(dynamic_strings + size.dynamic_strings, 8);
    let text = round_up(relocations + size.relocations, 16);
    let stubs = text + size.functions;
    let text_end = stubs + 16 * size.imports;
    let slots = round_up(text_end, 4096);
    let lucet_tables = slots + 8 * size.imports;
    let tables = lucet_tables + 16 * size.tables;
    let content = tables + 16 * size.entries;
    let dynamic = content + size.content;
    let symbols = dynamic + 128;
    let strings = symbols + size.symbols;
    let sections = round_up(strings + size.strings, 8);
    Layout {
        dynamic_strings,
        relocations,
        text,
        stubs,
        text_end,
        slots,
        lucet_tables,
        tables,
        content,
        dynamic,
        symbols,
        strings,
        sections,
    }
}
