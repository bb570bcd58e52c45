ghost use Rattle.std.specs.Prelude.{◌≡◌, ◌==◌, length, None, IfOk, IfErr, IfSome, OnOk};
ghost use Rattle.std.specs.List.{position};
ghost use Rattle.std.specs.Str.{bytes_eq};
ghost use Rattle.vw_elf.specs.SymbolSections.{symbol_sections};
ghost use Rattle.vw_image.specs.Stubs.{IsBound};
ghost use Rattle.vw_layout.specs.Faults.{Names};
ghost use Rattle.vw_layout.specs.Calls.{call_target, module_stub, is_probe};
ghost use Rattle.vw_layout.specs.Symbols.{distinct_sections};
ghost use Rattle.vw_layout.specs.Layout.{declared_functions, declared_tables, is_late, import_rule, layout_fault, module_fault, IsModuleOf, IsWhole};

use crate::calls::{call_target, is_probe, module_stub, number_at};
use crate::faults::refuse;
use crate::functions::read_functions;
use crate::symbols::{Role, distinct_sections, read_symbols};
use crate::tables::read_tables;
use crate::{CallTarget, Function, ModuleError, TableInfo};
use std::alloc::Global;
use vw_bits::List;
use vw_dynamic::{Dynamic, RelKind, Relocation};
use vw_elf::{Elf, SymbolSection};
use vw_image::{Image, Stub};

/// A module: an ELF64 shared object for x86-64 of which all 36 rules hold.
#[derive(Debug, Drop)]
pub struct Module {
    /// The declared functions, by ascending address, at most 65,536.
    pub functions: List<Function>,
    /// The tables, in the order of their pairs in `lucet_tables`, at most 64.
    pub tables: List<TableInfo>,
    /// The image of the file.
    pub image: Image,
}

impl Module {
    /// Reads a file. Ok exactly where all 36 rules hold of the bytes: the module is the one that they give.
    /// Malformed names the first broken rule and the offset that it names. Memory comes where the allocator
    /// refuses a request.
    pub fn read(alloc: Global, bytes: List<u8>) -> Result<Module, ModuleError>
        ensures ok { IfOk result (IsModuleOf bytes) }
        ensures whole { IfOk result IsWhole }
        ensures fault { IfErr result (Names (module_fault bytes)) }
    {
        let elf = Elf::read(alloc, bytes.as_slice())?;
        let dynamic = Dynamic::read(
            alloc,
            bytes.as_slice(),
            elf.segments.as_slice(),
            elf.dynamics.as_slice(),
        )?;
        let late = first_late(dynamic.relocations.as_slice());
        let image = Image::build(alloc, bytes, elf.segments, dynamic).map_err(ModuleError::Memory)?;
        let sections = distinct_sections(alloc, elf.symbols.as_slice()).map_err(
            ModuleError::Memory,
        )?;
        read_layout(alloc, image, sections.as_slice(), late)
    }

    /// The number of the function that begins at an address, counted from 0 by ascending address; `None`
    /// exactly where none does. Takes no memory.
    pub fn function_at(&self, entry: u64) -> Option<u32>
        requires { IsWhole self.now }
        ensures { result ≡ position (λ f. f.entry == entry) self.now.functions }
    {
        number_at(self.functions.as_slice(), entry)
    }

    /// What a call of an address enters; `None` exactly where neither a declared function begins nor a stub of the
    /// module stands there. Takes no memory.
    pub fn call_target(&self, address: u64) -> Option<CallTarget>
        requires { IsWhole self.now }
        ensures { result ≡ call_target self.now.image self.now.functions address }
    {
        call_target(&self.image, self.functions.as_slice(), address)
    }

    /// The stub of the module at an address: one that goes to an import, or to an address at which a declared
    /// function begins. `None` exactly where there is none. The number of an import is below the number of imports.
    /// Takes no memory.
    pub fn stub_at(&self, address: u64) -> Option<Stub>
        requires { IsWhole self.now }
        ensures stub { result ≡ module_stub self.now.image self.now.functions address }
        ensures numbered { IfSome result (λ stub. IsBound (length self.now.image.imports) stub.to) }
    {
        module_stub(&self.image, self.functions.as_slice(), address)
    }

    /// Whether the import with this number is the one that probes the stack, `lucet_probestack`. Takes no memory.
    pub fn is_probe(&self, number: u32) -> bool
        ensures { result ≡ is_probe self.now.image.imports number }
    {
        is_probe(self.image.imports(), number)
    }

    /// The number of the function with a name, the one of the lowest address where several have it; `None`
    /// exactly where none has. Takes no memory.
    pub fn named(&self, name: &[u8]) -> Option<u32>
        requires { IsWhole self.now }
        ensures { result ≡ position (λ f. bytes_eq f.name name.now) self.now.functions }
    {
        match position_named(self.functions.as_slice(), name) {
            Some(place) => Some(place as u32),
            None => None,
        }
    }
}

fn position_named(functions: &[Function], name: &[u8]) -> Option<usize>
    ensures { result ≡ position (λ f. bytes_eq f.name name.now) functions.now }
{
    functions.iter().position(|f| f.name.as_slice() == name)
}

/// The greatest number of distinct names of imports.
const MAX_IMPORTS: u32 = 65_536;

// Rule 36: the first relocation that binds an import behind the first 65,536.
fn first_late(relocations: &[Relocation]) -> Option<u64>
    ensures { result ≡ import_rule relocations.now }
{
    relocations.iter().find(|r| is_late(r.kind)).map(|r| r.at)
}

fn is_late(kind: RelKind) -> bool
    ensures { result ≡ is_late kind }
{
    match kind {
        RelKind::Based(_) => false,
        RelKind::Bound(number) => MAX_IMPORTS <= number,
    }
}

// Rules 27 to 36, of a file with this image and these sections of symbols, each once. `late` is what breaks
// rule 36.
fn read_layout(
    alloc: Global,
    image: Image,
    sections: &[SymbolSection],
    late: Option<u64>,
) -> Result<Module, ModuleError>
    requires sections { sections.now ≡ distinct_sections (symbol_sections image.bytes) }
    requires late { late ≡ import_rule image.relocations }
    ensures image { IfOk result (λ m. m.image ≡ image) }
    ensures functions { IfOk result (λ m. m.functions ≡ declared_functions image.bytes) }
    ensures tables { IfOk result (λ m. m.tables ≡ declared_tables image.bytes) }
    ensures rules { OnOk result (layout_fault image.bytes ≡ None) }
    ensures fault { IfErr result (Names (layout_fault image.bytes)) }
{
    let functions = read_functions(alloc, image.bytes(), image.segments(), sections)?;
    let symbols = read_symbols(alloc, image.bytes(), sections, Role::Tables).map_err(
        ModuleError::Memory,
    )?;
    let tables = read_tables(alloc, &image, functions.as_slice(), symbols.as_slice())?;
    refuse(36, late)?;
    Ok(Module {
        functions,
        tables,
        image,
    })
}
