ghost use Rattle.std.specs.Prelude.{◌≡◌, ◌≤◌, [], ◌∷◌, ◌++◌, length, map, codes, IfOk};
ghost use Rattle.std.specs.Fmt.{decimal};
ghost use Rattle.std.specs.List.{range_with_len};
ghost use Rattle.vw_make.specs.Bounds.{MeetsBounds};
ghost use Rattle.vw_make.specs.Generator.{guest, guest_of, table_of, generated_parts};
ghost use Rattle.vw_make.specs.Layout.{file_size};
ghost use Rattle.vw_make.specs.Module.{module_bytes};

use crate::kinds::{code_of, fixes_of, kind_of};
use crate::parts::{Func, Parts};
use crate::write::write_module;
use std::alloc::Global;
use vw_bits::{List, OutOfMemory, Text, draw};

/// How many entries the table has at most.
const TABLE_LIMIT: u32 = 1024;

/// The file of a module with so many functions, at most 65,536, that is generated from a number. The functions
/// `guest_func_0`, `guest_func_1` and so on are of eight kinds in turn: a load from the heap, a loop of stores,
/// a switch, a spill, a call of the host, a direct call, a call through the table, and a frame that is probed.
/// Each takes one draw of a linear congruential generator that begins with the number, in the order of the
/// functions; displacements of the loads and the turns of the loops depend on it. The imports are
/// `lucet_probestack` and `host_call`; the only table has the first 1,024 functions, each with its number modulo
/// 8 as its tag. Time and memory are linear in the size of the file.
///
/// The only error is want of memory.
pub fn make(alloc: Global, functions: u32, number: u64) -> Result<List<u8>, OutOfMemory>
    requires { functions ≤ 65536 }
    ensures bytes { IfOk result (λ file. file ≡ module_bytes (generated_parts functions number)) }
    ensures size { IfOk result (λ file.
        length file ≡ file_size (generated_parts functions number)) }
    ensures bounds { MeetsBounds (generated_parts functions number) }
{
    let parts = parts_from(alloc, functions, number)?;
    write_module(alloc, &parts)
}

#[tactic(auto, unfolding(crate::specs::Generator::generated_parts))]
fn parts_from(alloc: Global, functions: u32, number: u64) -> Result<Parts, OutOfMemory>
    ensures { IfOk result (λ parts. parts ≡ generated_parts functions number) }
{
    let all = functions_from(alloc, functions, number)?;
    let imports = imports_from(alloc)?;
    let mut tables = List::new(alloc);
    tables.push(table_from(alloc, functions)?)?;
    Ok(Parts {
        functions: all,
        imports,
        tables,
        content: List::new(alloc),
        binds: List::new(alloc),
    })
}

fn functions_from(alloc: Global, functions: u32, number: u64) -> Result<List<Func>, OutOfMemory>
    ensures { IfOk result (λ list. list ≡ map (guest_of number) (range_with_len 0 functions)) }
{
    let mut list = List::new(alloc);
    let mut x = number;
    for index in 0..functions {
        x = draw(x);
        let func = guest_from(alloc, index, x >> 33)?;
        list.push(func)?;
    }
    Ok(list)
}

// The function with the number `index`, whose draw is `r`.
fn guest_from(alloc: Global, index: u32, r: u64) -> Result<Func, OutOfMemory>
    ensures { IfOk result (λ func. func ≡ guest index r) }
{
    let name = name_from(alloc, index)?;
    let kind = kind_of(index);
    let code = code_of(alloc, kind, r)?;
    let fixes = fixes_of(alloc, kind, index)?;
    Ok(Func { name, code, fixes })
}

fn name_from(alloc: Global, index: u32) -> Result<Text, OutOfMemory>
    ensures { IfOk result (λ name. name ≡ codes "guest_func_" ++ decimal index) }
{
    let mut name = Text::new(alloc);
    name.push(b"guest_func_")?;
    name.dec(index as u64)?;
    Ok(name)
}

fn imports_from(alloc: Global) -> Result<List<Text>, OutOfMemory>
    ensures { IfOk result (λ names. names ≡ codes "lucet_probestack" ∷ codes "host_call" ∷ []) }
{
    let mut probe = Text::new(alloc);
    probe.push(b"lucet_probestack")?;
    let mut host = Text::new(alloc);
    host.push(b"host_call")?;
    let mut names = List::new(alloc);
    names.push(probe)?;
    names.push(host)?;
    Ok(names)
}

// The entries of the table.
fn table_from(alloc: Global, functions: u32) -> Result<List<(u64, Option<u32>)>, OutOfMemory>
    ensures { IfOk result (λ entries. entries ≡ table_of functions) }
{
    let mut entries = List::new(alloc);
    for index in 0..functions.min(TABLE_LIMIT) {
        entries.push(((index % 8) as u64, Some(index)))?;
    }
    Ok(entries)
}
