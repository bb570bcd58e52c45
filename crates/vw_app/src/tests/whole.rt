ghost use Rattle.std.specs.Prelude.{◌≡◌, [], ◌∷◌, Some, None, IfOk};
ghost use Rattle.vw_make.specs.Bounds.{MeetsBounds};
ghost use Rattle.vw_make.specs.declared.parts.Target.{Target};

use super::fixtures::{expect, patch};
use std::alloc::Global;
use std::test::Fail;
use vw_bits::{List, OutOfMemory, Text};
use vw_make::{Func, Parts, Target, write_module};
use vw_outside::NeverFails;

/// `mov eax, [rdi + 0]` with four bytes of displacement, `ret`.
const READ: [u8; 7] = [0x8B, 0x87, 0, 0, 0, 0, 0xC3];
/// `mov eax, [rdi + 8]`, `ret`.
const NEAR_READ: [u8; 4] = [0x8B, 0x47, 8, 0xC3];
/// `ud2`.
const STOP: [u8; 2] = [0x0F, 0x0B];

const CONTENT: [u8; 8] = [1, 2, 3, 4, 5, 6, 7, 8];

fn text_of(alloc: Global, bytes: &[u8]) -> Result<Text, OutOfMemory>
    ensures { IfOk result (λ text. text ≡ bytes.now) }
{
    let mut text = Text::new(alloc);
    text.push(bytes)?;
    Ok(text)
}

fn bytes_of(alloc: Global, bytes: &[u8]) -> Result<List<u8>, OutOfMemory>
    ensures { IfOk result (λ list. list ≡ bytes.now) }
{
    Ok(List::from_vec(Vec::from_slice(alloc, bytes)?))
}

fn list_of<T: Drop>(alloc: Global, first: T) -> Result<List<T>, OutOfMemory>
    ensures { IfOk result (λ list. list ≡ first ∷ []) }
{
    let mut list = List::new(alloc);
    list.push(first)?;
    Ok(list)
}

fn pair_of<T: Drop>(alloc: Global, first: T, second: T) -> Result<List<T>, OutOfMemory>
    ensures { IfOk result (λ list. list ≡ first ∷ second ∷ []) }
{
    let mut list = list_of(alloc, first)?;
    list.push(second)?;
    Ok(list)
}

// A function without fixes.
fn func_of(alloc: Global, name: &[u8], code: &[u8]) -> Result<Func, OutOfMemory>
    ensures { IfOk result (λ f. f ≡ record { name = name.now; code = code.now; fixes = [] }) }
{
    let name = text_of(alloc, name)?;
    let code = bytes_of(alloc, code)?;
    let fixes = List::new(alloc);
    Ok(Func { name, code, fixes })
}

fn functions_of(alloc: Global) -> Result<List<Func>, OutOfMemory>
    ensures { IfOk result (λ fs. fs ≡ record { name = 102 ∷ []; code = READ; fixes = [] }
        ∷ record { name = 103 ∷ 103 ∷ []; code = NEAR_READ; fixes = [] }
        ∷ record { name = 104 ∷ []; code = STOP; fixes = [] } ∷ []) }
{
    let first = func_of(alloc, b"f", &READ)?;
    let second = func_of(alloc, b"gg", &NEAR_READ)?;
    let third = func_of(alloc, b"h", &STOP)?;
    let mut functions = pair_of(alloc, first, second)?;
    functions.push(third)?;
    Ok(functions)
}

// A table of two entries, the second empty, and one of one entry.
fn tables_of(alloc: Global) -> Result<List<List<(u64, Option<u32>)>>, OutOfMemory>
    ensures { IfOk result (λ tables. tables
        ≡ ((5, Some 1) ∷ (9, None) ∷ []) ∷ ((7, Some 0) ∷ []) ∷ []) }
{
    let first = pair_of(alloc, (5, Some(1)), (9, None))?;
    let second = list_of(alloc, (7, Some(0)))?;
    pair_of(alloc, first, second)
}

// Three functions, two imports, two tables, and a word of data that is bound to an import.
fn parts_of(alloc: Global) -> Result<Parts, OutOfMemory>
    ensures { IfOk result (λ parts. MeetsBounds parts) }
{
    let functions = functions_of(alloc)?;
    let imports = pair_of(alloc, text_of(alloc, b"a")?, text_of(alloc, b"bc")?)?;
    let tables = tables_of(alloc)?;
    let content = bytes_of(alloc, &CONTENT)?;
    let binds = list_of(alloc, (0, 1))?;
    Ok(Parts {
        functions,
        imports,
        tables,
        content,
        binds,
    })
}

/// `mov rcx, [tables + 8]`, `mov eax, esi`, `cmp rax, rcx`, `jae` to the end, `shl rax, 4`, `mov rcx, [tables]`,
/// `add rax, rcx`, `mov rdx, [rax]`, `cmp rdx, 5`, `jne` to the end, `call [rax + 8]`, `ret`, `ud2`.
const TABLE_CALL: [u8; 43] = [
    0x48, 0x8B, 0x0D, 0, 0, 0, 0, 0x89, 0xF0, 0x48, 0x39, 0xC8, 0x73, 0x1B, 0x48, 0xC1, 0xE0, 0x04,
    0x48, 0x8B, 0x0D, 0, 0, 0, 0, 0x48, 0x01, 0xC8, 0x48, 0x8B, 0x10, 0x48, 0x83, 0xFA, 0x05, 0x75,
    0x04, 0xFF, 0x50, 0x08, 0xC3, 0x0F, 0x0B,
];
/// `cmp esi, 2`, `jae` to the end, `mov eax, esi`, `lea rcx, [data]`, `movsxd rax, [rcx + rax * 4]`, `add rax, rcx`,
/// `jmp rax`, `ret`.
const SWITCH: [u8; 24] = [
    0x83, 0xFE, 0x02, 0x73, 0x12, 0x89, 0xF0, 0x48, 0x8D, 0x0D, 0, 0, 0, 0, 0x48, 0x63, 0x04, 0x81,
    0x48, 0x01, 0xC8, 0xFF, 0xE0, 0xC3,
];

const ZEROS: [u8; 8] = [0; 8];

// A function that calls through a table, and one with a switch.
fn callers_of(alloc: Global) -> Result<List<Func>, OutOfMemory>
    ensures { IfOk result (λ fs. fs ≡ record {
      name = 102 ∷ [];
      code = TABLE_CALL;
      fixes = (3, Target.Tables 8) ∷ (21, Target.Tables 0) ∷ [];
    }
        ∷ record { name = 103 ∷ []; code = SWITCH; fixes = (10, Target.Data 0) ∷ [] } ∷ []) }
{
    let first = Func {
        name: text_of(alloc, b"f")?,
        code: bytes_of(alloc, &TABLE_CALL)?,
        fixes: pair_of(alloc, (3, Target::Tables(8)), (21, Target::Tables(0)))?,
    };
    let second = Func {
        name: text_of(alloc, b"g")?,
        code: bytes_of(alloc, &SWITCH)?,
        fixes: list_of(alloc, (10, Target::Data(0)))?,
    };
    pair_of(alloc, first, second)
}

// These two functions, a table with an entry of tag 5 for the first one and an empty entry, and eight bytes of data
// that are bound to an import.
fn calling_parts(alloc: Global) -> Result<Parts, OutOfMemory>
    ensures { IfOk result (λ parts. MeetsBounds parts) }
{
    let functions = callers_of(alloc)?;
    let imports = list_of(alloc, text_of(alloc, b"a")?)?;
    let tables = list_of(alloc, pair_of(alloc, (5, Some(0)), (0, None))?)?;
    let content = bytes_of(alloc, &ZEROS)?;
    let binds = list_of(alloc, (0, 0))?;
    Ok(Parts {
        functions,
        imports,
        tables,
        content,
        binds,
    })
}

/// Where the functions stand: behind four relocations, at multiples of 16.
const CALLER: usize = 384;

const SWITCHER: usize = 432;

/// The compared tag of the table call is that of an empty entry.
const EMPTY_TAG: (usize, &[u8]) = (CALLER + 34, &[0xFF]);
/// The tag is not compared: the code behind the comparison moves to the front of it.
const NO_TEST: (usize, &[u8]) = (CALLER + 31, &[0xFF, 0x50, 8, 0xC3, 0x0F, 0x0B]);
/// The branch to the end is as much shorter.
const SHORTER: (usize, &[u8]) = (CALLER + 13, &[0x15]);
/// The bound admits one entry more than the table has: `ja` for `jae`.
const ABOVE: (usize, &[u8]) = (CALLER + 12, &[0x77]);
/// The switch is a `ret`.
const NO_SWITCH: (usize, &[u8]) = (SWITCHER, &[0xC3]);

/// What is changed in the module of `calling_parts`, as pieces by their offsets, with the verdict: a call through a table
/// of functions with and without what it needs, and a switch over words that are bound to an import, whose accesses fail
/// too, but at a check that is asked later.
pub const CALLS: [(&[(usize, &[u8])], u8, &str); 5] = [
    (&[NO_SWITCH], 0, "safe, functions 2\n"),
    (&[], 1, "unsafe, g+0x15, C2 jump\n"),
    (&[EMPTY_TAG], 1, "unsafe, f+0x25, C7 call\n"),
    (&[NO_TEST, SHORTER], 1, "unsafe, f+0x1f, C7 call\n"),
    (&[ABOVE, NO_SWITCH], 1, "unsafe, f+0x1c, C4 address\n"),
];

/// The module of `calling_parts` with these changes.
pub fn calling_module(alloc: Global, patches: &[(usize, &[u8])]) -> Result<Vec<u8>, Fail> {
    let file = write_module(alloc, &calling_parts(alloc)?)?;
    let mut bytes = file.as_slice().to_vec(alloc)?;
    for (at, piece) in patches {
        patch(&mut bytes, *at, piece);
    }
    Ok(bytes)
}

#[test]
fn calls_through_tables(rt: HostRuntime) -> Result<(), Fail> {
    let alloc = rt.alloc();
    for (patches, status, text) in CALLS.iter() {
        let file = calling_module(alloc, patches)?;
        let mut shelf = NeverFails::new(List::from_vec(file));
        expect(&rt, &["verify", "m"], &mut shelf, &[], (*status, *text))?;
    }
    Ok(())
}

/// Worked out from the layout of written modules: the text begins at 480, behind seven relocations, and each
/// function at a multiple of 16; the tables begin at 4096 + 8 * 2 + 16 * 2.
const INFORMATION: &str = "functions 3
0x00000000000001e0 7 f
0x00000000000001f0 4 gg
0x0000000000000200 2 h
tables 2
0 0x0000000000001030 2
1 0x0000000000001050 1
imports 2
0 a
1 bc
";

/// Where the displacement of the second function's read stands, and where the third function begins.
const DISPLACEMENT: usize = 498;

const THIRD: usize = 512;

// A whole module that was written, what it declares, and verdicts where some of its bytes differ: a read below
// the heap, a byte that begins no instruction there, and both, of which the first function is named.
#[test]
fn written_modules(rt: HostRuntime) -> Result<(), Fail> {
    let alloc = rt.alloc();
    let file = write_module(alloc, &parts_of(alloc)?)?;
    let mut shelf = NeverFails::new(bytes_of(alloc, file.as_slice())?);
    expect(&rt, &["info", "m"], &mut shelf, &[], (0, INFORMATION))?;
    for (displacement, third, status, text) in [
        (8, 0x0F, 0, "safe, functions 3\n"),
        (0xF8, 0x0F, 1, "unsafe, gg+0x0, C4 address\n"),
        (8, 0x06, 1, "unsafe, h+0x0, C1 code\n"),
        (0xF8, 0x06, 1, "unsafe, gg+0x0, C4 address\n"),
    ] {
        let mut bytes = file.as_slice().to_vec(alloc)?;
        patch(&mut bytes, DISPLACEMENT, &[displacement]);
        patch(&mut bytes, THIRD, &[third]);
        let mut shelf = NeverFails::new(List::from_vec(bytes));
        expect(&rt, &["verify", "m"], &mut shelf, &[], (status, text))?;
    }
    Ok(())
}
