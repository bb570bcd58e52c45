ghost use Rattle.std.specs.Prelude.{◌≡◌, ◌+◌, ◌≤◌, length, IfOk};
ghost use Rattle.byteorder.specs.Endian.{little_bytes};
ghost use Rattle.vw_make.specs.Bytes.{put_at};
ghost use Rattle.vw_make.specs.Generator.{code_of, fixes_of, kind_of};

use crate::buffer::write_at;
use crate::parts::Target;
use std::alloc::Global;
use vw_bits::{List, OutOfMemory};

/// What a function of a generated module does.
#[derive(Clone, Copy, Debug, PartialEq, Eq)]
pub enum Kind {
    /// Reads the heap at an index of 32 bits and a displacement that is drawn.
    HeapLoad,
    /// Fills the heap, in as many turns as are drawn.
    StoreLoop,
    /// Jumps by a table of three offsets behind its code.
    Switch,
    /// Keeps the heap's address in its frame.
    Spill,
    /// Calls the import `host_call`.
    HostCall,
    /// Calls a function of the module.
    DirectCall,
    /// Calls a function through the table, if its tag is 5.
    TableCall,
    /// Probes the stack for a frame of 131,072 bytes.
    ProbedFrame,
}

// The code of each kind, in which the fields that are drawn or fixed are 0. `code_of` of the definitions has its
// instructions.
const HEAP_LOAD: [u8; 10] = [0x89, 0xF6, 0x8B, 0x84, 0x37, 0, 0, 0, 0, 0xC3];

const STORE_LOOP: [u8; 18] = [
    0x31, 0xC0, 0x89, 0xC1, 0x89, 0x34, 0x0F, 0x83, 0xC0, 0x04, 0x3D, 0, 0, 0, 0, 0x72, 0xF1, 0xC3,
];

const SWITCH: [u8; 38] = [
    0x83, 0xFE, 0x03, 0x73, 0x14, 0x89, 0xF0, 0x48, 0x8D, 0x0D, 0x0C, 0, 0, 0, 0x48, 0x63, 0x04,
    0x81, 0x48, 0x01, 0xC8, 0xFF, 0xE0, 0xC3, 0xC3, 0xC3, 0xFD, 0xFF, 0xFF, 0xFF, 0xFE, 0xFF, 0xFF,
    0xFF, 0xFF, 0xFF, 0xFF, 0xFF,
];

const SPILL: [u8; 23] = [
    0x55, 0x48, 0x89, 0xE5, 0x48, 0x83, 0xEC, 0x10, 0x48, 0x89, 0x7D, 0xF8, 0x8B, 0x07, 0x48, 0x8B,
    0x7D, 0xF8, 0x89, 0x47, 0x04, 0xC9, 0xC3,
];

const HOST_CALL: [u8; 13] = [
    0x53, 0x48, 0x89, 0xFB, 0xE8, 0, 0, 0, 0, 0x8B, 0x03, 0x5B, 0xC3,
];

const DIRECT_CALL: [u8; 14] = [
    0x48, 0x83, 0xEC, 0x08, 0xE8, 0, 0, 0, 0, 0x48, 0x83, 0xC4, 0x08, 0xC3,
];

const TABLE_CALL: [u8; 43] = [
    0x48, 0x8B, 0x0D, 0, 0, 0, 0, 0x89, 0xF0, 0x48, 0x39, 0xC8, 0x73, 0x1B, 0x48, 0xC1, 0xE0, 0x04,
    0x48, 0x8B, 0x0D, 0, 0, 0, 0, 0x48, 0x01, 0xC8, 0x48, 0x8B, 0x10, 0x48, 0x83, 0xFA, 0x05, 0x75,
    0x04, 0xFF, 0x50, 0x08, 0xC3, 0x0F, 0x0B,
];

const PROBED_FRAME: [u8; 29] = [
    0xB8, 0, 0, 0x02, 0, 0xE8, 0, 0, 0, 0, 0x48, 0x81, 0xEC, 0, 0, 0x02, 0, 0x48, 0x89, 0x04, 0x24,
    0x48, 0x81, 0xC4, 0, 0, 0x02, 0, 0xC3,
];

/// The kind of the function with this number: the remainder by 8 decides.
pub fn kind_of(number: u32) -> Kind
    ensures kind { result ≡ kind_of number }
    ensures callee { result ≡ Kind.DirectCall → 5 ≤ number }
{
    match number % 8 {
        0 => Kind::HeapLoad,
        1 => Kind::StoreLoop,
        2 => Kind::Switch,
        3 => Kind::Spill,
        4 => Kind::HostCall,
        5 => Kind::DirectCall,
        6 => Kind::TableCall,
        _ => Kind::ProbedFrame,
    }
}

/// The code of a function of this kind, where its draw is `r`; the fields of its fixes are 0.
pub fn code_of(alloc: Global, kind: Kind, r: u64) -> Result<List<u8>, OutOfMemory>
    ensures { IfOk result (λ code. code ≡ code_of kind r) }
{
    match kind {
        Kind::HeapLoad => code_with(alloc, &HEAP_LOAD, 5, (r % 65536) as u32),
        Kind::StoreLoop => code_with(alloc, &STORE_LOOP, 11, 4 * (1 + (r % 1024) as u32)),
        Kind::Switch => code_from(alloc, &SWITCH),
        Kind::Spill => code_from(alloc, &SPILL),
        Kind::HostCall => code_from(alloc, &HOST_CALL),
        Kind::DirectCall => code_from(alloc, &DIRECT_CALL),
        Kind::TableCall => code_from(alloc, &TABLE_CALL),
        Kind::ProbedFrame => code_from(alloc, &PROBED_FRAME),
    }
}

fn code_from(alloc: Global, bytes: &[u8]) -> Result<List<u8>, OutOfMemory>
    ensures { IfOk result (λ code. code ≡ bytes.now) }
{
    Ok(List::from_vec(Vec::from_slice(alloc, bytes)?))
}

// The bytes with the four of a number over those from `at` on.
fn code_with(alloc: Global, bytes: &[u8], at: usize, number: u32) -> Result<List<u8>, OutOfMemory>
    requires { at + 4 ≤ length bytes.now }
    ensures { IfOk result (λ code. code ≡ put_at at (little_bytes 4 number) bytes.now) }
{
    let mut code = Vec::from_slice(alloc, bytes)?;
    write_at(&mut code, at, &number.to_le_bytes());
    Ok(List::from_vec(code))
}

/// The fixes of the function with this number, which is of this kind.
pub fn fixes_of(alloc: Global, kind: Kind, number: u32) -> Result<List<(u32, Target)>, OutOfMemory>
    requires { kind ≡ Kind.DirectCall → 5 ≤ number }
    ensures { IfOk result (λ fixes. fixes ≡ fixes_of kind number) }
{
    match kind {
        Kind::HeapLoad | Kind::StoreLoop | Kind::Switch | Kind::Spill => Ok(List::new(alloc)),
        Kind::HostCall => fixes_from(alloc, &[(5, Target::Stub(1))]),
        Kind::DirectCall => fixes_from(alloc, &[(5, Target::Function(number - 5))]),
        Kind::TableCall => fixes_from(alloc, &[(3, Target::Tables(8)), (21, Target::Tables(0))]),
        Kind::ProbedFrame => fixes_from(alloc, &[(6, Target::Stub(0))]),
    }
}

fn fixes_from(alloc: Global, items: &[(u32, Target)]) -> Result<List<(u32, Target)>, OutOfMemory>
    ensures { IfOk result (λ fixes. fixes ≡ items.now) }
{
    Ok(List::from_vec(Vec::from_slice(alloc, items)?))
}
