ghost use Rattle.std.specs.Prelude.{◌≡◌, ◌+◌, ◌<◌, ◌^◌, ◌++◌, ◌∷◌, IfOk, OnOk};
ghost use Rattle.byteorder.specs.Endian.{little_bytes};
ghost use Rattle.vw_make.specs.Bounds.{IsThere, FuncFits};
ghost use Rattle.vw_make.specs.Bytes.{difference, padded};
ghost use Rattle.vw_make.specs.Plan.{IsPlan};
ghost use Rattle.vw_make.specs.Text.{target_at, fixed_code, function_texts, stub_texts, text};

use crate::buffer::{pad, put, put_u32, write_at};
use crate::parts::{Func, Target};
use crate::plan::Plan;
use std::alloc::Global;
use vw_bits::OutOfMemory;

/// What fills the text up behind a function or a stub: INT3.
const FILLER: u8 = 0xCC;

/// Appends the text: the functions, then the stubs.
#[tactic(auto, unfolding(crate::specs::Text::text))]
pub fn put_text(out: &mut Vec<u8>, plan: &Plan) -> Result<(), OutOfMemory>
    requires { IsPlan plan.now }
    ensures { OnOk result (out.new.items ≡ out.old.items ++ text plan.now.parts.now plan.now.layout) }
{
    put_functions(out, plan)?;
    put_stubs(out, plan)
}

#[tactic(auto, unfolding(crate::specs::Text::function_texts))]
fn put_functions(out: &mut Vec<u8>, plan: &Plan) -> Result<(), OutOfMemory>
    requires { IsPlan plan.now }
    ensures { OnOk result (out.new.items
        ≡ out.old.items ++ function_texts plan.now.parts.now.functions plan.now.layout) }
{
    let functions = plan.parts.functions.as_slice();
    for (number, func) in functions.iter().enumerate() {
        let at = plan.functions[number];
        let mut code = code_with_fixes(*out.allocator(), plan, func, at)?;
        pad(&mut code, 16, FILLER)?;
        put(out, code.as_slice())?;
    }
    Ok(())
}

// The code of a function at the address `at`, with its fixes written.
#[tactic(auto, unfolding(crate::specs::Text::fixed_code))]
fn code_with_fixes(alloc: Global, plan: &Plan, func: &Func, at: u64) -> Result<Vec<u8>, OutOfMemory>
    requires plan { IsPlan plan.now }
    requires fits { FuncFits plan.now.parts.now func.now }
    requires low { at < 2 ^ 31 }
    ensures { IfOk result (λ code. code.items
        ≡ fixed_code plan.now.parts.now.functions plan.now.layout at func.now) }
{
    let mut code = Vec::from_slice(alloc, func.code.as_slice())?;
    let fixes = func.fixes.as_slice();
    for fix in fixes {
        let behind = at + fix.0 as u64 + 4;
        let field = distance(target_address(plan, fix.1), behind).to_le_bytes();
        write_at(&mut code, fix.0 as usize, &field);
    }
    Ok(code)
}

// `to` less `from`, as two's complement.
fn distance(to: u64, from: u64) -> u32
    requires to { to < 2 ^ 32 }
    requires from { from < 2 ^ 32 }
    ensures { result ≡ difference to from }
{
    ((to + 0x1_0000_0000 - from) % 0x1_0000_0000) as u32
}

// The address of a fix's target.
fn target_address(plan: &Plan, target: Target) -> u64
    requires plan { IsPlan plan.now }
    requires there { IsThere plan.now.parts.now target }
    ensures value { result ≡ target_at plan.now.parts.now.functions plan.now.layout target }
    ensures low { result < 2 ^ 31 }
{
    match target {
        Target::Function(number) => plan.functions[number as usize],
        Target::Stub(number) => plan.layout.stubs + 16 * number as u64,
        Target::Tables(byte) => plan.layout.lucet_tables + byte as u64,
        Target::Data(byte) => plan.layout.content + byte as u64,
    }
}

#[tactic(auto, unfolding(crate::specs::Text::stub_texts))]
fn put_stubs(out: &mut Vec<u8>, plan: &Plan) -> Result<(), OutOfMemory>
    requires { IsPlan plan.now }
    ensures { OnOk result (out.new.items
        ≡ out.old.items ++ stub_texts plan.now.parts.now.imports plan.now.layout) }
{
    for number in 0..plan.sizes.imports {
        put_stub(
            out,
            plan.layout.stubs + 16 * number,
            plan.layout.slots + 8 * number,
        )?;
    }
    Ok(())
}

// Appends the stub at the address `at`, which jumps to the address in the slot at `slot`.
fn put_stub(out: &mut Vec<u8>, at: u64, slot: u64) -> Result<(), OutOfMemory>
    requires at { at < 2 ^ 31 }
    requires slot { slot < 2 ^ 31 }
    ensures { OnOk result (out.new.items
        ≡ out.old.items ++ padded 16 0xCC (0xFF ∷ 0x25 ∷ little_bytes 4 (difference slot (at + 6)))) }
{
    put(out, &[0xFF, 0x25])?;
    put_u32(out, distance(slot, at + 6))?;
    put(out, &[FILLER; 10])?;
    Ok(())
}
