ghost use Rattle.std.specs.Prelude.{◌≡◌, ◌≤◌, ◌++◌, IfOk, OnOk};
ghost use Rattle.std.specs.List.{All};
ghost use Rattle.vw_decode.specs.Lexing.{read};
ghost use Rattle.vw_rows.specs.Numbers.{IsBytes};
ghost use Rattle.vw_state.specs.Bounds.{bounds_in, bounds_near, bounds_of, bounds_read, counted_immediate, immediate, is_bounding};

use crate::opcodes::may_count;
use std::alloc::Global;
use vw_bits::OutOfMemory;
use vw_decode::{decode, read_is_spelling};
use vw_insn::{AluOp, Insn, Source, Width, word_of};
use vw_values::Bounds;

/// The bounds that values of a function with this code may name, in a module whose tables have these numbers of entries:
/// the powers of two from 2^0 to 2^33; the numbers of entries from 1 on; and for each immediate of a CMP, an AND or a MOV
/// that decodes at any byte of the code, it and the next number, where they are 1 to 2^32. OutOfMemory where the
/// allocator refuses a request.
pub fn bounds_of(alloc: Global, code: &[u8], lengths: &[u64]) -> Result<Bounds, OutOfMemory>
    requires bytes { IsBytes code.now }
    requires lengths { All (λ n. n ≤ 65536) lengths.now }
    ensures { IfOk result (λ bounds. bounds ≡ bounds_of code.now lengths.now) }
{
    let found = candidates(alloc, code, lengths)?;
    Bounds::new(alloc, found.as_slice())
}

// The numbers of entries, and those near the immediates that decode at any byte of the code, in no order.
fn candidates(alloc: Global, code: &[u8], lengths: &[u64]) -> Result<Vec<u64>, OutOfMemory>
    requires { IsBytes code.now }
    ensures { IfOk result (λ found. found.items ≡ lengths.now ++ bounds_in code.now) }
{
    let mut found = Vec::new(alloc);
    found.extend_from_slice(lengths)?;
    for at in 0..code.len() {
        push_near(&mut found, immediate_at(&code[at..]))?;
    }
    Ok(found)
}

// An immediate and the next number, where they are 1 to 2^32.
fn push_near(found: &mut Vec<u64>, immediate: Option<u64>) -> Result<(), OutOfMemory>
    ensures { OnOk result (found.new.items ≡ found.old.items ++ bounds_near immediate) }
{
    if let Some(number) = immediate {
        if 1 <= number && number <= 0x1_0000_0000 {
            found.push(number)?;
        }
        if number < 0x1_0000_0000 {
            found.push(number + 1)?;
        }
    }
    Ok(())
}

// The immediate that counts of the instruction at the front of the bytes, where one decodes there and has one.
fn immediate_at(bytes: &[u8]) -> Option<u64>
    requires { IsBytes bytes.now }
    ensures { bounds_near result ≡ bounds_read (read bytes.now) }
{
    read_is_spelling();
    if !may_count(bytes) {
        return None;
    }
    match decode(bytes) {
        Some((insn, _)) => counted_immediate(&insn),
        None => None,
    }
}

// The immediate of CMP, AND and MOV.
fn counted_immediate(insn: &Insn) -> Option<u64>
    ensures { result ≡ counted_immediate insn.now }
{
    match *insn {
        Insn::Alu { op, w, src, .. } if is_bounding(op) => immediate(w, src),
        Insn::Mov { w, src, .. } => immediate(w, src),
        _ => None,
    }
}

// Whether an operation bounds a value by its immediate.
fn is_bounding(op: AluOp) -> bool
    ensures { result ≡ is_bounding op }
{
    matches!(op, AluOp::And | AluOp::Cmp)
}

// An immediate operand as an unsigned number of the operand's width.
fn immediate(w: Width, src: Source) -> Option<u64>
    ensures { result ≡ immediate w src }
{
    match src {
        Source::Place(_) => None,
        Source::Imm(imm) => Some(w.low(word_of(imm))),
    }
}
