ghost use Rattle.std.specs.Prelude.{◌≡◌, ◌↔◌, ◌<◌, ◌≤◌, IsTrue, Some, None, IfSome, MatchOption};
ghost use Rattle.vw_insn.specs.declared.instruction.Insn.{Insn};
ghost use Rattle.vw_rows.specs.declared.forms.Row.{Row};
ghost use Rattle.vw_rows.specs.Rows.{rows};
ghost use Rattle.vw_rows.specs.Lookup.{IsIn};
ghost use Rattle.vw_rows.specs.Parts.{Parts, rex_w};
ghost use Rattle.vw_rows.specs.Layout.{IsRex, IsLaid, key_of, width_at, has_sib};
ghost use Rattle.vw_rows.specs.Views.{modrm_view, optional_view, parts_view};
ghost use Rattle.vw_encode.specs.Order.{mode_of, scale_of, rank_of};
ghost use Rattle.vw_encode.specs.search.Found.{Made, AtMost, FirstOf, Best};
ghost use Rattle.vw_encode.specs.search.Candidate.{optional_modrm};
ghost use Rattle.vw_rows.specs.Meaning.{built, insn_of};
ghost use Rattle.vw_encode.specs.search.Asked.{operands_asked};
ghost use Rattle.vw_encode.specs.search.Normal.{Normal, IsChosen, Without, same_bool, address_fits, modrm_fits, is_laid, shape_asked};

use crate::asked::{Asked, asked_by};
use crate::buffer::{Spelled, write_parts};
use crate::candidate::{
    Choice, displacement_block, immediate_block, modrm_byte, opcode_byte, operand_memory, sib_field,
};
use crate::kinds::candidates;
use crate::lean::is_lean;
use vw_insn::{Insn, Width, same_insn};
use vw_rows::{
    Key, Modrm, Parts, Prefix, Prefixes, Row, Shape, built, displacement_length, has_fixed,
    has_modrm, immediate_length, insn_of, is_match, rex_w, row_numbered, takes_sib, width_at,
};

// The first spelling by the first row of the instruction's kind that has any.
pub(crate) fn first_spelling(insn: &Insn) -> Option<Spelled>
    ensures { Best result insn.now }
{
    let wanted = asked_by(insn);
    for number in candidates(insn) {
        if let Some(spelled) = in_numbered(*number, &wanted, insn) {
            return Some(spelled);
        }
    }
    None
}

// The first spelling by the row of the number.
fn in_numbered(number: u16, wanted: &Asked, insn: &Insn) -> Option<Spelled>
    requires wanted { wanted.now ≡ operands_asked insn.now }
    ensures { (r : Row) → IsIn r rows → r.number ≡ number → MatchOption result (Without r insn.now (λ p. Unit {0})) (λ s. FirstOf s r insn.now (λ q. Unit {0}) (λ p. Unit {0})) }
{
    match row_numbered(number) {
        None => None,
        Some(row) => in_row(row, wanted, insn),
    }
}

fn in_row(row: Row, wanted: &Asked, insn: &Insn) -> Option<Spelled>
    requires listed { IsIn row rows }
    requires wanted { wanted.now ≡ operands_asked insn.now }
    ensures { MatchOption result (Without row insn.now (λ p. Unit {0})) (λ s. FirstOf s row insn.now (λ q. Unit {0}) (λ p. Unit {0})) }
{
    match row.pattern.prefixes {
        Prefixes::Plain => with_prefix(row, Prefix::Plain, wanted, insn),
        Prefixes::PlainOr66 => {
            if let Some(spelled) = with_prefix(row, Prefix::Plain, wanted, insn) {
                return Some(spelled);
            }
            with_prefix(row, Prefix::P66, wanted, insn)
        }
        Prefixes::P66 => with_prefix(row, Prefix::P66, wanted, insn),
        Prefixes::PF2 => with_prefix(row, Prefix::PF2, wanted, insn),
        Prefixes::PF3 => with_prefix(row, Prefix::PF3, wanted, insn),
    }
}

// Without REX, else with the least bits of REX of those that the row reads.
fn with_prefix(row: Row, prefix: Prefix, wanted: &Asked, insn: &Insn) -> Option<Spelled>
    requires listed { IsIn row rows }
    requires wanted { wanted.now ≡ operands_asked insn.now }
    ensures { MatchOption result (Without row insn.now (λ p. p.prefix ≡ prefix)) (λ s. FirstOf s row insn.now (λ q. q.prefix ≡ prefix) (λ p. p.prefix ≡ prefix)) }
{
    if let Some(spelled) = with_rex(row, prefix, None, wanted, insn) {
        return Some(spelled);
    }
    for bits in 0..16 {
        if let Some(spelled) = with_bits(row, prefix, bits, wanted, insn) {
            return Some(spelled);
        }
    }
    None
}

fn with_bits(row: Row, prefix: Prefix, bits: u8, wanted: &Asked, insn: &Insn) -> Option<Spelled>
    requires listed { IsIn row rows }
    requires wanted { wanted.now ≡ operands_asked insn.now }
    requires rex { bits < 16 }
    ensures { MatchOption result (Without row insn.now (λ p. (p.prefix ≡ prefix) × (p.rex ≡ Some bits))) (λ s. FirstOf s row insn.now (λ q. (q.prefix ≡ prefix) × (q.rex ≡ Some bits)) (λ p. (p.prefix ≡ prefix) × (p.rex ≡ Some bits))) }
{
    if !is_lean(row, bits) {
        return None;
    }
    with_rex(row, prefix, Some(bits), wanted, insn)
}

// A register, else memory without SIB, else memory with SIB, the least scale first.
fn with_rex(
    row: Row,
    prefix: Prefix,
    rex: Option<u8>,
    wanted: &Asked,
    insn: &Insn,
) -> Option<Spelled>
    requires listed { IsIn row rows }
    requires wanted { wanted.now ≡ operands_asked insn.now }
    requires rex { IsRex rex }
    ensures { MatchOption result (Without row insn.now (λ p. (p.prefix ≡ prefix) × (p.rex ≡ rex))) (λ s. FirstOf s row insn.now (λ q. (q.prefix ≡ prefix) × (q.rex ≡ rex)) (λ p. (p.prefix ≡ prefix) × (p.rex ≡ rex))) }
{
    let w = width_at(row.width, prefix, rex_w(rex))?;
    if !may_mean(row, w, wanted, insn) {
        return None;
    }
    let register = Choice {
        prefix,
        rex,
        mode: 3,
        scale: None,
    };
    if let Some(spelled) = attempt(row, w, register, wanted, insn) {
        return Some(spelled);
    }
    if let Some(spelled) = in_memory(row, w, register, wanted, insn) {
        return Some(spelled);
    }
    for scale in 0..4 {
        let indexed = Choice {
            scale: Some(scale),
            ..register
        };
        if let Some(spelled) = in_memory(row, w, indexed, wanted, insn) {
            return Some(spelled);
        }
    }
    None
}

// Memory: without displacement, else with one byte of it, else with four.
fn in_memory(row: Row, w: Width, choice: Choice, wanted: &Asked, insn: &Insn) -> Option<Spelled>
    requires listed { IsIn row rows }
    requires wanted { wanted.now ≡ operands_asked insn.now }
    requires rex { IsRex choice.rex }
    requires scale { IfSome choice.scale (λ s. s < 4) }
    requires width { width_at row.width choice.prefix (rex_w choice.rex) ≡ Some w }
    ensures { MatchOption result (Without row insn.now (λ p. (p.prefix ≡ choice.prefix) × (p.rex ≡ choice.rex) × (scale_of p.modrm ≡ choice.scale) × (mode_of p.modrm < 3))) (λ s. FirstOf s row insn.now (λ q. (q.prefix ≡ choice.prefix) × (q.rex ≡ choice.rex) × (rank_of (scale_of q.modrm) ≤ rank_of choice.scale)) (λ p. (p.prefix ≡ choice.prefix) × (p.rex ≡ choice.rex) × (scale_of p.modrm ≡ choice.scale) × (mode_of p.modrm < 3))) }
{
    for mode in 0..3 {
        let addressed = Choice { mode, ..choice };
        if let Some(spelled) = attempt(row, w, addressed, wanted, insn) {
            return Some(spelled);
        }
    }
    None
}

// The one spelling by the row that is as chosen, if there is one.
fn attempt(row: Row, w: Width, choice: Choice, wanted: &Asked, insn: &Insn) -> Option<Spelled>
    requires listed { IsIn row rows }
    requires wanted { wanted.now ≡ operands_asked insn.now }
    requires rex { IsRex choice.rex }
    requires mode { choice.mode < 4 }
    requires scale { IfSome choice.scale (λ s. s < 4) }
    requires width { width_at row.width choice.prefix (rex_w choice.rex) ≡ Some w }
    ensures { MatchOption result (Without row insn.now (λ p. IsChosen p choice)) (λ s. FirstOf s row insn.now (λ q. AtMost q choice) (λ p. IsChosen p choice)) }
{
    let mem = operand_memory(row.operands, wanted);
    let byte = modrm_byte(row, choice, wanted);
    let sib = sib_field(choice.scale, mem);
    let disp = displacement_block(mem);
    let block = immediate_block(row.immediate, w, wanted);
    let modrm = Modrm {
        byte,
        sib,
        disp: &disp[..displacement_length(byte, sib)],
    };
    let parts = Parts {
        prefix: choice.prefix,
        rex: choice.rex,
        map: row.pattern.map,
        opcode: opcode_byte(row.pattern, wanted),
        modrm: optional_modrm(has_modrm(row.operands), modrm),
        imm: &block[..immediate_length(row.immediate, w)],
    };
    spelled_by(row, w, &parts, insn)
}

fn optional_modrm(is_there: bool, modrm: Modrm<'_>) -> Option<Modrm<'_>>
    ensures { optional_view result ≡ optional_modrm is_there (modrm_view modrm.entry) }
{
    if is_there { Some(modrm) } else { None }
}

// The bytes of the parts, where they are the instruction by the row.
fn spelled_by(row: Row, w: Width, parts: &Parts<'_>, insn: &Insn) -> Option<Spelled>
    requires listed { IsIn row rows }
    requires rex { IsRex parts.now.rex }
    requires width { width_at row.width parts.now.prefix (rex_w parts.now.rex) ≡ Some w }
    ensures { MatchOption result (IsLaid (parts_view parts.now) row w → insn_of row w (parts_view parts.now) ≡ insn.now → ⊥) (λ s. Made s (parts_view parts.now) row w insn.now) }
{
    if !is_laid(row, w, parts) {
        return None;
    }
    if !same_insn(&insn_of(row, w, parts), insn) {
        return None;
    }
    let spelled = write_parts(parts)?;
    Some(spelled)
}

fn is_laid(row: Row, w: Width, parts: &Parts<'_>) -> bool
    ensures { result ≡ is_laid row w (parts_view parts.now) }
{
    is_match(&row, key_of(parts))
        && modrm_fits(has_modrm(row.operands), parts.modrm)
        && parts.imm.len() == immediate_length(row.immediate, w)
        && has_fixed(row.operands, parts)
}

fn modrm_fits(is_there: bool, modrm: Option<Modrm<'_>>) -> bool
    ensures { result ≡ modrm_fits is_there (optional_view modrm.entry) }
{
    match modrm {
        None => !is_there,
        Some(m) => { if is_there { address_fits(m) } else { false } }
    }
}

fn address_fits(m: Modrm<'_>) -> bool
    ensures { result ≡ address_fits (modrm_view m.entry) }
{
    same_bool(takes_sib(m.byte), has_sib(m.sib))
        && m.disp.len() == displacement_length(m.byte, m.sib)
}

fn same_bool(a: bool, b: bool) -> bool
    ensures { result ≡ same_bool a b }
{
    if a { b } else { !b }
}

fn has_sib(sib: Option<u8>) -> bool
    ensures { result ≡ has_sib sib }
{
    match sib {
        None => false,
        Some(_) => true,
    }
}

fn key_of(parts: &Parts<'_>) -> Key
    ensures { result ≡ key_of (parts_view parts.now) }
{
    let byte = match parts.modrm {
        None => 0,
        Some(m) => m.byte,
    };
    Key {
        prefix: parts.prefix,
        map: parts.map,
        opcode: parts.opcode,
        digit: byte / 8 % 8,
        register_form: byte / 64 == 3,
    }
}

// Whether an instruction of the row may have these operands at the width.
fn may_mean(row: Row, w: Width, wanted: &Asked, insn: &Insn) -> bool
    ensures { IsTrue result ↔ (built row.kind row.immediate (shape_asked w wanted.now) ≡ insn.now) }
{
    let shape = Shape {
        w,
        first: wanted.first,
        second: wanted.second,
        signed: wanted.signed,
        byte: wanted.byte,
        word: wanted.word,
        reg: wanted.reg,
        rm: wanted.rm,
    };
    same_insn(&built(row.kind, row.immediate, shape), insn)
}
