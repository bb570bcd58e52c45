ghost use Rattle.std.specs.Prelude.{◌≡◌, ◌++◌, OnOk, OnErr, codes};
ghost use Rattle.vw_insn.specs.Listed.{IsListed};
ghost use Rattle.vw_insn.specs.Text.{insn_text, signed_text, base_text, index_text, mem_text, operand_text, led_text, operands_text, has_base, joining};

use crate::mnemonics::{condition_name, stem_name};
use crate::names::{high_name, reg_name, reg64_name};
use crate::printed::{Operand, Operands, printed_operands};
use crate::{Base, Insn, Mem, Reg};
use std::alloc::Global;
use vw_bits::{OutOfMemory, Text};

/// Appends an instruction as it is printed: the SDM's mnemonic in lower case, then the operands, the
/// destination first. Memory is `[BASE+INDEX*SCALE+0xDISP]`, an immediate `0x` and its bits at its
/// width, a direct target `+0x` and its offset from the function's start, where `next` is the offset of
/// the next instruction. Where memory is refused, `out` stays as it was.
#[tactic(auto, unfolding(crate::specs::Text::insn_text))]
pub fn text(alloc: Global, insn: &Insn, next: u32, out: &mut Text) -> Result<(), OutOfMemory>
    requires { IsListed insn.now }
    ensures ok { OnOk result (out.new ≡ out.old ++ insn_text insn.now next) }
    ensures err { OnErr result (out.new ≡ out.old) }
{
    let mut line = Text::new(alloc);
    line.push(stem_name(insn).as_bytes())?;
    line.push(condition_name(insn).as_bytes())?;
    write_operands(&mut line, printed_operands(insn, next))?;
    out.push(line.as_slice())
}

fn write_operands(line: &mut Text, operands: Operands) -> Result<(), OutOfMemory>
    ensures { OnOk result (line.new ≡ line.old ++ operands_text operands) }
{
    write_led(line, b" ", operands.first)?;
    write_led(line, b", ", operands.second)?;
    write_led(line, b", ", operands.third)
}

fn write_led(line: &mut Text, lead: &[u8], operand: Option<Operand>) -> Result<(), OutOfMemory>
    ensures { OnOk result (line.new ≡ line.old ++ led_text lead.now operand) }
{
    match operand {
        None => Ok(()),
        Some(operand) => {
            line.push(lead)?;
            write_operand(line, operand)
        }
    }
}

fn write_operand(line: &mut Text, operand: Operand) -> Result<(), OutOfMemory>
    ensures { OnOk result (line.new ≡ line.old ++ operand_text operand) }
{
    match operand {
        Operand::Reg(w, reg) => line.push(reg_name(w, reg).as_bytes()),
        Operand::High(high) => line.push(high_name(high).as_bytes()),
        Operand::Mem(mem) => write_mem(line, mem),
        Operand::Imm(bits) => write_imm(line, bits),
        Operand::Target(place) => write_signed(line, b"+", place),
        Operand::Cl => line.push(b"cl"),
        Operand::Xmm(number) => write_xmm(line, number),
    }
}

fn write_imm(line: &mut Text, bits: u64) -> Result<(), OutOfMemory>
    ensures { OnOk result (line.new ≡ line.old ++ operand_text (Operand.Imm bits)) }
{
    line.push(b"0x")?;
    line.hex(bits, 1)
}

fn write_xmm(line: &mut Text, number: u8) -> Result<(), OutOfMemory>
    ensures { OnOk result (line.new ≡ line.old ++ operand_text (Operand.Xmm number)) }
{
    line.push(b"xmm")?;
    line.dec(u64::from(number))
}

fn write_mem(line: &mut Text, mem: Mem) -> Result<(), OutOfMemory>
    ensures { OnOk result (line.new ≡ line.old ++ mem_text mem) }
{
    let based = names_base(mem.base);
    let joined = based || mem.index.is_some();
    line.push(b"[")?;
    write_base(line, mem.base)?;
    write_index(line, join(based), mem.index)?;
    write_signed(line, join(joined), i64::from(mem.disp))?;
    line.push(b"]")
}

fn write_base(line: &mut Text, base: Base) -> Result<(), OutOfMemory>
    ensures { OnOk result (line.new ≡ line.old ++ base_text base) }
{
    match base {
        Base::None => Ok(()),
        Base::Reg(reg) => line.push(reg64_name(reg).as_bytes()),
        Base::Rip => line.push(b"rip"),
    }
}

fn write_index(line: &mut Text, join: &[u8], index: Option<(Reg, u8)>) -> Result<(), OutOfMemory>
    ensures { OnOk result (line.new ≡ line.old ++ index_text join.now index) }
{
    match index {
        None => Ok(()),
        Some((reg, scale)) => {
            line.push(join)?;
            line.push(reg64_name(reg).as_bytes())?;
            line.push(b"*")?;
            line.dec(u64::from(scale))
        }
    }
}

fn write_signed(line: &mut Text, plus: &[u8], value: i64) -> Result<(), OutOfMemory>
    ensures { OnOk result (line.new ≡ line.old ++ signed_text plus.now value) }
{
    if value < 0 {
        line.push(b"-0x")?;
    } else {
        line.push(plus)?;
        line.push(b"0x")?;
    }
    line.hex(value.unsigned_abs(), 1)
}

fn names_base(base: Base) -> bool
    ensures { result ≡ has_base base }
{
    match base {
        Base::None => false,
        Base::Reg(_) | Base::Rip => true,
    }
}

fn join(something_before: bool) -> &'static [u8]
    ensures { result.now ≡ joining something_before }
{
    if something_before { b"+" } else { b"" }
}
