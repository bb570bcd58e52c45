ghost use Rattle.std.specs.Prelude.{◌≡◌, pos};
ghost use Rattle.vw_insn.specs.declared.registers.Reg.TheVariants.{Rax};
ghost use Rattle.vw_insn.specs.declared.operands.Place.TheVariants as place;
ghost use Rattle.vw_encode.specs.search.Asked.{places, with_word, with_byte, on_xmm, place_in, signed_in, count_in, signed_or_none, operands_asked, place_number, xmm_number, no_memory, place_memory, xmm_memory};

use vw_insn::{Base, Count, HighReg, Insn, Mem, Place, Reg, Source, XmmOperand};

// The operands of an instruction, each where a row of its kind would name it. What the instruction does
// not have is `Rax`, or 0.
#[derive(Clone, Copy)]
pub(crate) struct Asked {
    pub(crate) first: Place,
    pub(crate) second: Place,
    pub(crate) signed: i32,
    pub(crate) byte: u8,
    pub(crate) word: u64,
    pub(crate) reg: u8,
    pub(crate) rm: XmmOperand,
}

pub(crate) fn asked_by(insn: &Insn) -> Asked
    ensures { result ≡ operands_asked insn.now }
{
    let none = Place::Reg(Reg::Rax);
    match *insn {
        Insn::Alu { dst, src, .. } => places(dst, place_in(src), signed_in(src)),
        Insn::Push { src } => places(place_in(src), none, signed_in(src)),
        Insn::Pop { dst } => register(dst),
        Insn::Extend { dst, src, .. } => read_into(dst, src, 0),
        Insn::Imul { dst, src, imm, .. } => read_into(dst, src, signed_or_none(imm)),
        Insn::Jcc { rel, .. } => places(none, none, rel),
        Insn::Jump { rel } => places(none, none, rel),
        Insn::Call { rel } => places(none, none, rel),
        Insn::CallInd { src } => places(src, none, 0),
        Insn::JumpInd { src } => places(src, none, 0),
        Insn::Test { a, b, .. } => places(a, place_in(b), signed_in(b)),
        Insn::Xchg { a, b, .. } => read_into(a, Place::Reg(b), 0),
        Insn::Mov { dst, src, .. } => places(dst, place_in(src), signed_in(src)),
        Insn::MovImm64 { dst, imm } => with_word(dst, imm),
        Insn::Lea { dst, mem, .. } => read_into(dst, Place::Mem(mem), 0),
        Insn::Shift { dst, by, .. } => with_byte(dst, count_in(by)),
        Insn::Unary { dst, .. } => places(dst, none, 0),
        Insn::MulDiv { src, .. } => places(src, none, 0),
        Insn::Cmov { dst, src, .. } => read_into(dst, src, 0),
        Insn::Set { dst, .. } => places(dst, none, 0),
        Insn::Bits { dst, src, .. } => read_into(dst, src, 0),
        Insn::Bt { a, bit, .. } => read_into(a, place_in(bit), signed_in(bit)),
        Insn::Bswap { dst, .. } => register(dst),
        Insn::Xmm { reg, rm, imm, .. } => on_xmm(reg, rm, imm),
        _ => places(none, none, 0),
    }
}

fn register(reg: Reg) -> Asked
    ensures { result ≡ places (place.Reg reg) (place.Reg Rax) (pos 0) }
{
    places(Place::Reg(reg), Place::Reg(Reg::Rax), 0)
}

fn read_into(dst: Reg, src: Place, signed: i32) -> Asked
    ensures { result ≡ places (place.Reg dst) src signed }
{
    places(Place::Reg(dst), src, signed)
}

fn with_word(dst: Reg, word: u64) -> Asked
    ensures { result ≡ with_word dst word }
{
    let mut asked = register(dst);
    asked.word = word;
    asked
}

fn with_byte(dst: Place, byte: u8) -> Asked
    ensures { result ≡ with_byte dst byte }
{
    let mut asked = places(dst, Place::Reg(Reg::Rax), 0);
    asked.byte = byte;
    asked
}

fn on_xmm(reg: u8, rm: XmmOperand, byte: u8) -> Asked
    ensures { result ≡ on_xmm reg rm byte }
{
    let mut asked = register(Reg::Rax);
    asked.byte = byte;
    asked.reg = reg;
    asked.rm = rm;
    asked
}

fn places(first: Place, second: Place, signed: i32) -> Asked
    ensures { result ≡ places first second signed }
{
    Asked {
        first,
        second,
        signed,
        byte: 0,
        word: 0,
        reg: 0,
        rm: XmmOperand::Reg(0),
    }
}

fn place_in(source: Source) -> Place
    ensures { result ≡ place_in source }
{
    match source {
        Source::Place(place) => place,
        Source::Imm(_) => Place::Reg(Reg::Rax),
    }
}

fn signed_in(source: Source) -> i32
    ensures { result ≡ signed_in source }
{
    match source {
        Source::Place(_) => 0,
        Source::Imm(n) => n,
    }
}

fn signed_or_none(imm: Option<i32>) -> i32
    ensures { result ≡ signed_or_none imm }
{
    match imm {
        None => 0,
        Some(n) => n,
    }
}

fn count_in(count: Count) -> u8
    ensures { result ≡ count_in count }
{
    match count {
        Count::Cl => 0,
        Count::Imm(n) => n,
    }
}

// The number by which a field names the register, 0 for memory.
pub(crate) fn place_number(place: Place) -> u8
    ensures { result ≡ place_number place }
{
    match place {
        Place::Reg(reg) => reg.number(),
        Place::High(HighReg::Ah) => 4,
        Place::High(HighReg::Ch) => 5,
        Place::High(HighReg::Dh) => 6,
        Place::High(HighReg::Bh) => 7,
        Place::Mem(_) => 0,
    }
}

pub(crate) fn xmm_number(operand: XmmOperand) -> u8
    ensures { result ≡ xmm_number operand }
{
    match operand {
        XmmOperand::Reg(n) => n,
        XmmOperand::Mem(_) => 0,
    }
}

pub(crate) fn place_memory(place: Place) -> Mem
    ensures { result ≡ place_memory place }
{
    match place {
        Place::Mem(mem) => mem,
        Place::Reg(_) | Place::High(_) => no_memory(),
    }
}

pub(crate) fn xmm_memory(operand: XmmOperand) -> Mem
    ensures { result ≡ xmm_memory operand }
{
    match operand {
        XmmOperand::Mem(mem) => mem,
        XmmOperand::Reg(_) => no_memory(),
    }
}

fn no_memory() -> Mem
    ensures { result ≡ no_memory }
{
    Mem {
        base: Base::None,
        index: None,
        disp: 0,
    }
}
