ghost use Rattle.std.specs.Prelude.{◌≡◌, ◌↔◌, IsTrue};

use crate::{Count, Insn, Mem, Place, Reg, Source, Width, XmmOperand, XmmRow};

/// Whether two instructions are the same value.
pub fn same_insn(a: &Insn, b: &Insn) -> bool
    ensures { IsTrue result ↔ (a.now ≡ b.now) }
{
    match *a {
        Insn::Alu { op, w, dst, src } => {
            matches!(*b, Insn::Alu { op: o, w: v, dst: d, src: s } if op == o && w == v && same_place(dst, d) && same_source(src, s))
        }
        Insn::Push { src } => matches!(*b, Insn::Push { src: s } if same_source(src, s)),
        Insn::Pop { dst } => matches!(*b, Insn::Pop { dst: d } if dst == d),
        Insn::Extend {
            signed,
            from,
            to,
            dst,
            src,
        } => {
            matches!(*b, Insn::Extend { signed: g, from: f, to: t, dst: d, src: s } if signed == g && from == f && same_read(to, dst, src, t, d, s))
        }
        Insn::Imul { w, dst, src, imm } => {
            matches!(*b, Insn::Imul { w: v, dst: d, src: s, imm: i } if same_read(w, dst, src, v, d, s) && same_number(imm, i))
        }
        Insn::Jcc { cond, rel } =>
            matches!(*b, Insn::Jcc { cond: c, rel: r } if cond == c && rel == r),
        Insn::Jump { rel } => matches!(*b, Insn::Jump { rel: r } if rel == r),
        Insn::Call { rel } => matches!(*b, Insn::Call { rel: r } if rel == r),
        Insn::Ret => matches!(*b, Insn::Ret),
        Insn::Leave => matches!(*b, Insn::Leave),
        Insn::CallInd { src } => matches!(*b, Insn::CallInd { src: s } if same_place(src, s)),
        Insn::JumpInd { src } => matches!(*b, Insn::JumpInd { src: s } if same_place(src, s)),
        Insn::Test { w, a: x, b: y } => {
            matches!(*b, Insn::Test { w: v, a: p, b: q } if w == v && same_place(x, p) && same_source(y, q))
        }
        Insn::Xchg { w, a: x, b: y } =>
            matches!(*b, Insn::Xchg { w: v, a: p, b: q } if w == v && same_pair((x, y), (p, q))),
        Insn::Mov { w, dst, src } => {
            matches!(*b, Insn::Mov { w: v, dst: d, src: s } if w == v && same_place(dst, d) && same_source(src, s))
        }
        Insn::MovImm64 { dst, imm } =>
            matches!(*b, Insn::MovImm64 { dst: d, imm: i } if dst == d && imm == i),
        Insn::Lea { w, dst, mem } =>
            matches!(*b, Insn::Lea { w: v, dst: d, mem: m } if w == v && dst == d && same_mem(mem, m)),
        Insn::Nop => matches!(*b, Insn::Nop),
        Insn::Widen { w } => matches!(*b, Insn::Widen { w: v } if w == v),
        Insn::SignA { w } => matches!(*b, Insn::SignA { w: v } if w == v),
        Insn::Shift { op, w, dst, by } => {
            matches!(*b, Insn::Shift { op: o, w: v, dst: d, by: n } if op == o && w == v && same_place(dst, d) && same_count(by, n))
        }
        Insn::Unary { op, w, dst } =>
            matches!(*b, Insn::Unary { op: o, w: v, dst: d } if op == o && w == v && same_place(dst, d)),
        Insn::MulDiv { op, w, src } =>
            matches!(*b, Insn::MulDiv { op: o, w: v, src: s } if op == o && w == v && same_place(src, s)),
        Insn::Ud2 => matches!(*b, Insn::Ud2),
        Insn::Cmov { cond, w, dst, src } => {
            matches!(*b, Insn::Cmov { cond: c, w: v, dst: d, src: s } if cond == c && same_read(w, dst, src, v, d, s))
        }
        Insn::Set { cond, dst } =>
            matches!(*b, Insn::Set { cond: c, dst: d } if cond == c && same_place(dst, d)),
        Insn::Bits { op, w, dst, src } => {
            matches!(*b, Insn::Bits { op: o, w: v, dst: d, src: s } if op == o && same_read(w, dst, src, v, d, s))
        }
        Insn::Bt { w, a: x, bit } =>
            matches!(*b, Insn::Bt { w: v, a: p, bit: n } if w == v && x == p && same_source(bit, n)),
        Insn::Bswap { w, dst } => matches!(*b, Insn::Bswap { w: v, dst: d } if w == v && dst == d),
        Insn::Endbr => matches!(*b, Insn::Endbr),
        Insn::Xmm {
            row,
            wide,
            reg,
            rm,
            imm,
        } => {
            matches!(*b, Insn::Xmm { row: o, wide: v, reg: r, rm: m, imm: i } if same_row(row, o) && wide == v && reg == r && same_xmm_operand(rm, m) && imm == i)
        }
    }
}

fn same_mem(a: Mem, b: Mem) -> bool
    ensures { IsTrue result ↔ (a ≡ b) }
{
    a.base == b.base && same_index(a.index, b.index) && a.disp == b.disp
}

fn same_place(a: Place, b: Place) -> bool
    ensures { IsTrue result ↔ (a ≡ b) }
{
    match (a, b) {
        (Place::Reg(a), Place::Reg(b)) => a == b,
        (Place::High(a), Place::High(b)) => a == b,
        (Place::Mem(a), Place::Mem(b)) => same_mem(a, b),
        _ => false,
    }
}

fn same_source(a: Source, b: Source) -> bool
    ensures { IsTrue result ↔ (a ≡ b) }
{
    match (a, b) {
        (Source::Place(a), Source::Place(b)) => same_place(a, b),
        (Source::Imm(a), Source::Imm(b)) => a == b,
        _ => false,
    }
}

fn same_read(w: Width, dst: Reg, src: Place, v: Width, d: Reg, s: Place) -> bool
    ensures { IsTrue result ↔ ((w ≡ v) × (dst ≡ d) × (src ≡ s)) }
{
    w == v && dst == d && same_place(src, s)
}

fn same_pair(a: (Reg, Reg), b: (Reg, Reg)) -> bool
    ensures { IsTrue result ↔ (a ≡ b) }
{
    a.0 == b.0 && a.1 == b.1
}

fn same_index(a: Option<(Reg, u8)>, b: Option<(Reg, u8)>) -> bool
    ensures { IsTrue result ↔ (a ≡ b) }
{
    match (a, b) {
        (None, None) => true,
        (Some((a, s)), Some((b, t))) => a == b && s == t,
        _ => false,
    }
}

fn same_number(a: Option<i32>, b: Option<i32>) -> bool
    ensures { IsTrue result ↔ (a ≡ b) }
{
    match (a, b) {
        (None, None) => true,
        (Some(a), Some(b)) => a == b,
        _ => false,
    }
}

fn same_count(a: Count, b: Count) -> bool
    ensures { IsTrue result ↔ (a ≡ b) }
{
    match (a, b) {
        (Count::Cl, Count::Cl) => true,
        (Count::Imm(a), Count::Imm(b)) => a == b,
        _ => false,
    }
}

fn same_xmm_operand(a: XmmOperand, b: XmmOperand) -> bool
    ensures { IsTrue result ↔ (a ≡ b) }
{
    match (a, b) {
        (XmmOperand::Reg(a), XmmOperand::Reg(b)) => a == b,
        (XmmOperand::Mem(a), XmmOperand::Mem(b)) => same_mem(a, b),
        _ => false,
    }
}

fn same_row(a: XmmRow, b: XmmRow) -> bool
    ensures { IsTrue result ↔ (a ≡ b) }
{
    a == b
}
