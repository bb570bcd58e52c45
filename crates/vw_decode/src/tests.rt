use crate::decode;
use std::process::Abort;
use vw_insn::{
    AluOp, Base, BitsOp, Cond, Count, HighReg, Insn, Mem, MulDivOp, Place, Reg, ShiftOp, Source,
    UnaryOp, Width, XmmOperand, XmmRow,
};

// The bytes of these tests are those of GNU as 2.40 for the instruction in the comment, or the SDM's
// (volume 2, chapters 2 to 5) where it writes another spelling; objdump 2.40 prints the comment for the
// bytes, but for the sizes of memory. The instructions are the meaning of that text.

fn spells(rt: &impl Abort, bytes: &[u8], insn: Insn) {
    let found = decode(bytes);
    assert!(rt; found == Some((insn, bytes.len())), "at {bytes:?}");
}

fn refuses(rt: &impl Abort, bytes: &[u8]) {
    assert!(rt; decode(bytes).is_none(), "at {bytes:?}");
}

fn memory(base: Base, index: Option<(Reg, u8)>, disp: i32) -> Mem {
    Mem { base, index, disp }
}

fn register(reg: Reg) -> Source {
    Source::Place(Place::Reg(reg))
}

fn mov(w: Width, dst: Place, src: Source) -> Insn {
    Insn::Mov { w, dst, src }
}

fn xmm(row: XmmRow, wide: bool, reg: u8, rm: XmmOperand, imm: u8) -> Insn {
    Insn::Xmm {
        row,
        wide,
        reg,
        rm,
        imm,
    }
}

fn alu(op: AluOp, w: Width, dst: Place, src: Source) -> Insn {
    Insn::Alu { op, w, dst, src }
}

/// Every form of memory: no displacement, one of one or four bytes, SIB with and without base and index, and rip.
#[test]
fn decodes_memory(rt: HostRuntime) {
    // mov eax,[rax]
    spells(
        &rt,
        &[0x8B, 0x00],
        mov(
            Width::W32,
            Place::Reg(Reg::Rax),
            Source::Place(Place::Mem(memory(Base::Reg(Reg::Rax), None, 0))),
        ),
    );
    // mov eax,[rax+0x7f]
    spells(
        &rt,
        &[0x8B, 0x40, 0x7F],
        mov(
            Width::W32,
            Place::Reg(Reg::Rax),
            Source::Place(Place::Mem(memory(Base::Reg(Reg::Rax), None, 127))),
        ),
    );
    // mov eax,[rax-0x80]
    spells(
        &rt,
        &[0x8B, 0x40, 0x80],
        mov(
            Width::W32,
            Place::Reg(Reg::Rax),
            Source::Place(Place::Mem(memory(Base::Reg(Reg::Rax), None, -128))),
        ),
    );
    // mov eax,[rax+0x12345678]
    spells(
        &rt,
        &[0x8B, 0x80, 0x78, 0x56, 0x34, 0x12],
        mov(
            Width::W32,
            Place::Reg(Reg::Rax),
            Source::Place(Place::Mem(memory(Base::Reg(Reg::Rax), None, 0x12345678))),
        ),
    );
    // mov eax,[rax-0x1]
    spells(
        &rt,
        &[0x8B, 0x80, 0xFF, 0xFF, 0xFF, 0xFF],
        mov(
            Width::W32,
            Place::Reg(Reg::Rax),
            Source::Place(Place::Mem(memory(Base::Reg(Reg::Rax), None, -1))),
        ),
    );
    // mov eax,[rip+0x10]
    spells(
        &rt,
        &[0x8B, 0x05, 0x10, 0x00, 0x00, 0x00],
        mov(
            Width::W32,
            Place::Reg(Reg::Rax),
            Source::Place(Place::Mem(memory(Base::Rip, None, 16))),
        ),
    );
    // mov eax,[rip+0xfffffffffffffff0]
    spells(
        &rt,
        &[0x41, 0x8B, 0x05, 0xF0, 0xFF, 0xFF, 0xFF],
        mov(
            Width::W32,
            Place::Reg(Reg::Rax),
            Source::Place(Place::Mem(memory(Base::Rip, None, -16))),
        ),
    );
    // mov eax,[0x1000]
    spells(
        &rt,
        &[0x8B, 0x04, 0x25, 0x00, 0x10, 0x00, 0x00],
        mov(
            Width::W32,
            Place::Reg(Reg::Rax),
            Source::Place(Place::Mem(memory(Base::None, None, 4096))),
        ),
    );
    // mov eax,[0x1000]
    spells(
        &rt,
        &[0x41, 0x8B, 0x04, 0x25, 0x00, 0x10, 0x00, 0x00],
        mov(
            Width::W32,
            Place::Reg(Reg::Rax),
            Source::Place(Place::Mem(memory(Base::None, None, 4096))),
        ),
    );
    // mov eax,[rbp+riz*1+0x8]
    spells(
        &rt,
        &[0x8B, 0x44, 0x25, 0x08],
        mov(
            Width::W32,
            Place::Reg(Reg::Rax),
            Source::Place(Place::Mem(memory(Base::Reg(Reg::Rbp), None, 8))),
        ),
    );
    // mov eax,[r13+riz*1+0x8]
    spells(
        &rt,
        &[0x41, 0x8B, 0x44, 0x25, 0x08],
        mov(
            Width::W32,
            Place::Reg(Reg::Rax),
            Source::Place(Place::Mem(memory(Base::Reg(Reg::R13), None, 8))),
        ),
    );
    // mov eax,[rsp]
    spells(
        &rt,
        &[0x8B, 0x04, 0x24],
        mov(
            Width::W32,
            Place::Reg(Reg::Rax),
            Source::Place(Place::Mem(memory(Base::Reg(Reg::Rsp), None, 0))),
        ),
    );
    // mov eax,[r12]
    spells(
        &rt,
        &[0x41, 0x8B, 0x04, 0x24],
        mov(
            Width::W32,
            Place::Reg(Reg::Rax),
            Source::Place(Place::Mem(memory(Base::Reg(Reg::R12), None, 0))),
        ),
    );
}

/// Every form of an index: each scale, none where it is 4 without REX.X, and r12 where it is 4 with REX.X.
#[test]
fn decodes_indexed_memory(rt: HostRuntime) {
    // mov eax,[rax+rcx*4+0x4]
    spells(
        &rt,
        &[0x8B, 0x44, 0x88, 0x04],
        mov(
            Width::W32,
            Place::Reg(Reg::Rax),
            Source::Place(Place::Mem(memory(Base::Reg(Reg::Rax), Some((Reg::Rcx, 4)), 4))),
        ),
    );
    // mov eax,[rax+r12*8]
    spells(
        &rt,
        &[0x42, 0x8B, 0x04, 0xE0],
        mov(
            Width::W32,
            Place::Reg(Reg::Rax),
            Source::Place(Place::Mem(memory(Base::Reg(Reg::Rax), Some((Reg::R12, 8)), 0))),
        ),
    );
    // mov eax,[rax+riz*2]
    spells(
        &rt,
        &[0x8B, 0x04, 0x60],
        mov(
            Width::W32,
            Place::Reg(Reg::Rax),
            Source::Place(Place::Mem(memory(Base::Reg(Reg::Rax), None, 0))),
        ),
    );
    // mov eax,[rcx*2-0x8]
    spells(
        &rt,
        &[0x8B, 0x04, 0x4D, 0xF8, 0xFF, 0xFF, 0xFF],
        mov(
            Width::W32,
            Place::Reg(Reg::Rax),
            Source::Place(Place::Mem(memory(Base::None, Some((Reg::Rcx, 2)), -8))),
        ),
    );
    // mov r8d,[r12*1+0x8]
    spells(
        &rt,
        &[0x46, 0x8B, 0x04, 0x25, 0x08, 0x00, 0x00, 0x00],
        mov(
            Width::W32,
            Place::Reg(Reg::R8),
            Source::Place(Place::Mem(memory(Base::None, Some((Reg::R12, 1)), 8))),
        ),
    );
    // mov eax,[rbp+0x0]
    spells(
        &rt,
        &[0x8B, 0x45, 0x00],
        mov(
            Width::W32,
            Place::Reg(Reg::Rax),
            Source::Place(Place::Mem(memory(Base::Reg(Reg::Rbp), None, 0))),
        ),
    );
    // mov eax,[r13+0x0]
    spells(
        &rt,
        &[0x41, 0x8B, 0x45, 0x00],
        mov(
            Width::W32,
            Place::Reg(Reg::Rax),
            Source::Place(Place::Mem(memory(Base::Reg(Reg::R13), None, 0))),
        ),
    );
    // mov r15,[r13+rbx*4-0x8]
    spells(
        &rt,
        &[0x4D, 0x8B, 0x7C, 0x9D, 0xF8],
        mov(
            Width::W64,
            Place::Reg(Reg::R15),
            Source::Place(Place::Mem(memory(Base::Reg(Reg::R13), Some((Reg::Rbx, 4)), -8))),
        ),
    );
    // mov r9,[r14+r15*8]
    spells(
        &rt,
        &[0x4F, 0x8B, 0x0C, 0xFE],
        mov(
            Width::W64,
            Place::Reg(Reg::R9),
            Source::Place(Place::Mem(memory(Base::Reg(Reg::R14), Some((Reg::R15, 8)), 0))),
        ),
    );
    // mov [rdi+rsi*1+0x7f],eax
    spells(
        &rt,
        &[0x89, 0x84, 0x37, 0x7F, 0x00, 0x00, 0x00],
        mov(
            Width::W32,
            Place::Mem(memory(Base::Reg(Reg::Rdi), Some((Reg::Rsi, 1)), 127)),
            register(Reg::Rax),
        ),
    );
}

/// Widths by prefix, and each bit of REX.
#[test]
fn decodes_registers(rt: HostRuntime) {
    // mov eax,ebx
    spells(
        &rt,
        &[0x89, 0xD8],
        mov(Width::W32, Place::Reg(Reg::Rax), register(Reg::Rbx)),
    );
    // mov rax,rbx
    spells(
        &rt,
        &[0x48, 0x89, 0xD8],
        mov(Width::W64, Place::Reg(Reg::Rax), register(Reg::Rbx)),
    );
    // mov ax,bx
    spells(
        &rt,
        &[0x66, 0x89, 0xD8],
        mov(Width::W16, Place::Reg(Reg::Rax), register(Reg::Rbx)),
    );
    // mov al,bl
    spells(
        &rt,
        &[0x88, 0xD8],
        mov(Width::W8, Place::Reg(Reg::Rax), register(Reg::Rbx)),
    );
    // mov rax,r8
    spells(
        &rt,
        &[0x4C, 0x89, 0xC0],
        mov(Width::W64, Place::Reg(Reg::Rax), register(Reg::R8)),
    );
    // mov r8,rax
    spells(
        &rt,
        &[0x49, 0x89, 0xC0],
        mov(Width::W64, Place::Reg(Reg::R8), register(Reg::Rax)),
    );
    // mov r8d,r9d
    spells(
        &rt,
        &[0x45, 0x89, 0xC8],
        mov(Width::W32, Place::Reg(Reg::R8), register(Reg::R9)),
    );
    // mov r15w,ax
    spells(
        &rt,
        &[0x66, 0x41, 0x89, 0xC7],
        mov(Width::W16, Place::Reg(Reg::R15), register(Reg::Rax)),
    );
    // mov eax,ebx
    spells(
        &rt,
        &[0x42, 0x89, 0xD8],
        mov(Width::W32, Place::Reg(Reg::Rax), register(Reg::Rbx)),
    );
    // mov edi,ecx
    spells(
        &rt,
        &[0x8B, 0xF9],
        mov(Width::W32, Place::Reg(Reg::Rdi), register(Reg::Rcx)),
    );
}

/// Registers 4 to 7 of 8 bits, with and without REX.
#[test]
fn decodes_byte_registers(rt: HostRuntime) {
    // mov al,ah
    spells(
        &rt,
        &[0x88, 0xE0],
        mov(
            Width::W8,
            Place::Reg(Reg::Rax),
            Source::Place(Place::High(HighReg::Ah)),
        ),
    );
    // mov al,spl
    spells(
        &rt,
        &[0x40, 0x88, 0xE0],
        mov(Width::W8, Place::Reg(Reg::Rax), register(Reg::Rsp)),
    );
    // mov ch,bh
    spells(
        &rt,
        &[0x88, 0xFD],
        mov(
            Width::W8,
            Place::High(HighReg::Ch),
            Source::Place(Place::High(HighReg::Bh)),
        ),
    );
    // mov al,r15b
    spells(
        &rt,
        &[0x44, 0x88, 0xF8],
        mov(Width::W8, Place::Reg(Reg::Rax), register(Reg::R15)),
    );
    // mov dh,[rip+0x0]
    spells(
        &rt,
        &[0x8A, 0x35, 0x00, 0x00, 0x00, 0x00],
        mov(
            Width::W8,
            Place::High(HighReg::Dh),
            Source::Place(Place::Mem(memory(Base::Rip, None, 0))),
        ),
    );
    // mov ah,0x1
    spells(
        &rt,
        &[0xB4, 0x01],
        mov(Width::W8, Place::High(HighReg::Ah), Source::Imm(1)),
    );
    // mov spl,0xff
    spells(
        &rt,
        &[0x40, 0xB4, 0xFF],
        mov(Width::W8, Place::Reg(Reg::Rsp), Source::Imm(-1)),
    );
    // mov r12b,0x7f
    spells(
        &rt,
        &[0x41, 0xB4, 0x7F],
        mov(Width::W8, Place::Reg(Reg::R12), Source::Imm(127)),
    );
    // seto ah
    spells(
        &rt,
        &[0x0F, 0x90, 0xC4],
        Insn::Set {
            cond: Cond::O,
            dst: Place::High(HighReg::Ah),
        },
    );
    // setne sil
    spells(
        &rt,
        &[0x40, 0x0F, 0x95, 0xC6],
        Insn::Set {
            cond: Cond::Ne,
            dst: Place::Reg(Reg::Rsi),
        },
    );
    // movzx eax,ah
    spells(
        &rt,
        &[0x0F, 0xB6, 0xC4],
        Insn::Extend {
            signed: false,
            from: Width::W8,
            to: Width::W32,
            dst: Reg::Rax,
            src: Place::High(HighReg::Ah),
        },
    );
    // movsx rcx,dil
    spells(
        &rt,
        &[0x48, 0x0F, 0xBE, 0xCF],
        Insn::Extend {
            signed: true,
            from: Width::W8,
            to: Width::W64,
            dst: Reg::Rcx,
            src: Place::Reg(Reg::Rdi),
        },
    );
}

/// The eight operations, in each order of operands and with each immediate.
#[test]
fn decodes_arithmetic(rt: HostRuntime) {
    // add al,cl
    spells(
        &rt,
        &[0x00, 0xC8],
        alu(
            AluOp::Add,
            Width::W8,
            Place::Reg(Reg::Rax),
            register(Reg::Rcx),
        ),
    );
    // or eax,ecx
    spells(
        &rt,
        &[0x09, 0xC8],
        alu(
            AluOp::Or,
            Width::W32,
            Place::Reg(Reg::Rax),
            register(Reg::Rcx),
        ),
    );
    // adc al,cl
    spells(
        &rt,
        &[0x12, 0xC1],
        alu(
            AluOp::Adc,
            Width::W8,
            Place::Reg(Reg::Rax),
            register(Reg::Rcx),
        ),
    );
    // sbb rax,rcx
    spells(
        &rt,
        &[0x48, 0x1B, 0xC1],
        alu(
            AluOp::Sbb,
            Width::W64,
            Place::Reg(Reg::Rax),
            register(Reg::Rcx),
        ),
    );
    // and al,0xff
    spells(
        &rt,
        &[0x24, 0xFF],
        alu(AluOp::And, Width::W8, Place::Reg(Reg::Rax), Source::Imm(-1)),
    );
    // sub eax,0x80000000
    spells(
        &rt,
        &[0x2D, 0x00, 0x00, 0x00, 0x80],
        alu(
            AluOp::Sub,
            Width::W32,
            Place::Reg(Reg::Rax),
            Source::Imm(i32::MIN),
        ),
    );
    // xor ax,0x8000
    spells(
        &rt,
        &[0x66, 0x35, 0x00, 0x80],
        alu(
            AluOp::Xor,
            Width::W16,
            Place::Reg(Reg::Rax),
            Source::Imm(-32768),
        ),
    );
    // cmp rax,0x7fffffff
    spells(
        &rt,
        &[0x48, 0x3D, 0xFF, 0xFF, 0xFF, 0x7F],
        alu(
            AluOp::Cmp,
            Width::W64,
            Place::Reg(Reg::Rax),
            Source::Imm(i32::MAX),
        ),
    );
    // cmp [rdi],0x80
    spells(
        &rt,
        &[0x80, 0x3F, 0x80],
        alu(
            AluOp::Cmp,
            Width::W8,
            Place::Mem(memory(Base::Reg(Reg::Rdi), None, 0)),
            Source::Imm(-128),
        ),
    );
    // sub r11d,0xffffff80
    spells(
        &rt,
        &[0x41, 0x83, 0xEB, 0x80],
        alu(
            AluOp::Sub,
            Width::W32,
            Place::Reg(Reg::R11),
            Source::Imm(-128),
        ),
    );
    // or ecx,0xfffffffb
    spells(
        &rt,
        &[0x81, 0xC9, 0xFB, 0xFF, 0xFF, 0xFF],
        alu(AluOp::Or, Width::W32, Place::Reg(Reg::Rcx), Source::Imm(-5)),
    );
    // add cx,0x7fff
    spells(
        &rt,
        &[0x66, 0x81, 0xC1, 0xFF, 0x7F],
        alu(
            AluOp::Add,
            Width::W16,
            Place::Reg(Reg::Rcx),
            Source::Imm(32767),
        ),
    );
    // and rdx,0xffffffffffffff00
    spells(
        &rt,
        &[0x48, 0x81, 0xE2, 0x00, 0xFF, 0xFF, 0xFF],
        alu(
            AluOp::And,
            Width::W64,
            Place::Reg(Reg::Rdx),
            Source::Imm(-256),
        ),
    );
    // and ah,0x1
    spells(
        &rt,
        &[0x80, 0xE4, 0x01],
        alu(
            AluOp::And,
            Width::W8,
            Place::High(HighReg::Ah),
            Source::Imm(1),
        ),
    );
}

/// PUSH, POP, the extensions and IMUL.
#[test]
fn decodes_stack_and_extensions(rt: HostRuntime) {
    // push rax
    spells(
        &rt,
        &[0x50],
        Insn::Push {
            src: register(Reg::Rax),
        },
    );
    // push rdi
    spells(
        &rt,
        &[0x48, 0x57],
        Insn::Push {
            src: register(Reg::Rdi),
        },
    );
    // push r15
    spells(
        &rt,
        &[0x41, 0x57],
        Insn::Push {
            src: register(Reg::R15),
        },
    );
    // push 0xffffffffffffffff
    spells(
        &rt,
        &[0x68, 0xFF, 0xFF, 0xFF, 0xFF],
        Insn::Push {
            src: Source::Imm(-1),
        },
    );
    // push 0xffffffffffffff80
    spells(
        &rt,
        &[0x6A, 0x80],
        Insn::Push {
            src: Source::Imm(-128),
        },
    );
    // push [rax+0x8]
    spells(
        &rt,
        &[0xFF, 0x70, 0x08],
        Insn::Push {
            src: Source::Place(Place::Mem(memory(Base::Reg(Reg::Rax), None, 8))),
        },
    );
    // pop rbp
    spells(&rt, &[0x5D], Insn::Pop { dst: Reg::Rbp });
    // pop r12
    spells(&rt, &[0x41, 0x5C], Insn::Pop { dst: Reg::R12 });
    // movsxd rcx,eax
    spells(
        &rt,
        &[0x48, 0x63, 0xC8],
        Insn::Extend {
            signed: true,
            from: Width::W32,
            to: Width::W64,
            dst: Reg::Rcx,
            src: Place::Reg(Reg::Rax),
        },
    );
    // movzx ecx,[rdi]
    spells(
        &rt,
        &[0x0F, 0xB7, 0x0F],
        Insn::Extend {
            signed: false,
            from: Width::W16,
            to: Width::W32,
            dst: Reg::Rcx,
            src: Place::Mem(memory(Base::Reg(Reg::Rdi), None, 0)),
        },
    );
    // movsx r8,cx
    spells(
        &rt,
        &[0x4C, 0x0F, 0xBF, 0xC1],
        Insn::Extend {
            signed: true,
            from: Width::W16,
            to: Width::W64,
            dst: Reg::R8,
            src: Place::Reg(Reg::Rcx),
        },
    );
    // imul eax,ecx,0xfffffffe
    spells(
        &rt,
        &[0x6B, 0xC1, 0xFE],
        Insn::Imul {
            w: Width::W32,
            dst: Reg::Rax,
            src: Place::Reg(Reg::Rcx),
            imm: Some(-2),
        },
    );
    // imul ax,cx,0x8000
    spells(
        &rt,
        &[0x66, 0x69, 0xC1, 0x00, 0x80],
        Insn::Imul {
            w: Width::W16,
            dst: Reg::Rax,
            src: Place::Reg(Reg::Rcx),
            imm: Some(-32768),
        },
    );
    // imul rax,rcx,0x1000000
    spells(
        &rt,
        &[0x48, 0x69, 0xC1, 0x00, 0x00, 0x00, 0x01],
        Insn::Imul {
            w: Width::W64,
            dst: Reg::Rax,
            src: Place::Reg(Reg::Rcx),
            imm: Some(0x0100_0000),
        },
    );
    // imul rax,rcx
    spells(
        &rt,
        &[0x48, 0x0F, 0xAF, 0xC1],
        Insn::Imul {
            w: Width::W64,
            dst: Reg::Rax,
            src: Place::Reg(Reg::Rcx),
            imm: None,
        },
    );
}

/// Jumps, calls and returns. A distance counts from the next instruction.
#[test]
fn decodes_transfers(rt: HostRuntime) {
    // je 0x0
    spells(
        &rt,
        &[0x74, 0xFE],
        Insn::Jcc {
            cond: Cond::E,
            rel: -2,
        },
    );
    // jg 0x106
    spells(
        &rt,
        &[0x0F, 0x8F, 0x00, 0x01, 0x00, 0x00],
        Insn::Jcc {
            cond: Cond::G,
            rel: 256,
        },
    );
    // jmp 0x81
    spells(&rt, &[0xEB, 0x7F], Insn::Jump { rel: 127 });
    // jmp 0x0
    spells(&rt, &[0xE9, 0xFB, 0xFF, 0xFF, 0xFF], Insn::Jump { rel: -5 });
    // call 0x5
    spells(&rt, &[0xE8, 0x00, 0x00, 0x00, 0x00], Insn::Call { rel: 0 });
    // ret
    spells(&rt, &[0xC3], Insn::Ret);
    // leave
    spells(&rt, &[0xC9], Insn::Leave);
    // call rax
    spells(
        &rt,
        &[0xFF, 0xD0],
        Insn::CallInd {
            src: Place::Reg(Reg::Rax),
        },
    );
    // call [r11+rax*8+0x8]
    spells(
        &rt,
        &[0x41, 0xFF, 0x54, 0xC3, 0x08],
        Insn::CallInd {
            src: Place::Mem(memory(Base::Reg(Reg::R11), Some((Reg::Rax, 8)), 8)),
        },
    );
    // jmp [rip+0x0]
    spells(
        &rt,
        &[0xFF, 0x25, 0x00, 0x00, 0x00, 0x00],
        Insn::JumpInd {
            src: Place::Mem(memory(Base::Rip, None, 0)),
        },
    );
    // jmp r11
    spells(
        &rt,
        &[0x41, 0xFF, 0xE3],
        Insn::JumpInd {
            src: Place::Reg(Reg::R11),
        },
    );
    // ud2
    spells(&rt, &[0x0F, 0x0B], Insn::Ud2);
    // endbr64
    spells(&rt, &[0xF3, 0x0F, 0x1E, 0xFA], Insn::Endbr);
}

/// TEST, XCHG, moves of immediates and LEA.
#[test]
fn decodes_moves(rt: HostRuntime) {
    // test cl,ah
    spells(
        &rt,
        &[0x84, 0xE1],
        Insn::Test {
            w: Width::W8,
            a: Place::Reg(Reg::Rcx),
            b: Source::Place(Place::High(HighReg::Ah)),
        },
    );
    // test rdi,rdi
    spells(
        &rt,
        &[0x48, 0x85, 0xFF],
        Insn::Test {
            w: Width::W64,
            a: Place::Reg(Reg::Rdi),
            b: register(Reg::Rdi),
        },
    );
    // test [rdi],0x80
    spells(
        &rt,
        &[0xF6, 0x07, 0x80],
        Insn::Test {
            w: Width::W8,
            a: Place::Mem(memory(Base::Reg(Reg::Rdi), None, 0)),
            b: Source::Imm(-128),
        },
    );
    // test cx,0x8000
    spells(
        &rt,
        &[0x66, 0xF7, 0xC1, 0x00, 0x80],
        Insn::Test {
            w: Width::W16,
            a: Place::Reg(Reg::Rcx),
            b: Source::Imm(-32768),
        },
    );
    // xchg r8,rdx
    spells(
        &rt,
        &[0x49, 0x87, 0xD0],
        Insn::Xchg {
            w: Width::W64,
            a: Reg::R8,
            b: Reg::Rdx,
        },
    );
    // mov ax,0x8000
    spells(
        &rt,
        &[0x66, 0xB8, 0x00, 0x80],
        mov(Width::W16, Place::Reg(Reg::Rax), Source::Imm(-32768)),
    );
    // mov eax,0xffffffff
    spells(
        &rt,
        &[0xB8, 0xFF, 0xFF, 0xFF, 0xFF],
        mov(Width::W32, Place::Reg(Reg::Rax), Source::Imm(-1)),
    );
    // mov r15,0xf102030405060708
    spells(
        &rt,
        &[0x49, 0xBF, 0x08, 0x07, 0x06, 0x05, 0x04, 0x03, 0x02, 0xF1],
        Insn::MovImm64 {
            dst: Reg::R15,
            imm: 0xF102_0304_0506_0708,
        },
    );
    // mov [rax],0x1
    spells(
        &rt,
        &[0xC6, 0x00, 0x01],
        mov(
            Width::W8,
            Place::Mem(memory(Base::Reg(Reg::Rax), None, 0)),
            Source::Imm(1),
        ),
    );
    // mov [rax],0x8000
    spells(
        &rt,
        &[0x66, 0xC7, 0x00, 0x00, 0x80],
        mov(
            Width::W16,
            Place::Mem(memory(Base::Reg(Reg::Rax), None, 0)),
            Source::Imm(-32768),
        ),
    );
    // mov rax,0xffffffffffffffff
    spells(
        &rt,
        &[0x48, 0xC7, 0xC0, 0xFF, 0xFF, 0xFF, 0xFF],
        mov(Width::W64, Place::Reg(Reg::Rax), Source::Imm(-1)),
    );
    // lea rax,[rdi+rsi*4]
    spells(
        &rt,
        &[0x48, 0x8D, 0x04, 0xB7],
        Insn::Lea {
            w: Width::W64,
            dst: Reg::Rax,
            mem: memory(Base::Reg(Reg::Rdi), Some((Reg::Rsi, 4)), 0),
        },
    );
    // lea ax,[rdi+0x1]
    spells(
        &rt,
        &[0x66, 0x8D, 0x47, 0x01],
        Insn::Lea {
            w: Width::W16,
            dst: Reg::Rax,
            mem: memory(Base::Reg(Reg::Rdi), None, 1),
        },
    );
}

/// NOP, the sign extensions of rax, shifts, and operations on one operand.
#[test]
fn decodes_single_operands(rt: HostRuntime) {
    // nop
    spells(&rt, &[0x90], Insn::Nop);
    // xchg ax,ax
    spells(&rt, &[0x66, 0x90], Insn::Nop);
    // rex.W nop
    spells(&rt, &[0x48, 0x90], Insn::Nop);
    // nop [rax+0x0]
    spells(&rt, &[0x0F, 0x1F, 0x40, 0x00], Insn::Nop);
    // nop [rax+rax*1+0x0]
    spells(
        &rt,
        &[0x66, 0x0F, 0x1F, 0x84, 0x00, 0x00, 0x00, 0x00, 0x00],
        Insn::Nop,
    );
    // cbw
    spells(&rt, &[0x66, 0x98], Insn::Widen { w: Width::W16 });
    // cdqe
    spells(&rt, &[0x48, 0x98], Insn::Widen { w: Width::W64 });
    // cdq
    spells(&rt, &[0x99], Insn::SignA { w: Width::W32 });
    // rol ah,0xff
    spells(
        &rt,
        &[0xC0, 0xC4, 0xFF],
        Insn::Shift {
            op: ShiftOp::Rol,
            w: Width::W8,
            dst: Place::High(HighReg::Ah),
            by: Count::Imm(255),
        },
    );
    // shl rax,0x4
    spells(
        &rt,
        &[0x48, 0xC1, 0xE0, 0x04],
        Insn::Shift {
            op: ShiftOp::Shl,
            w: Width::W64,
            dst: Place::Reg(Reg::Rax),
            by: Count::Imm(4),
        },
    );
    // sar [rax],1
    spells(
        &rt,
        &[0xD1, 0x38],
        Insn::Shift {
            op: ShiftOp::Sar,
            w: Width::W32,
            dst: Place::Mem(memory(Base::Reg(Reg::Rax), None, 0)),
            by: Count::Imm(1),
        },
    );
    // shr cx,cl
    spells(
        &rt,
        &[0x66, 0xD3, 0xE9],
        Insn::Shift {
            op: ShiftOp::Shr,
            w: Width::W16,
            dst: Place::Reg(Reg::Rcx),
            by: Count::Cl,
        },
    );
    // ror bh,cl
    spells(
        &rt,
        &[0xD2, 0xCF],
        Insn::Shift {
            op: ShiftOp::Ror,
            w: Width::W8,
            dst: Place::High(HighReg::Bh),
            by: Count::Cl,
        },
    );
    // neg rcx
    spells(
        &rt,
        &[0x48, 0xF7, 0xD9],
        Insn::Unary {
            op: UnaryOp::Neg,
            w: Width::W64,
            dst: Place::Reg(Reg::Rcx),
        },
    );
    // not [rdi]
    spells(
        &rt,
        &[0xF6, 0x17],
        Insn::Unary {
            op: UnaryOp::Not,
            w: Width::W8,
            dst: Place::Mem(memory(Base::Reg(Reg::Rdi), None, 0)),
        },
    );
    // inc ax
    spells(
        &rt,
        &[0x66, 0xFF, 0xC0],
        Insn::Unary {
            op: UnaryOp::Inc,
            w: Width::W16,
            dst: Place::Reg(Reg::Rax),
        },
    );
    // dec ch
    spells(
        &rt,
        &[0xFE, 0xCD],
        Insn::Unary {
            op: UnaryOp::Dec,
            w: Width::W8,
            dst: Place::High(HighReg::Ch),
        },
    );
    // mul ah
    spells(
        &rt,
        &[0xF6, 0xE4],
        Insn::MulDiv {
            op: MulDivOp::Mul,
            w: Width::W8,
            src: Place::High(HighReg::Ah),
        },
    );
    // idiv r8
    spells(
        &rt,
        &[0x49, 0xF7, 0xF8],
        Insn::MulDiv {
            op: MulDivOp::Idiv,
            w: Width::W64,
            src: Place::Reg(Reg::R8),
        },
    );
}

/// CMOV, bit scans and counts, BT and BSWAP.
#[test]
fn decodes_conditions_and_bits(rt: HostRuntime) {
    // cmovge rax,rcx
    spells(
        &rt,
        &[0x48, 0x0F, 0x4D, 0xC1],
        Insn::Cmov {
            cond: Cond::Ge,
            w: Width::W64,
            dst: Reg::Rax,
            src: Place::Reg(Reg::Rcx),
        },
    );
    // cmovb eax,[rdi]
    spells(
        &rt,
        &[0x0F, 0x42, 0x07],
        Insn::Cmov {
            cond: Cond::B,
            w: Width::W32,
            dst: Reg::Rax,
            src: Place::Mem(memory(Base::Reg(Reg::Rdi), None, 0)),
        },
    );
    // bsf ax,cx
    spells(
        &rt,
        &[0x66, 0x0F, 0xBC, 0xC1],
        Insn::Bits {
            op: BitsOp::Bsf,
            w: Width::W16,
            dst: Reg::Rax,
            src: Place::Reg(Reg::Rcx),
        },
    );
    // popcnt rax,rcx
    spells(
        &rt,
        &[0xF3, 0x48, 0x0F, 0xB8, 0xC1],
        Insn::Bits {
            op: BitsOp::Popcnt,
            w: Width::W64,
            dst: Reg::Rax,
            src: Place::Reg(Reg::Rcx),
        },
    );
    // tzcnt eax,ecx
    spells(
        &rt,
        &[0xF3, 0x0F, 0xBC, 0xC1],
        Insn::Bits {
            op: BitsOp::Tzcnt,
            w: Width::W32,
            dst: Reg::Rax,
            src: Place::Reg(Reg::Rcx),
        },
    );
    // lzcnt r8d,r9d
    spells(
        &rt,
        &[0xF3, 0x45, 0x0F, 0xBD, 0xC1],
        Insn::Bits {
            op: BitsOp::Lzcnt,
            w: Width::W32,
            dst: Reg::R8,
            src: Place::Reg(Reg::R9),
        },
    );
    // bt eax,ecx
    spells(
        &rt,
        &[0x0F, 0xA3, 0xC8],
        Insn::Bt {
            w: Width::W32,
            a: Reg::Rax,
            bit: register(Reg::Rcx),
        },
    );
    // bt rax,0xff
    spells(
        &rt,
        &[0x48, 0x0F, 0xBA, 0xE0, 0xFF],
        Insn::Bt {
            w: Width::W64,
            a: Reg::Rax,
            bit: Source::Imm(-1),
        },
    );
    // bswap r15
    spells(
        &rt,
        &[0x49, 0x0F, 0xCF],
        Insn::Bswap {
            w: Width::W64,
            dst: Reg::R15,
        },
    );
}

/// Instructions on XMM registers: each prefix, REX.W where a general register is meant, and an immediate.
#[test]
fn decodes_xmm_registers(rt: HostRuntime) {
    // movups xmm0,xmm1
    spells(
        &rt,
        &[0x0F, 0x10, 0xC1],
        xmm(XmmRow::MovupsLoad, false, 0, XmmOperand::Reg(1), 0),
    );
    // movss xmm0,[rax]
    spells(
        &rt,
        &[0xF3, 0x0F, 0x10, 0x00],
        xmm(
            XmmRow::MovssLoad,
            false,
            0,
            XmmOperand::Mem(memory(Base::Reg(Reg::Rax), None, 0)),
            0,
        ),
    );
    // movsd [rip+0x8],xmm9
    spells(
        &rt,
        &[0xF2, 0x44, 0x0F, 0x11, 0x0D, 0x08, 0x00, 0x00, 0x00],
        xmm(
            XmmRow::MovsdStore,
            false,
            9,
            XmmOperand::Mem(memory(Base::Rip, None, 8)),
            0,
        ),
    );
    // movapd xmm7,xmm9
    spells(
        &rt,
        &[0x66, 0x41, 0x0F, 0x28, 0xF9],
        xmm(XmmRow::MovapdLoad, false, 7, XmmOperand::Reg(9), 0),
    );
    // movdqu [rdi],xmm7
    spells(
        &rt,
        &[0xF3, 0x0F, 0x7F, 0x3F],
        xmm(
            XmmRow::MovdquStore,
            false,
            7,
            XmmOperand::Mem(memory(Base::Reg(Reg::Rdi), None, 0)),
            0,
        ),
    );
    // movd xmm0,esp
    spells(
        &rt,
        &[0x66, 0x0F, 0x6E, 0xC4],
        xmm(XmmRow::MovdLoad, false, 0, XmmOperand::Reg(4), 0),
    );
    // movq rax,xmm9
    spells(
        &rt,
        &[0x66, 0x4C, 0x0F, 0x7E, 0xC8],
        xmm(XmmRow::MovdStore, true, 9, XmmOperand::Reg(0), 0),
    );
    // movq xmm0,xmm1
    spells(
        &rt,
        &[0xF3, 0x0F, 0x7E, 0xC1],
        xmm(XmmRow::MovqLoad, false, 0, XmmOperand::Reg(1), 0),
    );
    // cvtsi2sd xmm0,r15
    spells(
        &rt,
        &[0xF2, 0x49, 0x0F, 0x2A, 0xC7],
        xmm(XmmRow::Cvtsi2sd, true, 0, XmmOperand::Reg(15), 0),
    );
    // cvttss2si rax,xmm1
    spells(
        &rt,
        &[0xF3, 0x48, 0x0F, 0x2C, 0xC1],
        xmm(XmmRow::Cvttss2si, true, 0, XmmOperand::Reg(1), 0),
    );
    // cvtsd2si ecx,xmm1
    spells(
        &rt,
        &[0xF2, 0x0F, 0x2D, 0xC9],
        xmm(XmmRow::Cvtsd2si, false, 1, XmmOperand::Reg(1), 0),
    );
    // ucomisd xmm0,xmm1
    spells(
        &rt,
        &[0x66, 0x0F, 0x2E, 0xC1],
        xmm(XmmRow::Ucomisd, false, 0, XmmOperand::Reg(1), 0),
    );
    // pxor xmm8,xmm8
    spells(
        &rt,
        &[0x66, 0x45, 0x0F, 0xEF, 0xC0],
        xmm(XmmRow::Pxor, false, 8, XmmOperand::Reg(8), 0),
    );
    // addsd xmm1,xmm0
    spells(
        &rt,
        &[0xF2, 0x0F, 0x58, 0xC8],
        xmm(XmmRow::Addsd, false, 1, XmmOperand::Reg(0), 0),
    );
    // roundss xmm0,xmm1,0x3
    spells(
        &rt,
        &[0x66, 0x0F, 0x3A, 0x0A, 0xC1, 0x03],
        xmm(XmmRow::Roundss, false, 0, XmmOperand::Reg(1), 3),
    );
    // roundsd xmm3,[r15+rdi*8],0x80
    spells(
        &rt,
        &[0x66, 0x41, 0x0F, 0x3A, 0x0B, 0x1C, 0xFF, 0x80],
        xmm(
            XmmRow::Roundsd,
            false,
            3,
            XmmOperand::Mem(memory(Base::Reg(Reg::R15), Some((Reg::Rdi, 8)), 0)),
            128,
        ),
    );
}

/// Bytes that end within an instruction.
#[test]
fn refuses_the_ends_of_bytes(rt: HostRuntime) {
    refuses(&rt, &[]);
    refuses(&rt, &[0x0F]);
    refuses(&rt, &[0x66, 0x0F]);
    refuses(&rt, &[0x48]);
    refuses(&rt, &[0x8B]);
    refuses(&rt, &[0x8B, 0x04]);
    refuses(&rt, &[0x8B, 0x40]);
    refuses(&rt, &[0x8B, 0x80, 0x00, 0x00, 0x00]);
    refuses(&rt, &[0x8B, 0x04, 0x25, 0x00, 0x00, 0x00]);
    refuses(&rt, &[0xB8, 0x00, 0x00, 0x00]);
    refuses(&rt, &[0x48, 0xB8, 0x00, 0x00, 0x00, 0x00, 0x00, 0x00, 0x00]);
    refuses(&rt, &[0x66, 0xB8, 0x00]);
    refuses(&rt, &[0x0F, 0x3A]);
    refuses(&rt, &[0x66, 0x0F, 0x3A, 0x0A, 0xC1]);
    refuses(&rt, &[0xE8, 0x00, 0x00, 0x00]);
}

/// A second legacy prefix, a REX that is not directly before the opcode, 66 with REX.W, and a prefix that the instruction does not take.
#[test]
fn refuses_prefixes(rt: HostRuntime) {
    refuses(&rt, &[0x66, 0x66, 0x90]);
    refuses(&rt, &[0x66, 0xF3, 0x0F, 0xB8, 0xC1]);
    refuses(&rt, &[0xF2, 0x90]);
    refuses(&rt, &[0xF3, 0x90]);
    refuses(&rt, &[0xF2, 0x89, 0xC0]);
    refuses(&rt, &[0x48, 0x66, 0x89, 0xC0]);
    refuses(&rt, &[0x40, 0x48, 0x8B, 0xC0]);
    refuses(&rt, &[0x66, 0x48, 0x89, 0xC0]);
    refuses(&rt, &[0x66, 0x48, 0x0F, 0x1F, 0x00]);
    refuses(&rt, &[0x66, 0xC3]);
    refuses(&rt, &[0xF3, 0xC3]);
    refuses(&rt, &[0x66, 0x50]);
    refuses(&rt, &[0x66, 0x0F, 0x05]);
    refuses(&rt, &[0xF0, 0x87, 0x40, 0x00]);
    refuses(&rt, &[0x2E, 0x8B, 0x00]);
    refuses(&rt, &[0x66, 0x0F, 0x84, 0x00, 0x00, 0x00]);
    refuses(&rt, &[0x48, 0xF3, 0x0F, 0x1E, 0xFA]);
}

/// Opcodes, digits and forms that are not listed: among them XCHG of rAX in 90 with REX.B, LEA of a register and memory operands of XCHG and BT.
#[test]
fn refuses_what_is_not_listed(rt: HostRuntime) {
    refuses(&rt, &[0x41, 0x90]);
    refuses(&rt, &[0x49, 0x90]);
    refuses(&rt, &[0x8D, 0xC0]);
    refuses(&rt, &[0x87, 0x00]);
    refuses(&rt, &[0x0F, 0xA3, 0x00]);
    refuses(&rt, &[0xA8, 0x01]);
    refuses(&rt, &[0x82, 0xC0, 0x01]);
    refuses(&rt, &[0xC0, 0xF0, 0x01]);
    refuses(&rt, &[0xD1, 0xF0]);
    refuses(&rt, &[0xFF, 0xD8]);
    refuses(&rt, &[0xFF, 0x38]);
    refuses(&rt, &[0xF7, 0xC8, 0x01, 0x00, 0x00, 0x00]);
    refuses(&rt, &[0xFE, 0xD0]);
    refuses(&rt, &[0x8F, 0xC0]);
    refuses(&rt, &[0x63, 0xC8]);
    refuses(&rt, &[0x66, 0x0F, 0xC8]);
    refuses(&rt, &[0x66, 0x0F, 0xB6, 0xC0]);
    refuses(&rt, &[0x0F, 0x1E, 0xFA]);
    refuses(&rt, &[0xF3, 0x0F, 0x1E, 0xFB]);
    refuses(&rt, &[0x0F, 0x1F, 0xC8]);
    refuses(&rt, &[0x0F, 0x05]);
    refuses(&rt, &[0xCC]);
    refuses(&rt, &[0x48, 0x0F, 0x10, 0xC1]);
    refuses(&rt, &[0xF3, 0x48, 0x0F, 0x7E, 0xC1]);
    refuses(&rt, &[0x66, 0x48, 0x0F, 0x3A, 0x0A, 0xC1, 0x00]);
    refuses(&rt, &[0x0F, 0x3A, 0x0A, 0xC1, 0x00]);
    refuses(&rt, &[0x62, 0xF1, 0x7C, 0x48, 0x10]);
}

/// What follows an instruction is no part of it: here one of twelve bytes with REX, opcode, ModRM, SIB,
/// and four bytes of displacement and of immediate each, and then three NOPs.
#[test]
fn takes_the_front(rt: HostRuntime) {
    let longest = [
        0x48, 0x81, 0x84, 0x88, 1, 0, 0, 0, 2, 0, 0, 0, 0x90, 0x90, 0x90,
    ];
    let length = decode(&longest).map(|found| found.1);
    assert!(rt; length == Some(12));
    assert!(rt; decode(&longest[12..]) == Some((Insn::Nop, 1)));
}
