ghost use Rattle.std.specs.Prelude.{◌≡◌, ◌⊎◌};
ghost use Rattle.vw_insn.specs.XmmTable.{xmm_traits, xmm_text, xmm_role, xmm_size, is_xmm_store};

/// An instruction on XMM registers: one variant for each opcode and mandatory prefix, with the name
/// that the SDM gives it (volume 2, chapters 3 to 5). Where one name reads and writes memory, the
/// opcode whose destination is the XMM register is `..Load` and the other `..Store`.
#[derive(Clone, Copy, Debug, PartialEq, Eq)]
pub enum XmmRow {
    MovupsLoad,
    MovupdLoad,
    MovssLoad,
    MovsdLoad,
    MovupsStore,
    MovupdStore,
    MovssStore,
    MovsdStore,
    MovapsLoad,
    MovapdLoad,
    MovapsStore,
    MovapdStore,
    MovdqaLoad,
    MovdquLoad,
    MovdqaStore,
    MovdquStore,
    /// From a general register or memory to an XMM register; `movq` where it is wide.
    MovdLoad,
    /// From an XMM register to a general register or memory; `movq` where it is wide.
    MovdStore,
    MovqLoad,
    MovqStore,
    Sqrtps,
    Sqrtpd,
    Sqrtss,
    Sqrtsd,
    Addps,
    Addpd,
    Addss,
    Addsd,
    Mulps,
    Mulpd,
    Mulss,
    Mulsd,
    Subps,
    Subpd,
    Subss,
    Subsd,
    Minps,
    Minpd,
    Minss,
    Minsd,
    Divps,
    Divpd,
    Divss,
    Divsd,
    Maxps,
    Maxpd,
    Maxss,
    Maxsd,
    Andps,
    Andpd,
    Andnps,
    Andnpd,
    Orps,
    Orpd,
    Xorps,
    Xorpd,
    Cvtps2pd,
    Cvtpd2ps,
    Cvtss2sd,
    Cvtsd2ss,
    Cvtdq2ps,
    Cvtps2dq,
    Cvttps2dq,
    Cvtsi2ss,
    Cvtsi2sd,
    Cvttss2si,
    Cvttsd2si,
    Cvtss2si,
    Cvtsd2si,
    Ucomiss,
    Ucomisd,
    Comiss,
    Comisd,
    Pxor,
    Roundss,
    Roundsd,
}

/// Which operand of an instruction on XMM registers is its destination, and which are general
/// registers.
#[derive(Clone, Copy, Debug, PartialEq, Eq)]
pub enum XmmRole {
    /// The XMM register in ModRM's reg field is the destination.
    Load,
    /// The XMM register or memory that ModRM's r/m field names is the destination.
    Store,
    /// As `Load`, converted from an integer in a general register or memory.
    FromGeneral,
    /// As `Load`, converted to an integer in a general register.
    ToGeneral,
    /// As `Load`, moved from a general register or memory.
    MoveFromGeneral,
    /// As `Store`, moved to a general register or memory.
    MoveToGeneral,
    /// The operands are those of `Load`, both are read, and flags are written.
    Compare,
    /// As `Load`, with an immediate that says how to round.
    Rounding,
}

/// How many bytes the second operand of an instruction on XMM registers has where it is memory.
#[derive(Clone, Copy)]
pub enum XmmSize {
    Bytes4,
    Bytes8,
    Bytes16,
    /// Eight where the instruction is wide, else four.
    ByWide,
}

impl XmmRow {
    /// The mnemonic; a move of a general register is `movq` where it is wide.
    pub(crate) fn name(self, wide: bool) -> &'static str
        ensures { result.now ≡ xmm_text self wide }
    {
        let (name, role, _) = self.traits();
        match role {
            XmmRole::MoveFromGeneral | XmmRole::MoveToGeneral => {
                if wide { "movq" } else { name }
            }
            _ => name,
        }
    }

    /// Which operand is the destination, and which are general registers.
    pub fn role(self) -> XmmRole
        ensures { result ≡ xmm_role self }
    {
        self.traits().1
    }

    /// How many bytes the second operand has where it is memory. An instruction is wide where its
    /// REX.W is set (SDM volume 2, 2.2.1.2).
    pub fn size(self, wide: bool) -> u8
        ensures size { result ≡ xmm_size self wide }
        ensures few { (result ≡ 4) ⊎ (result ≡ 8) ⊎ (result ≡ 16) }
    {
        match self.traits().2 {
            XmmSize::Bytes4 => 4,
            XmmSize::Bytes8 => 8,
            XmmSize::Bytes16 => 16,
            XmmSize::ByWide => { if wide { 8 } else { 4 } }
        }
    }

    /// Whether the second operand is written; all other instructions read it.
    pub fn is_store(self) -> bool
        ensures { result ≡ is_xmm_store self }
    {
        matches!(self.role(), XmmRole::Store | XmmRole::MoveToGeneral)
    }

    // The mnemonic, which of the operands is the destination, and the size of the second one.
    fn traits(self) -> (&'static str, XmmRole, XmmSize)
        ensures { (result.0.now, result.1, result.2) ≡ xmm_traits self }
    {
        match self {
            XmmRow::MovupsLoad => ("movups", XmmRole::Load, XmmSize::Bytes16),
            XmmRow::MovupdLoad => ("movupd", XmmRole::Load, XmmSize::Bytes16),
            XmmRow::MovssLoad => ("movss", XmmRole::Load, XmmSize::Bytes4),
            XmmRow::MovsdLoad => ("movsd", XmmRole::Load, XmmSize::Bytes8),
            XmmRow::MovupsStore => ("movups", XmmRole::Store, XmmSize::Bytes16),
            XmmRow::MovupdStore => ("movupd", XmmRole::Store, XmmSize::Bytes16),
            XmmRow::MovssStore => ("movss", XmmRole::Store, XmmSize::Bytes4),
            XmmRow::MovsdStore => ("movsd", XmmRole::Store, XmmSize::Bytes8),
            XmmRow::MovapsLoad => ("movaps", XmmRole::Load, XmmSize::Bytes16),
            XmmRow::MovapdLoad => ("movapd", XmmRole::Load, XmmSize::Bytes16),
            XmmRow::MovapsStore => ("movaps", XmmRole::Store, XmmSize::Bytes16),
            XmmRow::MovapdStore => ("movapd", XmmRole::Store, XmmSize::Bytes16),
            XmmRow::MovdqaLoad => ("movdqa", XmmRole::Load, XmmSize::Bytes16),
            XmmRow::MovdquLoad => ("movdqu", XmmRole::Load, XmmSize::Bytes16),
            XmmRow::MovdqaStore => ("movdqa", XmmRole::Store, XmmSize::Bytes16),
            XmmRow::MovdquStore => ("movdqu", XmmRole::Store, XmmSize::Bytes16),
            XmmRow::MovdLoad => ("movd", XmmRole::MoveFromGeneral, XmmSize::ByWide),
            XmmRow::MovdStore => ("movd", XmmRole::MoveToGeneral, XmmSize::ByWide),
            XmmRow::MovqLoad => ("movq", XmmRole::Load, XmmSize::Bytes8),
            XmmRow::MovqStore => ("movq", XmmRole::Store, XmmSize::Bytes8),
            XmmRow::Sqrtps => ("sqrtps", XmmRole::Load, XmmSize::Bytes16),
            XmmRow::Sqrtpd => ("sqrtpd", XmmRole::Load, XmmSize::Bytes16),
            XmmRow::Sqrtss => ("sqrtss", XmmRole::Load, XmmSize::Bytes4),
            XmmRow::Sqrtsd => ("sqrtsd", XmmRole::Load, XmmSize::Bytes8),
            XmmRow::Addps => ("addps", XmmRole::Load, XmmSize::Bytes16),
            XmmRow::Addpd => ("addpd", XmmRole::Load, XmmSize::Bytes16),
            XmmRow::Addss => ("addss", XmmRole::Load, XmmSize::Bytes4),
            XmmRow::Addsd => ("addsd", XmmRole::Load, XmmSize::Bytes8),
            XmmRow::Mulps => ("mulps", XmmRole::Load, XmmSize::Bytes16),
            XmmRow::Mulpd => ("mulpd", XmmRole::Load, XmmSize::Bytes16),
            XmmRow::Mulss => ("mulss", XmmRole::Load, XmmSize::Bytes4),
            XmmRow::Mulsd => ("mulsd", XmmRole::Load, XmmSize::Bytes8),
            XmmRow::Subps => ("subps", XmmRole::Load, XmmSize::Bytes16),
            XmmRow::Subpd => ("subpd", XmmRole::Load, XmmSize::Bytes16),
            XmmRow::Subss => ("subss", XmmRole::Load, XmmSize::Bytes4),
            XmmRow::Subsd => ("subsd", XmmRole::Load, XmmSize::Bytes8),
            XmmRow::Minps => ("minps", XmmRole::Load, XmmSize::Bytes16),
            XmmRow::Minpd => ("minpd", XmmRole::Load, XmmSize::Bytes16),
            XmmRow::Minss => ("minss", XmmRole::Load, XmmSize::Bytes4),
            XmmRow::Minsd => ("minsd", XmmRole::Load, XmmSize::Bytes8),
            XmmRow::Divps => ("divps", XmmRole::Load, XmmSize::Bytes16),
            XmmRow::Divpd => ("divpd", XmmRole::Load, XmmSize::Bytes16),
            XmmRow::Divss => ("divss", XmmRole::Load, XmmSize::Bytes4),
            XmmRow::Divsd => ("divsd", XmmRole::Load, XmmSize::Bytes8),
            XmmRow::Maxps => ("maxps", XmmRole::Load, XmmSize::Bytes16),
            XmmRow::Maxpd => ("maxpd", XmmRole::Load, XmmSize::Bytes16),
            XmmRow::Maxss => ("maxss", XmmRole::Load, XmmSize::Bytes4),
            XmmRow::Maxsd => ("maxsd", XmmRole::Load, XmmSize::Bytes8),
            XmmRow::Andps => ("andps", XmmRole::Load, XmmSize::Bytes16),
            XmmRow::Andpd => ("andpd", XmmRole::Load, XmmSize::Bytes16),
            XmmRow::Andnps => ("andnps", XmmRole::Load, XmmSize::Bytes16),
            XmmRow::Andnpd => ("andnpd", XmmRole::Load, XmmSize::Bytes16),
            XmmRow::Orps => ("orps", XmmRole::Load, XmmSize::Bytes16),
            XmmRow::Orpd => ("orpd", XmmRole::Load, XmmSize::Bytes16),
            XmmRow::Xorps => ("xorps", XmmRole::Load, XmmSize::Bytes16),
            XmmRow::Xorpd => ("xorpd", XmmRole::Load, XmmSize::Bytes16),
            XmmRow::Cvtps2pd => ("cvtps2pd", XmmRole::Load, XmmSize::Bytes8),
            XmmRow::Cvtpd2ps => ("cvtpd2ps", XmmRole::Load, XmmSize::Bytes16),
            XmmRow::Cvtss2sd => ("cvtss2sd", XmmRole::Load, XmmSize::Bytes4),
            XmmRow::Cvtsd2ss => ("cvtsd2ss", XmmRole::Load, XmmSize::Bytes8),
            XmmRow::Cvtdq2ps => ("cvtdq2ps", XmmRole::Load, XmmSize::Bytes16),
            XmmRow::Cvtps2dq => ("cvtps2dq", XmmRole::Load, XmmSize::Bytes16),
            XmmRow::Cvttps2dq => ("cvttps2dq", XmmRole::Load, XmmSize::Bytes16),
            XmmRow::Cvtsi2ss => ("cvtsi2ss", XmmRole::FromGeneral, XmmSize::ByWide),
            XmmRow::Cvtsi2sd => ("cvtsi2sd", XmmRole::FromGeneral, XmmSize::ByWide),
            XmmRow::Cvttss2si => ("cvttss2si", XmmRole::ToGeneral, XmmSize::Bytes4),
            XmmRow::Cvttsd2si => ("cvttsd2si", XmmRole::ToGeneral, XmmSize::Bytes8),
            XmmRow::Cvtss2si => ("cvtss2si", XmmRole::ToGeneral, XmmSize::Bytes4),
            XmmRow::Cvtsd2si => ("cvtsd2si", XmmRole::ToGeneral, XmmSize::Bytes8),
            XmmRow::Ucomiss => ("ucomiss", XmmRole::Compare, XmmSize::Bytes4),
            XmmRow::Ucomisd => ("ucomisd", XmmRole::Compare, XmmSize::Bytes8),
            XmmRow::Comiss => ("comiss", XmmRole::Compare, XmmSize::Bytes4),
            XmmRow::Comisd => ("comisd", XmmRole::Compare, XmmSize::Bytes8),
            XmmRow::Pxor => ("pxor", XmmRole::Load, XmmSize::Bytes16),
            XmmRow::Roundss => ("roundss", XmmRole::Rounding, XmmSize::Bytes4),
            XmmRow::Roundsd => ("roundsd", XmmRole::Rounding, XmmSize::Bytes8),
        }
    }
}
