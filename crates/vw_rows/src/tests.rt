use crate::laws::row_search;
use crate::{Kind, Map, Prefix, row_of};
use vw_insn::{AluOp, BitsOp, ShiftOp, UnaryOp, XmmRow};

/// Opcodes of the SDM's maps, by prefix, map, opcode, reg field and whether mod is 3, and the number
/// of the row by a count of the opcode list from its top. F3 0F 1E is the front of F3 0F 1E FA, which has no
/// ModRM.
#[test]
fn finds_the_rows_of_the_opcode_maps(rt: HostRuntime) {
    let cases = [
        (
            Prefix::Plain,
            Map::One,
            0x00,
            5,
            false,
            Some((0, Kind::Alu(AluOp::Add))),
        ),
        (
            Prefix::Plain,
            Map::One,
            0x8B,
            0,
            false,
            Some((132, Kind::Mov)),
        ),
        (Prefix::Plain, Map::One, 0xFF, 3, true, None),
        (
            Prefix::PF3,
            Map::Two,
            0xB8,
            0,
            true,
            Some((223, Kind::Bits(BitsOp::Popcnt))),
        ),
        (Prefix::Plain, Map::Two, 0xB8, 0, true, None),
        (
            Prefix::Plain,
            Map::One,
            0xFF,
            0,
            true,
            Some((178, Kind::Unary(UnaryOp::Inc))),
        ),
        (
            Prefix::Plain,
            Map::One,
            0xC1,
            4,
            false,
            Some((149, Kind::Shift(ShiftOp::Shl))),
        ),
        (Prefix::Plain, Map::One, 0xC1, 6, false, None),
        (Prefix::Plain, Map::One, 0xC1, 12, false, None),
        (
            Prefix::Plain,
            Map::One,
            0x53,
            255,
            true,
            Some((72, Kind::Push)),
        ),
        (Prefix::Plain, Map::One, 0x87, 1, false, None),
        (Prefix::Plain, Map::One, 0x8D, 1, true, None),
        (Prefix::P66, Map::Two, 0xC9, 1, true, None),
        (Prefix::PF2, Map::One, 0x90, 0, true, None),
        (
            Prefix::PF3,
            Map::Two,
            0x1E,
            0,
            false,
            Some((229, Kind::Endbr)),
        ),
        (
            Prefix::PF3,
            Map::Two,
            0x1E,
            255,
            true,
            Some((229, Kind::Endbr)),
        ),
        (Prefix::Plain, Map::Two, 0x1E, 7, true, None),
        (
            Prefix::P66,
            Map::Three,
            0x0B,
            7,
            false,
            Some((305, Kind::Xmm(XmmRow::Roundsd))),
        ),
    ];
    for (prefix, map, opcode, digit, register_form, want) in cases {
        let found = row_of(prefix, map, opcode, digit, register_form);
        let told = found.map(|row| (row.number, row.kind));
        assert!(rt; told == want, "at {opcode}");
        let sought = row_search(prefix, map, opcode, digit, register_form);
        assert!(rt; sought == found, "searched at {opcode}");
    }
}
