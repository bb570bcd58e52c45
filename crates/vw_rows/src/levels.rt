//! The rows by opcode, and where they differ by digit or form by these: two reads find a row.
//!
//! An entry is 0 where there is no row, and else a row's number and 1. In a level that is read by the opcode
//! an entry from 32768 on leads to a level that is read by the digit and the form: it is 32768 and the place
//! of that level among `second_levels`.
ghost use Rattle.std.specs.Prelude.{◌≡◌, ◌+◌, ◌*◌, ◌<◌, true, find};
ghost use Rattle.vw_rows.specs.declared.patterns.Map.TheVariants.{One, Two, Three};
ghost use Rattle.vw_rows.specs.declared.patterns.Prefix.TheVariants.{Plain, P66, PF2, PF3};
ghost use Rattle.vw_rows.specs.Rows.{rows};
ghost use Rattle.vw_rows.specs.Lookup.{key, matches};
ghost use Rattle.vw_rows.specs.Levels.{bit, numbered, opcodes_agree, owners, owners_agree};

use crate::{Map, Prefix};

/// Rows by place: 0 for none, else a row's number and 1, or the way to a further level.
#[derive(Clone, Copy)]
pub struct Level<const N: usize> {
    pub entries: [u16; N],
}

// The entries, in their order.
macro_rules! level {
    ($($entry:literal)*) => { Level { entries: [$($entry),*] } };
}

/// The level of the map and the prefix, read by the opcode.
pub fn first_level(map: Map, prefix: Prefix) -> &'static Level<256>
    ensures { opcodes_agree map prefix result.now.entries ≡ true }
{
    match map {
        Map::One => match prefix {
            Prefix::Plain => one_plain(),
            Prefix::P66 => one_p66(),
            Prefix::PF2 => one_pf2(),
            Prefix::PF3 => one_pf3(),
        },
        Map::Two => match prefix {
            Prefix::Plain => two_plain(),
            Prefix::P66 => two_p66(),
            Prefix::PF2 => two_pf2(),
            Prefix::PF3 => two_pf3(),
        },
        Map::Three => match prefix {
            Prefix::Plain => three_plain(),
            Prefix::P66 => three_p66(),
            Prefix::PF2 => three_pf2(),
            Prefix::PF3 => three_pf3(),
        },
    }
}

/// The opcodes of one byte, without prefix.
pub fn one_plain() -> &'static Level<256>
    ensures { opcodes_agree One Plain result.now.entries ≡ true }
{
    static LEVEL: Level<256> = level! {
        1 9 17 25 33 41 0 0 2 10 18 26 34 42 0 0
        3 11 19 27 35 43 0 0 4 12 20 28 36 44 0 0
        5 13 21 29 37 45 0 0 6 14 22 30 38 46 0 0
        7 15 23 31 39 47 0 0 8 16 24 32 40 48 0 0
        0 0 0 0 0 0 0 0 0 0 0 0 0 0 0 0
        73 73 73 73 73 73 73 73 77 77 77 77 77 77 77 77
        0 0 0 78 0 0 0 0 74 84 75 83 0 0 0 0
        86 87 88 89 90 91 92 93 94 95 96 97 98 99 100 101
        32768 32769 0 32770 125 126 0 32771 130 131 132 133 0 32772 0 0
        139 0 0 0 0 0 0 0 141 142 0 0 0 0 0 0
        0 0 0 0 0 0 0 0 0 0 0 0 0 0 0 0
        134 134 134 134 134 134 134 134 137 137 137 137 137 137 137 137
        32773 32774 0 121 0 0 32775 32776 0 122 0 0 0 0 0 0
        32777 32778 32779 32780 0 0 0 0 0 0 0 0 0 0 0 0
        0 0 0 0 0 0 0 0 120 119 0 118 0 0 0 0
        0 0 0 0 0 0 32781 32782 0 0 0 0 0 0 32783 32784
    };
    &LEVEL
}

/// The opcodes of one byte, with 66.
pub fn one_p66() -> &'static Level<256>
    ensures { opcodes_agree One P66 result.now.entries ≡ true }
{
    static LEVEL: Level<256> = level! {
        0 9 0 25 0 41 0 0 0 10 0 26 0 42 0 0
        0 11 0 27 0 43 0 0 0 12 0 28 0 44 0 0
        0 13 0 29 0 45 0 0 0 14 0 30 0 46 0 0
        0 15 0 31 0 47 0 0 0 16 0 32 0 48 0 0
        0 0 0 0 0 0 0 0 0 0 0 0 0 0 0 0
        0 0 0 0 0 0 0 0 0 0 0 0 0 0 0 0
        0 0 0 0 0 0 0 0 0 84 0 83 0 0 0 0
        0 0 0 0 0 0 0 0 0 0 0 0 0 0 0 0
        0 32785 0 32786 0 126 0 32787 0 131 0 133 0 32788 0 0
        139 0 0 0 0 0 0 0 141 142 0 0 0 0 0 0
        0 0 0 0 0 0 0 0 0 0 0 0 0 0 0 0
        0 0 0 0 0 0 0 0 137 137 137 137 137 137 137 137
        0 32789 0 0 0 0 0 32790 0 0 0 0 0 0 0 0
        0 32791 0 32792 0 0 0 0 0 0 0 0 0 0 0 0
        0 0 0 0 0 0 0 0 0 0 0 0 0 0 0 0
        0 0 0 0 0 0 0 32793 0 0 0 0 0 0 0 32794
    };
    &LEVEL
}

/// The opcodes of one byte, with F2.
pub fn one_pf2() -> &'static Level<256>
    ensures { opcodes_agree One PF2 result.now.entries ≡ true }
{
    static LEVEL: Level<256> = level! {
        0 0 0 0 0 0 0 0 0 0 0 0 0 0 0 0
        0 0 0 0 0 0 0 0 0 0 0 0 0 0 0 0
        0 0 0 0 0 0 0 0 0 0 0 0 0 0 0 0
        0 0 0 0 0 0 0 0 0 0 0 0 0 0 0 0
        0 0 0 0 0 0 0 0 0 0 0 0 0 0 0 0
        0 0 0 0 0 0 0 0 0 0 0 0 0 0 0 0
        0 0 0 0 0 0 0 0 0 0 0 0 0 0 0 0
        0 0 0 0 0 0 0 0 0 0 0 0 0 0 0 0
        0 0 0 0 0 0 0 0 0 0 0 0 0 0 0 0
        0 0 0 0 0 0 0 0 0 0 0 0 0 0 0 0
        0 0 0 0 0 0 0 0 0 0 0 0 0 0 0 0
        0 0 0 0 0 0 0 0 0 0 0 0 0 0 0 0
        0 0 0 0 0 0 0 0 0 0 0 0 0 0 0 0
        0 0 0 0 0 0 0 0 0 0 0 0 0 0 0 0
        0 0 0 0 0 0 0 0 0 0 0 0 0 0 0 0
        0 0 0 0 0 0 0 0 0 0 0 0 0 0 0 0
    };
    &LEVEL
}

/// The opcodes of one byte, with F3.
pub fn one_pf3() -> &'static Level<256>
    ensures { opcodes_agree One PF3 result.now.entries ≡ true }
{
    static LEVEL: Level<256> = level! {
        0 0 0 0 0 0 0 0 0 0 0 0 0 0 0 0
        0 0 0 0 0 0 0 0 0 0 0 0 0 0 0 0
        0 0 0 0 0 0 0 0 0 0 0 0 0 0 0 0
        0 0 0 0 0 0 0 0 0 0 0 0 0 0 0 0
        0 0 0 0 0 0 0 0 0 0 0 0 0 0 0 0
        0 0 0 0 0 0 0 0 0 0 0 0 0 0 0 0
        0 0 0 0 0 0 0 0 0 0 0 0 0 0 0 0
        0 0 0 0 0 0 0 0 0 0 0 0 0 0 0 0
        0 0 0 0 0 0 0 0 0 0 0 0 0 0 0 0
        0 0 0 0 0 0 0 0 0 0 0 0 0 0 0 0
        0 0 0 0 0 0 0 0 0 0 0 0 0 0 0 0
        0 0 0 0 0 0 0 0 0 0 0 0 0 0 0 0
        0 0 0 0 0 0 0 0 0 0 0 0 0 0 0 0
        0 0 0 0 0 0 0 0 0 0 0 0 0 0 0 0
        0 0 0 0 0 0 0 0 0 0 0 0 0 0 0 0
        0 0 0 0 0 0 0 0 0 0 0 0 0 0 0 0
    };
    &LEVEL
}

/// The opcodes behind 0F, without prefix.
pub fn two_plain() -> &'static Level<256>
    ensures { opcodes_agree Two Plain result.now.entries ≡ true }
{
    static LEVEL: Level<256> = level! {
        0 0 0 0 0 0 0 0 0 0 0 189 0 0 0 0
        231 235 0 0 0 0 0 0 0 0 0 0 0 0 0 32795
        0 0 0 0 0 0 0 0 239 241 0 0 0 0 300 302
        0 0 0 0 0 0 0 0 0 0 0 0 0 0 0 0
        190 191 192 193 194 195 196 197 198 199 200 201 202 203 204 205
        0 251 0 0 279 281 283 285 255 259 287 291 263 267 271 275
        0 0 0 0 0 0 0 0 0 0 0 0 0 0 0 0
        0 0 0 0 0 0 0 0 0 0 0 0 0 0 0 0
        102 103 104 105 106 107 108 109 110 111 112 113 114 115 116 117
        206 207 208 209 210 211 212 213 214 215 216 217 218 219 220 221
        0 0 0 32796 0 0 0 0 0 0 0 0 0 0 0 85
        0 0 0 0 0 0 79 80 0 0 32797 0 222 223 81 82
        0 0 0 0 0 0 0 0 229 229 229 229 229 229 229 229
        0 0 0 0 0 0 0 0 0 0 0 0 0 0 0 0
        0 0 0 0 0 0 0 0 0 0 0 0 0 0 0 0
        0 0 0 0 0 0 0 0 0 0 0 0 0 0 0 0
    };
    &LEVEL
}

/// The opcodes behind 0F, with 66.
pub fn two_p66() -> &'static Level<256>
    ensures { opcodes_agree Two P66 result.now.entries ≡ true }
{
    static LEVEL: Level<256> = level! {
        0 0 0 0 0 0 0 0 0 0 0 0 0 0 0 0
        232 236 0 0 0 0 0 0 0 0 0 0 0 0 0 32798
        0 0 0 0 0 0 0 0 240 242 0 0 0 0 301 303
        0 0 0 0 0 0 0 0 0 0 0 0 0 0 0 0
        190 191 192 193 194 195 196 197 198 199 200 201 202 203 204 205
        0 252 0 0 280 282 284 286 256 260 288 292 264 268 272 276
        0 0 0 0 0 0 0 0 0 0 0 0 0 0 247 243
        0 0 0 0 0 0 0 0 0 0 0 0 0 0 248 245
        0 0 0 0 0 0 0 0 0 0 0 0 0 0 0 0
        0 0 0 0 0 0 0 0 0 0 0 0 0 0 0 0
        0 0 0 32799 0 0 0 0 0 0 0 0 0 0 0 85
        0 0 0 0 0 0 0 0 0 0 32800 0 222 223 0 0
        0 0 0 0 0 0 0 0 0 0 0 0 0 0 0 0
        0 0 0 0 0 0 250 0 0 0 0 0 0 0 0 0
        0 0 0 0 0 0 0 0 0 0 0 0 0 0 0 304
        0 0 0 0 0 0 0 0 0 0 0 0 0 0 0 0
    };
    &LEVEL
}

/// The opcodes behind 0F, with F2.
pub fn two_pf2() -> &'static Level<256>
    ensures { opcodes_agree Two PF2 result.now.entries ≡ true }
{
    static LEVEL: Level<256> = level! {
        0 0 0 0 0 0 0 0 0 0 0 0 0 0 0 0
        234 238 0 0 0 0 0 0 0 0 0 0 0 0 0 0
        0 0 0 0 0 0 0 0 0 0 295 0 297 299 0 0
        0 0 0 0 0 0 0 0 0 0 0 0 0 0 0 0
        0 0 0 0 0 0 0 0 0 0 0 0 0 0 0 0
        0 254 0 0 0 0 0 0 258 262 290 0 266 270 274 278
        0 0 0 0 0 0 0 0 0 0 0 0 0 0 0 0
        0 0 0 0 0 0 0 0 0 0 0 0 0 0 0 0
        0 0 0 0 0 0 0 0 0 0 0 0 0 0 0 0
        0 0 0 0 0 0 0 0 0 0 0 0 0 0 0 0
        0 0 0 0 0 0 0 0 0 0 0 0 0 0 0 0
        0 0 0 0 0 0 0 0 0 0 0 0 0 0 0 0
        0 0 0 0 0 0 0 0 0 0 0 0 0 0 0 0
        0 0 0 0 0 0 0 0 0 0 0 0 0 0 0 0
        0 0 0 0 0 0 0 0 0 0 0 0 0 0 0 0
        0 0 0 0 0 0 0 0 0 0 0 0 0 0 0 0
    };
    &LEVEL
}

/// The opcodes behind 0F, with F3.
pub fn two_pf3() -> &'static Level<256>
    ensures { opcodes_agree Two PF3 result.now.entries ≡ true }
{
    static LEVEL: Level<256> = level! {
        0 0 0 0 0 0 0 0 0 0 0 0 0 0 0 0
        233 237 0 0 0 0 0 0 0 0 0 0 0 0 230 0
        0 0 0 0 0 0 0 0 0 0 294 0 296 298 0 0
        0 0 0 0 0 0 0 0 0 0 0 0 0 0 0 0
        0 0 0 0 0 0 0 0 0 0 0 0 0 0 0 0
        0 253 0 0 0 0 0 0 257 261 289 293 265 269 273 277
        0 0 0 0 0 0 0 0 0 0 0 0 0 0 0 244
        0 0 0 0 0 0 0 0 0 0 0 0 0 0 249 246
        0 0 0 0 0 0 0 0 0 0 0 0 0 0 0 0
        0 0 0 0 0 0 0 0 0 0 0 0 0 0 0 0
        0 0 0 0 0 0 0 0 0 0 0 0 0 0 0 0
        0 0 0 0 0 0 0 0 224 0 0 0 225 226 0 0
        0 0 0 0 0 0 0 0 0 0 0 0 0 0 0 0
        0 0 0 0 0 0 0 0 0 0 0 0 0 0 0 0
        0 0 0 0 0 0 0 0 0 0 0 0 0 0 0 0
        0 0 0 0 0 0 0 0 0 0 0 0 0 0 0 0
    };
    &LEVEL
}

/// The opcodes behind 0F 3A, without prefix.
pub fn three_plain() -> &'static Level<256>
    ensures { opcodes_agree Three Plain result.now.entries ≡ true }
{
    static LEVEL: Level<256> = level! {
        0 0 0 0 0 0 0 0 0 0 0 0 0 0 0 0
        0 0 0 0 0 0 0 0 0 0 0 0 0 0 0 0
        0 0 0 0 0 0 0 0 0 0 0 0 0 0 0 0
        0 0 0 0 0 0 0 0 0 0 0 0 0 0 0 0
        0 0 0 0 0 0 0 0 0 0 0 0 0 0 0 0
        0 0 0 0 0 0 0 0 0 0 0 0 0 0 0 0
        0 0 0 0 0 0 0 0 0 0 0 0 0 0 0 0
        0 0 0 0 0 0 0 0 0 0 0 0 0 0 0 0
        0 0 0 0 0 0 0 0 0 0 0 0 0 0 0 0
        0 0 0 0 0 0 0 0 0 0 0 0 0 0 0 0
        0 0 0 0 0 0 0 0 0 0 0 0 0 0 0 0
        0 0 0 0 0 0 0 0 0 0 0 0 0 0 0 0
        0 0 0 0 0 0 0 0 0 0 0 0 0 0 0 0
        0 0 0 0 0 0 0 0 0 0 0 0 0 0 0 0
        0 0 0 0 0 0 0 0 0 0 0 0 0 0 0 0
        0 0 0 0 0 0 0 0 0 0 0 0 0 0 0 0
    };
    &LEVEL
}

/// The opcodes behind 0F 3A, with 66.
pub fn three_p66() -> &'static Level<256>
    ensures { opcodes_agree Three P66 result.now.entries ≡ true }
{
    static LEVEL: Level<256> = level! {
        0 0 0 0 0 0 0 0 0 0 305 306 0 0 0 0
        0 0 0 0 0 0 0 0 0 0 0 0 0 0 0 0
        0 0 0 0 0 0 0 0 0 0 0 0 0 0 0 0
        0 0 0 0 0 0 0 0 0 0 0 0 0 0 0 0
        0 0 0 0 0 0 0 0 0 0 0 0 0 0 0 0
        0 0 0 0 0 0 0 0 0 0 0 0 0 0 0 0
        0 0 0 0 0 0 0 0 0 0 0 0 0 0 0 0
        0 0 0 0 0 0 0 0 0 0 0 0 0 0 0 0
        0 0 0 0 0 0 0 0 0 0 0 0 0 0 0 0
        0 0 0 0 0 0 0 0 0 0 0 0 0 0 0 0
        0 0 0 0 0 0 0 0 0 0 0 0 0 0 0 0
        0 0 0 0 0 0 0 0 0 0 0 0 0 0 0 0
        0 0 0 0 0 0 0 0 0 0 0 0 0 0 0 0
        0 0 0 0 0 0 0 0 0 0 0 0 0 0 0 0
        0 0 0 0 0 0 0 0 0 0 0 0 0 0 0 0
        0 0 0 0 0 0 0 0 0 0 0 0 0 0 0 0
    };
    &LEVEL
}

/// The opcodes behind 0F 3A, with F2.
pub fn three_pf2() -> &'static Level<256>
    ensures { opcodes_agree Three PF2 result.now.entries ≡ true }
{
    static LEVEL: Level<256> = level! {
        0 0 0 0 0 0 0 0 0 0 0 0 0 0 0 0
        0 0 0 0 0 0 0 0 0 0 0 0 0 0 0 0
        0 0 0 0 0 0 0 0 0 0 0 0 0 0 0 0
        0 0 0 0 0 0 0 0 0 0 0 0 0 0 0 0
        0 0 0 0 0 0 0 0 0 0 0 0 0 0 0 0
        0 0 0 0 0 0 0 0 0 0 0 0 0 0 0 0
        0 0 0 0 0 0 0 0 0 0 0 0 0 0 0 0
        0 0 0 0 0 0 0 0 0 0 0 0 0 0 0 0
        0 0 0 0 0 0 0 0 0 0 0 0 0 0 0 0
        0 0 0 0 0 0 0 0 0 0 0 0 0 0 0 0
        0 0 0 0 0 0 0 0 0 0 0 0 0 0 0 0
        0 0 0 0 0 0 0 0 0 0 0 0 0 0 0 0
        0 0 0 0 0 0 0 0 0 0 0 0 0 0 0 0
        0 0 0 0 0 0 0 0 0 0 0 0 0 0 0 0
        0 0 0 0 0 0 0 0 0 0 0 0 0 0 0 0
        0 0 0 0 0 0 0 0 0 0 0 0 0 0 0 0
    };
    &LEVEL
}

/// The opcodes behind 0F 3A, with F3.
pub fn three_pf3() -> &'static Level<256>
    ensures { opcodes_agree Three PF3 result.now.entries ≡ true }
{
    static LEVEL: Level<256> = level! {
        0 0 0 0 0 0 0 0 0 0 0 0 0 0 0 0
        0 0 0 0 0 0 0 0 0 0 0 0 0 0 0 0
        0 0 0 0 0 0 0 0 0 0 0 0 0 0 0 0
        0 0 0 0 0 0 0 0 0 0 0 0 0 0 0 0
        0 0 0 0 0 0 0 0 0 0 0 0 0 0 0 0
        0 0 0 0 0 0 0 0 0 0 0 0 0 0 0 0
        0 0 0 0 0 0 0 0 0 0 0 0 0 0 0 0
        0 0 0 0 0 0 0 0 0 0 0 0 0 0 0 0
        0 0 0 0 0 0 0 0 0 0 0 0 0 0 0 0
        0 0 0 0 0 0 0 0 0 0 0 0 0 0 0 0
        0 0 0 0 0 0 0 0 0 0 0 0 0 0 0 0
        0 0 0 0 0 0 0 0 0 0 0 0 0 0 0 0
        0 0 0 0 0 0 0 0 0 0 0 0 0 0 0 0
        0 0 0 0 0 0 0 0 0 0 0 0 0 0 0 0
        0 0 0 0 0 0 0 0 0 0 0 0 0 0 0 0
        0 0 0 0 0 0 0 0 0 0 0 0 0 0 0 0
    };
    &LEVEL
}

/// One level for each opcode whose rows differ by digit or form, in the order of `owners`. Read by twice the
/// digit, and 1 more for a register.
pub fn second_levels() -> &'static [Level<16>]
    ensures { owners_agree owners result.now ≡ true }
{
    static LEVELS: [Level<16>; 33] = [
        level! { 49 49 50 50 51 51 52 52 53 53 54 54 55 55 56 56 },
        level! { 65 65 66 66 67 67 68 68 69 69 70 70 71 71 72 72 },
        level! { 57 57 58 58 59 59 60 60 61 61 62 62 63 63 64 64 },
        level! { 0 129 0 129 0 129 0 129 0 129 0 129 0 129 0 129 },
        level! { 138 0 138 0 138 0 138 0 138 0 138 0 138 0 138 0 },
        level! { 143 143 144 144 0 0 0 0 145 145 146 146 0 0 147 147 },
        level! { 148 148 149 149 0 0 0 0 150 150 151 151 0 0 152 152 },
        level! { 135 135 0 0 0 0 0 0 0 0 0 0 0 0 0 0 },
        level! { 136 136 0 0 0 0 0 0 0 0 0 0 0 0 0 0 },
        level! { 153 153 154 154 0 0 0 0 155 155 156 156 0 0 157 157 },
        level! { 158 158 159 159 0 0 0 0 160 160 161 161 0 0 162 162 },
        level! { 163 163 164 164 0 0 0 0 165 165 166 166 0 0 167 167 },
        level! { 168 168 169 169 0 0 0 0 170 170 171 171 0 0 172 172 },
        level! { 127 127 0 0 173 173 174 174 181 181 182 182 183 183 184 184 },
        level! { 128 128 0 0 175 175 176 176 185 185 186 186 187 187 188 188 },
        level! { 177 177 178 178 0 0 0 0 0 0 0 0 0 0 0 0 },
        level! { 179 179 180 180 123 123 0 0 124 124 0 0 76 76 0 0 },
        level! { 65 65 66 66 67 67 68 68 69 69 70 70 71 71 72 72 },
        level! { 57 57 58 58 59 59 60 60 61 61 62 62 63 63 64 64 },
        level! { 0 129 0 129 0 129 0 129 0 129 0 129 0 129 0 129 },
        level! { 138 0 138 0 138 0 138 0 138 0 138 0 138 0 138 0 },
        level! { 148 148 149 149 0 0 0 0 150 150 151 151 0 0 152 152 },
        level! { 136 136 0 0 0 0 0 0 0 0 0 0 0 0 0 0 },
        level! { 158 158 159 159 0 0 0 0 160 160 161 161 0 0 162 162 },
        level! { 168 168 169 169 0 0 0 0 170 170 171 171 0 0 172 172 },
        level! { 128 128 0 0 175 175 176 176 185 185 186 186 187 187 188 188 },
        level! { 179 179 180 180 0 0 0 0 0 0 0 0 0 0 0 0 },
        level! { 140 140 0 0 0 0 0 0 0 0 0 0 0 0 0 0 },
        level! { 0 227 0 227 0 227 0 227 0 227 0 227 0 227 0 227 },
        level! { 0 0 0 0 0 0 0 0 0 228 0 0 0 0 0 0 },
        level! { 140 140 0 0 0 0 0 0 0 0 0 0 0 0 0 0 },
        level! { 0 227 0 227 0 227 0 227 0 227 0 227 0 227 0 227 },
        level! { 0 0 0 0 0 0 0 0 0 228 0 0 0 0 0 0 },
    ];
    &LEVELS
}

// The number of the key's row and 1, or 0.
pub(crate) fn entry_at(prefix: Prefix, map: Map, opcode: u8, digit: u8, register_form: bool) -> u16
    requires { digit < 8 }
    ensures { numbered result ≡ find (λ r. matches r (key prefix map opcode digit register_form)) rows }
{
    let entry = first_level(map, prefix).entries[opcode as usize];
    if entry < 32768 {
        return entry;
    }
    let levels = second_levels();
    levels[entry as usize - 32768].entries[column(digit, register_form)]
}

fn column(digit: u8, register_form: bool) -> usize
    requires { digit < 8 }
    ensures { result ≡ digit * 2 + bit register_form }
{
    if register_form {
        digit as usize * 2 + 1
    } else {
        digit as usize * 2
    }
}
