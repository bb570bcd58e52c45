//! Which bytes can begin an instruction whose immediate counts among the bounds, as far as its opcode tells.

ghost use Rattle.std.specs.Prelude.{◌≡◌, [], false};
ghost use Rattle.vw_decode.specs.Lexing.{prefix_at, rex_at, read};
ghost use Rattle.vw_state.specs.Bounds.{bounds_read};
ghost use Rattle.vw_state.specs.Opcodes.{is_counting};

// Whether an instruction whose immediate counts may begin these bytes. Where it may not, nothing has to be decoded.
pub(crate) fn may_count(bytes: &[u8]) -> bool
    ensures { result ≡ false → bounds_read (read bytes.now) ≡ [] }
{
    match behind_rex(behind_prefix(bytes)) {
        [] => false,
        [opcode, ..] => is_counting(*opcode),
    }
}

// The bytes behind the legacy prefix, where there is one.
fn behind_prefix(bytes: &[u8]) -> &[u8]
    ensures { result.now ≡ (prefix_at bytes.now).1 }
{
    match bytes {
        [] => bytes,
        [first, rest @ ..] => {
            if *first == 0x66 {
                rest
            } else if *first == 0xF2 {
                rest
            } else if *first == 0xF3 {
                rest
            } else {
                bytes
            }
        }
    }
}

// The bytes behind REX, where there is one.
fn behind_rex(bytes: &[u8]) -> &[u8]
    ensures { result.now ≡ (rex_at bytes.now).1 }
{
    match bytes {
        [] => bytes,
        [first, rest @ ..] => { if *first / 16 == 4 { rest } else { bytes } }
    }
}

// The opcodes of one byte at which an AND, a CMP or a MOV has an immediate (SDM volume 2, A.3): AND and CMP of the
// accumulator, the groups of 80 to 83, MOV of B0 to BF and the group of C6 and C7.
fn is_counting(opcode: u8) -> bool
    ensures { result ≡ is_counting opcode }
{
    opcode / 16 == 0xB
        || opcode / 4 == 0x20
        || opcode / 2 == 0x12
        || opcode / 2 == 0x1E
        || opcode / 2 == 0x63
}
