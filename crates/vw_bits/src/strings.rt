ghost use Rattle.std.specs.Prelude.{◌≡◌, ◌==◌, option_copied};
ghost use Rattle.vw_bits.specs.Lists.{before_first};
ghost use Rattle.vw_bits.specs.Symbols.{short, short_string_at};

/// The greatest length of a name, in bytes.
const MAX_NAME: usize = 1024;

/// The string at an offset of a string table, up to the zero byte that ends it (gABI, "String Table");
/// `None` exactly where none does, or the string has more than 1,024 bytes. Reads no further than these.
pub fn short_string_at(strings: &[u8], at: u32) -> Option<&[u8]>
    ensures { option_copied result ≡ short_string_at strings.now at }
{
    if at as usize > strings.len() {
        return None;
    }
    short_string(&strings[at as usize..])
}

// The string that bytes begin with.
fn short_string(rest: &[u8]) -> Option<&[u8]>
    ensures { option_copied result ≡ short (before_first (λ b. b == 0) rest.now) }
{
    for index in 0..rest.len().min(MAX_NAME + 1) {
        if rest[index] == 0 {
            return Some(&rest[..index]);
        }
    }
    None
}
