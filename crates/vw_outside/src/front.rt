ghost use Rattle.std.specs.Prelude.{◌≡◌, ◌++◌, min, length, take, drop};

/// Copies as many bytes as fit to the front of `buf`, and answers how many they are.
pub fn move_front(bytes: &[u8], buf: &mut [u8]) -> usize
    ensures most { result ≡ min (length buf.old) (length bytes.now) }
    ensures front { buf.new ≡ take result bytes.now ++ drop result buf.old }
{
    let count = buf.len().min(bytes.len());
    buf[..count].copy_from_slice(&bytes[..count]);
    count
}
