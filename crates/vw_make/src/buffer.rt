ghost use Rattle.std.specs.Prelude.{◌≡◌, ◌+◌, ◌<◌, ◌≤◌, ◌^◌, ◌++◌, length, vec_len, OnOk};
ghost use Rattle.byteorder.specs.Endian.{little_bytes};
ghost use Rattle.vw_make.specs.Bytes.{zeros, rounded_up, filled_to, padded, put_at};

use vw_bits::OutOfMemory;

/// The least multiple of `align` that is not below `n`.
pub fn round_up(n: u64, align: u64) -> u64
    requires some { 1 ≤ align }
    requires small { align ≤ 4096 }
    requires fits { n < 2 ^ 63 }
    ensures value { result ≡ rounded_up align n }
    ensures above { n ≤ result }
    ensures near { result < n + align }
{
    (n + (align - 1)) / align * align
}

/// Appends bytes.
pub fn put(out: &mut Vec<u8>, bytes: &[u8]) -> Result<(), OutOfMemory>
    ensures { OnOk result (out.new.items ≡ out.old.items ++ bytes.now) }
{
    out.extend_from_slice(bytes)?;
    Ok(())
}

/// Appends the bytes of a number, the least significant first.
pub fn put_u16(out: &mut Vec<u8>, value: u16) -> Result<(), OutOfMemory>
    ensures { OnOk result (out.new.items ≡ out.old.items ++ little_bytes 2 value) }
{
    put(out, &value.to_le_bytes())
}

/// Appends the bytes of a number, the least significant first.
pub fn put_u32(out: &mut Vec<u8>, value: u32) -> Result<(), OutOfMemory>
    ensures { OnOk result (out.new.items ≡ out.old.items ++ little_bytes 4 value) }
{
    put(out, &value.to_le_bytes())
}

/// Appends the bytes of a number, the least significant first.
pub fn put_u64(out: &mut Vec<u8>, value: u64) -> Result<(), OutOfMemory>
    ensures { OnOk result (out.new.items ≡ out.old.items ++ little_bytes 8 value) }
{
    put(out, &value.to_le_bytes())
}

/// Appends zero bytes.
pub fn put_zeros(out: &mut Vec<u8>, count: usize) -> Result<(), OutOfMemory>
    ensures { OnOk result (out.new.items ≡ out.old.items ++ zeros count) }
{
    let bytes = vec![in *out.allocator(); 0u8; count]?;
    put(out, bytes.as_slice())
}

/// Appends zero bytes up to the offset `at`.
pub fn fill_to(out: &mut Vec<u8>, at: u64) -> Result<(), OutOfMemory>
    ensures { OnOk result (out.new.items ≡ filled_to at out.old.items) }
{
    let missing = (at as usize).saturating_sub(out.len());
    put_zeros(out, missing)
}

/// Appends bytes that make the length a multiple of `align`.
pub fn pad(bytes: &mut Vec<u8>, align: u64, filler: u8) -> Result<(), OutOfMemory>
    requires some { 1 ≤ align }
    requires small { align ≤ 4096 }
    requires fits { vec_len bytes.old < 2 ^ 32 }
    ensures { OnOk result (bytes.new.items ≡ padded align filler bytes.old.items) }
{
    let end = round_up(bytes.len() as u64, align) as usize;
    bytes.resize(end, filler)?;
    Ok(())
}

/// Writes a field over the bytes from `at` on.
pub fn write_at(bytes: &mut Vec<u8>, at: usize, field: &[u8])
    requires { at + length field.now ≤ vec_len bytes.old }
    ensures { bytes.new.items ≡ put_at at field.now bytes.old.items }
{
    bytes[at..at + field.len()].copy_from_slice(field);
}
