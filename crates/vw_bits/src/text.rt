ghost use Rattle.std.specs.Prelude.{◌≡◌, [], ◌++◌, take, string_bytes, false, IfOk, OnOk, OnErr};
ghost use Rattle.std.specs.Fmt.{decimal, digits};
ghost use Rattle.vw_bits.specs.Numerals.{hex_text};

use crate::OutOfMemory;
use itoa::Buffer;
use std::alloc::Global;
use std::marker::Model;

/// Growable text that contracts see as the list of its bytes.
#[derive(Debug, Drop)]
pub struct Text {
    bytes: Vec<u8>,
}

impl Model for Text {
    ghost use Rattle.std.specs.Prelude.{List, ℕ};
    ghost use Rattle.std.specs.Coded.{coded_list, coded_ℕ};

    ghost Value = { List ℕ };

    ghost coded = { coded_list coded_ℕ };

    ghost view = { λ text. text.bytes.items };
}

impl Text {
    /// Empty text, whose bytes will come from `alloc`. Takes no memory.
    pub fn new(alloc: Global) -> Text
        ensures { result ≡ [] }
    {
        Text {
            bytes: Vec::new(alloc),
        }
    }

    /// Lends the bytes in order.
    pub fn as_slice(&self) -> &[u8]
        ensures { result.now ≡ self.now }
    {
        self.bytes.as_slice()
    }

    /// Keeps the first `len` bytes, or all where there are fewer. Takes no memory.
    pub fn truncate(&mut self, len: usize)
        ensures { self.new ≡ take len self.old }
    {
        self.bytes.truncate(len);
    }

    /// Appends bytes. Where memory is refused, the text stays as it was.
    pub fn push(&mut self, piece: &[u8]) -> Result<(), OutOfMemory>
        ensures ok { OnOk result (self.new ≡ self.old ++ piece.now) }
        ensures err { OnErr result (self.new ≡ self.old) }
    {
        self.bytes.extend_from_slice(piece)?;
        Ok(())
    }

    /// Appends a number in hexadecimal, in lower case, with zeros in front up to at least `digits`
    /// digits. Where memory is refused, the text stays as it was.
    pub fn hex(&mut self, v: u64, digits: u32) -> Result<(), OutOfMemory>
        ensures ok { OnOk result (self.new ≡ self.old ++ hex_text v digits) }
        ensures err { OnErr result (self.new ≡ self.old) }
    {
        let padded = padded_hex(*self.bytes.allocator(), v, digits as usize)?;
        self.bytes.extend_from_slice(padded.as_slice())?;
        Ok(())
    }

    /// Appends a number in decimal, without leading zeros. Where memory is refused, the text stays
    /// as it was.
    pub fn dec(&mut self, v: u64) -> Result<(), OutOfMemory>
        ensures ok { OnOk result (self.new ≡ self.old ++ decimal v) }
        ensures err { OnErr result (self.new ≡ self.old) }
    {
        let mut buffer = Buffer::new();
        self.bytes.extend_from_slice(buffer.format(v).as_bytes())?;
        Ok(())
    }
}

fn padded_hex(alloc: Global, v: u64, width: usize) -> Result<Vec<u8>, OutOfMemory>
    ensures { IfOk result (λ padded. padded.items ≡ hex_text v width) }
{
    let numeral = hex_numeral(alloc, v)?;
    let digits = numeral.as_bytes();
    let missing = width.saturating_sub(digits.len());
    let mut padded = vec![in alloc; b'0'; missing]?;
    padded.extend_from_slice(digits)?;
    Ok(padded)
}

fn hex_numeral(alloc: Global, v: u64) -> Result<String, OutOfMemory>
    ensures { IfOk result (λ numeral. string_bytes numeral ≡ digits 16 false v) }
{
    Ok(format!(in alloc; "{v:x}")?)
}
