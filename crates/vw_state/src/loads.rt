//! What loads give.

ghost use Rattle.std.specs.Prelude.{◌≡◌, ◌⊎◌, ◌^◌, ℕ, ℤ, List, Some, None, false, option_map, IfSome};
ghost use Rattle.vw_names.specs.declared.spot.Spot.{Spot};
ghost use Rattle.vw_stmt.specs.Lifted.{IsLoad};
ghost use Rattle.vw_values.specs.declared.value.Value.TheVariants.{Below};
ghost use Rattle.vw_values.specs.Values.{IsValue, IsAmong};
ghost use Rattle.vw_domain.specs.Abstract.{abstract_of};
ghost use Rattle.vw_domain.specs.Addresses.{Frame, Image};
ghost use Rattle.vw_domain.specs.Memory.{wide_value, plain_kind, value_or, word_value, half_word_value, function_value, entry_value, whole_value, half_value, offset_value, known_value, slot_half, load_value, load_source};
ghost use Rattle.vw_domain.specs.Registers.{IsWithin};
ghost use Rattle.vw_state.specs.Addresses.{address_view};
ghost use Rattle.vw_state.specs.Context.{equation_site};
ghost use Rattle.vw_state.specs.Sites.{word_in};

use crate::{Address, Site};
use vw_domain::State;
use vw_image::Word;
use vw_insn::Width;
use vw_names::Spot;
use vw_values::{Value, Via, narrow32};

const WHOLE: u64 = 0x1_0000_0000;

// A whole word, or 32 bits that are extended to one by their sign: a number where the heap or the globals hold it.
fn wide_value(at: Address) -> Value
    ensures { result ≡ wide_value (address_view at) }
{
    match at {
        Address::Heap { low, high } => {
            if 0 <= low && high < 0x2_0000_0000 {
                Value::Num
            } else {
                Value::Any
            }
        }
        Address::Globals { .. } => Value::Num,
        _ => Value::Any,
    }
}

// A number of so many bytes, fewer than eight.
fn below_bytes(size: u8) -> Value
    requires { (size ≡ 1) ⊎ ((size ≡ 2) ⊎ (size ≡ 4)) }
    ensures { result ≡ Below (256 ^ size) }
{
    match size {
        1 => Value::Below(0x100),
        2 => Value::Below(0x1_0000),
        _ => Value::Below(WHOLE),
    }
}

// The value of a load where its address tells nothing more.
fn plain_kind(size: u8, to: Width, signed: bool) -> Option<Value>
    requires { IsLoad size to signed }
    ensures { result ≡ plain_kind size to signed }
{
    match to {
        Width::W8 | Width::W16 => Some(Value::Num),
        Width::W32 => Some(if signed {
            Value::Below(WHOLE)
        } else {
            below_bytes(size)
        }),
        Width::W64 => wide_kind(size, signed),
    }
}

fn wide_kind(size: u8, signed: bool) -> Option<Value>
    requires { IsLoad size Width.W64 signed }
    ensures { result ≡ plain_kind size Width.W64 signed }
{
    if signed {
        if size == 4 { None } else { Some(Value::Num) }
    } else if size == 8 {
        None
    } else {
        Some(below_bytes(size))
    }
}

fn value_or(first: Option<Value>, second: Value) -> Value
    ensures { result ≡ value_or first second }
{
    match first {
        Some(value) => value,
        None => second,
    }
}

fn word_value(word: Word) -> Option<Value>
    ensures is { result ≡ word_value (word_in word) }
    ensures valid { IfSome result (λ v. IsValue v × ((b : List ℕ) → IsAmong b v)) }
{
    match word {
        Word::Plain(number) => Some(Value::Const(number)),
        Word::Based(a) => Some(Value::Image(a)),
        Word::Bound(_) | Word::Mixed | Word::Outside => None,
    }
}

fn half_word_value(word: Word) -> Option<Value>
    ensures is { result ≡ half_word_value (word_in word) }
    ensures valid { IfSome result (λ v. IsValue v × ((b : List ℕ) → IsAmong b v)) }
{
    match word {
        Word::Plain(number) => Some(Value::Const(number)),
        Word::Based(_) | Word::Bound(_) | Word::Mixed | Word::Outside => None,
    }
}

// The function of an entry with a known tag.
fn function_value(table: u32, tag: Option<u64>) -> Option<Value>
    ensures { result ≡ function_value table tag }
{
    match tag {
        Some(tag) => Some(Value::TableFn { table, tag }),
        None => None,
    }
}

// An entry holds its tag, and behind it its function.
fn entry_value(table: u32, tag: Option<u64>, disp: u32, via: Via) -> Option<Value>
    ensures { result ≡ entry_value table tag disp via }
{
    if disp == 0 {
        Some(Value::TagOf { table, via })
    } else if disp == 8 {
        function_value(table, tag)
    } else {
        None
    }
}

// What eight bytes of the image are known to be.
fn whole_word(site: &Site, a: u64) -> Option<Value>
    ensures is { (next : ℕ) → result ≡ word_value ((equation_site site.now next).word_at a 8) }
    ensures valid { IfSome result (λ v. IsValue v × ((b : List ℕ) → IsAmong b v)) }
{
    word_value(site.image.word_at(a, 8))
}

// What four bytes of the image are known to be, without their sign.
fn half_word(site: &Site, a: u64) -> Option<Value>
    ensures is { (next : ℕ) → result ≡ half_word_value ((equation_site site.now next).word_at a 4) }
    ensures valid { IfSome result (λ v. IsValue v × ((b : List ℕ) → IsAmong b v)) }
{
    half_word_value(site.image.word_at(a, 4))
}

// What eight bytes at an address are known to be.
fn whole_value(site: &Site, at: Address) -> Option<Value>
    ensures is { (next : ℕ) → result ≡ whole_value (equation_site site.now next) (address_view at) }
    ensures valid { (a : ℕ) → address_view at ≡ Image a
        → IfSome result (λ v. IsValue v × ((b : List ℕ) → IsAmong b v)) }
{
    match at {
        Address::Heap { low, high } => {
            if low == -8 && high == -8 {
                Some(Value::Globals)
            } else {
                None
            }
        }
        Address::Image(a) => whole_word(site, a),
        Address::Entry {
            table,
            tag,
            disp,
            via,
        } => entry_value(table, tag, disp, via),
        _ => None,
    }
}

// What four bytes are known to be, without their sign.
fn half_value(site: &Site, at: Address) -> Option<Value>
    ensures is { (next : ℕ) → result ≡ half_value (equation_site site.now next) (address_view at) }
    ensures valid { (a : ℕ) → address_view at ≡ Image a
        → IfSome result (λ v. IsValue v × ((b : List ℕ) → IsAmong b v)) }
{
    match at {
        Address::Image(a) => half_word(site, a),
        _ => None,
    }
}

// What four bytes are known to be, extended by their sign: an offset from a table of jumps.
fn offset_value(at: Address) -> Option<Value>
    ensures { result ≡ offset_value (address_view at) }
{
    match at {
        Address::Range { at, scale, k } => {
            if scale == 4 && k <= 65536 {
                Some(Value::JumpOff { a: at, k })
            } else {
                None
            }
        }
        _ => None,
    }
}

// What bytes are known to be that are extended to 64 bits by zeros.
fn extended_value(site: &Site, at: Address, size: u8) -> Option<Value>
    ensures is { (next : ℕ) → result ≡ known_value (equation_site site.now next) (address_view at) size Width.W64 false }
    ensures valid { (a : ℕ) → address_view at ≡ Image a
        → IfSome result (λ v. IsValue v × ((b : List ℕ) → IsAmong b v)) }
{
    if size == 8 {
        whole_value(site, at)
    } else if size == 4 {
        half_value(site, at)
    } else {
        None
    }
}

// What bytes at an address are known to be, extended to a width.
fn known_value(site: &Site, at: Address, size: u8, to: Width, signed: bool) -> Option<Value>
    ensures is { (next : ℕ) → result ≡ known_value (equation_site site.now next) (address_view at) size to signed }
    ensures valid { (a : ℕ) → address_view at ≡ Image a
        → IfSome result (λ v. IsValue v × ((b : List ℕ) → IsAmong b v)) }
{
    match to {
        Width::W8 | Width::W16 => None,
        Width::W32 => {
            if !signed && size == 4 {
                half_value(site, at)
            } else {
                None
            }
        }
        Width::W64 => {
            if !signed {
                return extended_value(site, at, size);
            }
            if size == 4 { offset_value(at) } else { None }
        }
    }
}

// The low four bytes of a slot of eight, without their sign.
fn half_of(state: &State, offset: i64, size: u8, signed: bool) -> Option<Value>
    requires { IsWithin (2 ^ 32) offset }
    ensures { result ≡ slot_half (abstract_of state.now) (Frame offset) size signed }
{
    if size == 4 && !signed && state.size(offset) == 8 {
        Some(narrow32(state.value(Spot::Slot(offset))))
    } else {
        None
    }
}

fn slot_half(state: &State, at: Address, size: u8, signed: bool) -> Option<Value>
    requires { (c : ℤ) → address_view at ≡ Frame c → IsWithin (2 ^ 32) c }
    ensures { result ≡ slot_half (abstract_of state.now) (address_view at) size signed }
{
    match at {
        Address::Frame(offset) => half_of(state, offset, size, signed),
        _ => None,
    }
}

// The value of so many bytes at an address, extended to a width.
pub fn load_value(
    site: &Site,
    state: &State,
    at: Address,
    size: u8,
    to: Width,
    signed: bool,
) -> Value
    requires frame { (c : ℤ) → address_view at ≡ Frame c → IsWithin (2 ^ 32) c }
    requires load { IsLoad size to signed }
    ensures is { (next : ℕ) → result
        ≡ load_value (equation_site site.now next) (abstract_of state.now) (address_view at) size to signed }
    ensures sound { (next a : ℕ) → address_view at ≡ Image a
        → IfSome (known_value (equation_site site.now next) (address_view at) size to signed)
        (λ v. IsValue v × ((b : List ℕ) → IsAmong b v)) }
{
    let plain = value_or(plain_kind(size, to, signed), wide_value(at));
    let told = known_value(site, at, size, to, signed);
    let known = value_or(told, plain);
    value_or(slot_half(state, at, size, signed), known)
}

fn copied(state: &State, offset: i64, size: u8, signed: bool) -> Option<i64>
    requires { IsWithin (2 ^ 32) offset }
    ensures { option_map Spot.Slot result
        ≡ load_source (abstract_of state.now) (Frame offset) size signed }
{
    if (size == 8 || size == 4 && !signed) && state.size(offset) == size {
        Some(offset)
    } else {
        None
    }
}

// The offset of the slot of which a load is a copy.
pub fn load_source(state: &State, at: Address, size: u8, signed: bool) -> Option<i64>
    requires { (c : ℤ) → address_view at ≡ Frame c → IsWithin (2 ^ 32) c }
    ensures { option_map Spot.Slot result
        ≡ load_source (abstract_of state.now) (address_view at) size signed }
{
    match at {
        Address::Frame(offset) => copied(state, offset, size, signed),
        _ => None,
    }
}
