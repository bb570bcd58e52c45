ghost use Rattle.std.specs.Prelude.{◌≡◌, ◌≤◌, ◌<◌, ◌+◌, ◌*◌, ◌%◌, ◌^◌, ◌==◌, ◌+ℤ◌, pos, ℕ, length, option_map, if◌then◌else◌, IfSome, Some, None};
ghost use Rattle.vw_insn.specs.Listed.{IsMem};
ghost use Rattle.vw_insn.specs.Words.{word_of};
ghost use Rattle.vw_values.specs.Bounds.{first_from};
ghost use Rattle.vw_values.specs.Sums.{extent_of};
ghost use Rattle.vw_domain.specs.Abstract.{abstract_of};
ghost use Rattle.vw_domain.specs.Addresses.{Image, value_of, signed_times, known_or, by_value, by_base, spread, in_heap, in_globals, in_range, by_symbol, by_image, by_pair, by_index, by_index_alone, address_of};
ghost use Rattle.vw_domain.specs.Registers.{IsWithin, OffsetFits};
ghost use Rattle.vw_state.specs.Addresses.{address_view, told_by};
ghost use Rattle.vw_state.specs.Context.{Context, IsSite, site_at, equation_site};

use crate::{Address, Site};
use vw_calls::{EntryRef, entry_of};
use vw_domain::State;
use vw_insn::{Base, Mem, word_of};
use vw_stack::Offset;
use vw_values::{Bounds, Value, Via};

/// The address of a memory operand in a function with a state. `next` is the point behind the instruction, from which
/// an operand on rip counts. Takes no memory.
pub fn address(site: &Site, next: u32, mem: &Mem, state: &State) -> Address
    requires few { length site.now.tables.now ≤ 64 }
    requires mem { IsMem mem.now }
    ensures { (f : Context) → IsSite f site.now → address_view result
        ≡ address_of (site_at f next) (abstract_of state.now) mem.now }
{
    by_parts(site, next, mem, state)
}

// An address of the image and a displacement, modulo 2^64.
fn image_at(address: u64, disp: i32) -> u64
    ensures { result ≡ (address + word_of disp) % 2 ^ 64 }
{
    address.wrapping_add(word_of(disp))
}

// A place in an entry, of which `via` is the register that tells the entry.
fn in_entry(place: Option<EntryRef>, via: Via) -> Option<Address>
    ensures { option_map address_view result ≡ option_map (told_by via) place }
{
    match place {
        None => None,
        Some(EntryRef { table, tag, disp }) => Some(Address::Entry {
            table,
            tag,
            disp,
            via,
        }),
    }
}

fn known_or(first: Option<Address>, second: Option<Address>) -> Address
    ensures { address_view result
        ≡ known_or (option_map address_view first) (option_map address_view second) }
{
    match first {
        Some(address) => address,
        None => match second {
            Some(address) => address,
            None => Address::Unknown,
        },
    }
}

// Register `r` holds this value, and no distance of it from rsp is known.
fn by_value(site: &Site, r: u8, value: Value, disp: i32) -> Option<Address>
    requires few { length site.now.tables.now ≤ 64 }
    ensures { option_map address_view result ≡ by_value r value disp }
{
    let near = disp as i128;
    match value {
        Value::HeapBase => Some(Address::Heap {
            low: near,
            high: near,
        }),
        Value::HeapAddr => Some(Address::Heap {
            low: near,
            high: near + 0xffff_ffff,
        }),
        Value::Globals => Some(Address::Globals {
            low: near,
            high: near,
        }),
        Value::Image(a) => Some(Address::Image(image_at(a, disp))),
        _ => in_entry(entry_of(value, None, disp, site.tables), Via::At(r)),
    }
}

// `disp` bytes from the address that register `r` holds, of which this is known.
fn by_base(site: &Site, r: u8, offset: Offset, value: Value, disp: i32) -> Address
    requires few { length site.now.tables.now ≤ 64 }
    requires fits { OffsetFits offset value }
    ensures { address_view result ≡ by_base r offset value disp }
{
    match offset {
        Offset::Known(c) => Address::Frame(c + disp as i64),
        Offset::Unknown => known_or(by_value(site, r, value, disp), None),
    }
}

// The same of a state.
fn at_register(site: &Site, state: &State, r: u8, disp: i32) -> Address
    requires few { length site.now.tables.now ≤ 64 }
    requires register { r < 17 }
    ensures { address_view result
        ≡ by_base r ((abstract_of state.now).offsets r) (value_of (abstract_of state.now) r) disp }
{
    state.is_state();
    let register = state.register(r);
    by_base(site, r, register.offset, register.value, disp)
}

// `scale` times a number.
fn times(scale: u8, number: u64) -> i128
    ensures value { result ≡ pos (scale * number) }
    ensures near { IsWithin (2 ^ 72) result }
{
    (scale as u128 * number as u128) as i128
}

// `scale` times a word, as a signed number.
fn signed_times(scale: u8, word: u64) -> i128
    ensures value { result ≡ signed_times scale word }
    ensures near { IsWithin (2 ^ 72) result }
{
    let product = times(scale, word);
    if word < 0x8000_0000_0000_0000 {
        product
    } else {
        product - scale as i128 * 0x1_0000_0000_0000_0000
    }
}

// The least and the greatest of `scale` times a number of which this is known.
fn spread(scale: u8, index: Value) -> Option<(i128, i128)>
    ensures value { result ≡ spread scale (extent_of index) }
    ensures near { IfSome result (λ ends. IsWithin (2 ^ 72) ends.0 × IsWithin (2 ^ 72) ends.1) }
{
    match index {
        Value::Const(c) => {
            let number = signed_times(scale, c);
            Some((number, number))
        }
        Value::Below(k) => Some((0, times(scale, k.saturating_sub(1)))),
        Value::Both(_) => Some((0, times(scale, 0x1_ffff_ffff))),
        _ => None,
    }
}

// A distance and a displacement.
fn with_displacement(distance: i128, disp: i32) -> i128
    requires { IsWithin (2 ^ 72) distance }
    ensures value { result ≡ distance +ℤ disp }
    ensures near { IsWithin (2 ^ 73) result }
{
    distance + disp as i128
}

// A distance and so many bytes more.
fn with_more(distance: i128, more: u32) -> i128
    requires { IsWithin (2 ^ 73) distance }
    ensures { result ≡ distance +ℤ pos more }
{
    distance + more as i128
}

// A number between these two, a displacement, and at most `more`, from the heap's base.
fn in_heap(ends: Option<(i128, i128)>, disp: i32, more: u32) -> Option<Address>
    requires { IfSome ends (λ ends. IsWithin (2 ^ 72) ends.0 × IsWithin (2 ^ 72) ends.1) }
    ensures { option_map address_view result ≡ in_heap ends disp (pos more) }
{
    match ends {
        Some((low, high)) => Some(Address::Heap {
            low: with_displacement(low, disp),
            high: with_more(with_displacement(high, disp), more),
        }),
        None => None,
    }
}

fn in_globals(ends: Option<(i128, i128)>, disp: i32) -> Option<Address>
    requires { IfSome ends (λ ends. IsWithin (2 ^ 72) ends.0 × IsWithin (2 ^ 72) ends.1) }
    ensures { option_map address_view result ≡ in_globals ends disp }
{
    match ends {
        Some((low, high)) => Some(Address::Globals {
            low: with_displacement(low, disp),
            high: with_displacement(high, disp),
        }),
        None => None,
    }
}

fn in_range(at: u64, scale: u8, k: Option<u64>) -> Option<Address>
    ensures { option_map address_view result ≡ in_range at scale k }
{
    match k {
        Some(k) => Some(Address::Range { at, scale, k }),
        None => None,
    }
}

// The least bound above a number.
fn bound_above(number: u64, bounds: &Bounds) -> Option<u64>
    ensures { result ≡ first_from (number + 1) bounds.now }
{
    bounds.are_bounds();
    match number.checked_add(1) {
        Some(next) => bounds.up(next),
        None => None,
    }
}

// At an address of the image, and `scale` times the number in register `i`, of which `index` is known.
fn by_symbol(site: &Site, a: u64, i: u8, index: Value, scale: u8, disp: i32) -> Option<Address>
    requires few { length site.now.tables.now ≤ 64 }
    ensures { (next : ℕ) → option_map address_view result
        ≡ by_symbol (equation_site site.now next) a i index scale disp }
{
    match index {
        Value::Index16 { .. } if scale == 1 => in_entry(
            entry_of(Value::Image(a), Some(index), disp, site.tables),
            Via::Idx(i),
        ),
        _ => None,
    }
}

fn by_image(site: &Site, a: u64, i: u8, index: Value, scale: u8, disp: i32) -> Option<Address>
    requires few { length site.now.tables.now ≤ 64 }
    ensures { (next : ℕ) → option_map address_view result
        ≡ by_image (equation_site site.now next) a i (extent_of index) scale disp }
{
    let at = image_at(a, disp);
    match index {
        Value::Const(c) => in_range(at, scale, bound_above(c, site.bounds)),
        Value::Below(k) => in_range(at, scale, Some(k)),
        Value::Both(_) => in_range(at, scale, Some(0x2_0000_0000)),
        Value::Index16 { .. } => by_symbol(site, a, i, index, scale, disp),
        _ => None,
    }
}

// A base of the first value, and `scale` times register `i`, which has the second.
fn by_pair(site: &Site, base: Value, i: u8, index: Value, scale: u8, disp: i32) -> Option<Address>
    requires few { length site.now.tables.now ≤ 64 }
    ensures { (next : ℕ) → option_map address_view result
        ≡ by_pair (equation_site site.now next) base i index scale disp }
{
    match base {
        Value::HeapBase => in_heap(spread(scale, index), disp, 0),
        Value::HeapAddr => in_heap(spread(scale, index), disp, 0xffff_ffff),
        Value::Globals => in_globals(spread(scale, index), disp),
        Value::Image(a) => by_image(site, a, i, index, scale, disp),
        _ => None,
    }
}

// Base and index may change places at scale 1.
fn by_exchange(
    site: &Site,
    base: Value,
    i: u8,
    index: Value,
    scale: u8,
    disp: i32,
) -> Option<Address>
    requires few { length site.now.tables.now ≤ 64 }
    ensures { (next : ℕ) → option_map address_view result
        ≡ (if scale == 1 then by_pair (equation_site site.now next) base i index 1 disp else None) }
{
    if scale == 1 {
        by_pair(site, base, i, index, 1, disp)
    } else {
        None
    }
}

fn by_index(site: &Site, state: &State, r: u8, i: u8, scale: u8, disp: i32) -> Address
    requires few { length site.now.tables.now ≤ 64 }
    requires base { r < 17 }
    requires index { i < 17 }
    ensures { (next : ℕ) → address_view result
        ≡ by_index (equation_site site.now next) (abstract_of state.now) r i scale disp }
{
    let base = state.register(r).value;
    let index = state.register(i).value;
    let first = by_pair(site, base, i, index, scale, disp);
    let second = by_exchange(site, index, r, base, scale, disp);
    known_or(first, second)
}

// An index alone is a base at scale 1.
fn by_index_alone(site: &Site, state: &State, i: u8, scale: u8, disp: i32) -> Address
    requires few { length site.now.tables.now ≤ 64 }
    requires index { i < 17 }
    ensures { address_view result ≡ by_index_alone (abstract_of state.now) i scale disp }
{
    if scale == 1 {
        at_register(site, state, i, disp)
    } else {
        Address::Unknown
    }
}

// An address `disp` bytes behind the next instruction, of which `next` is the point.
fn by_next(site: &Site, next: u32, disp: i32) -> Address
    ensures { address_view result ≡ Image (((site.now.entry + next) + word_of disp) % 2 ^ 64) }
{
    Address::Image(image_at(site.entry.wrapping_add(next as u64), disp))
}

// The address of a memory operand, as the equations have it.
fn by_parts(site: &Site, next: u32, mem: &Mem, state: &State) -> Address
    requires few { length site.now.tables.now ≤ 64 }
    ensures { address_view result
        ≡ address_of (equation_site site.now next) (abstract_of state.now) mem.now }
{
    match mem.base {
        Base::Rip => by_next(site, next, mem.disp),
        Base::None => match mem.index {
            Some((index, scale)) => { by_index_alone(site, state, index.number(), scale, mem.disp) }
            None => Address::Unknown,
        },
        Base::Reg(base) => match mem.index {
            Some((index, scale)) => {
                by_index(site, state, base.number(), index.number(), scale, mem.disp)
            }
            None => at_register(site, state, base.number(), mem.disp),
        },
    }
}
