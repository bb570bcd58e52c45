ghost use Rattle.std.specs.Prelude.{◌≡◌, ◌↔◌, ◌+ℤ◌, ◌≤ℤ◌, pos, ℕ, IsTrue};
ghost use Rattle.vw_domain.specs.Abstract.{Abstract, abstract_of};
ghost use Rattle.vw_domain.specs.Addresses.{Frame};
ghost use Rattle.vw_domain.specs.Checks.{IsInstanceWord, IsInside, BeginsInStack, ReadsInside, WritesInside, WritesOwn, ReadsKnown};
ghost use Rattle.vw_state.specs.Addresses.{address_view};
ghost use Rattle.vw_state.specs.Context.{Context, IsSite, site_at};
ghost use Rattle.vw_checks.specs.Accesses.{ReadFails, WriteFails, TouchFails, PushFails};
ghost use Rattle.vw_checks.specs.Checks.{IsLowestOf};

use crate::lowest::{lower, number_unless};
use crate::readable::{are_readable, is_range_readable};
use vw_domain::State;
use vw_stack::Offset;
use vw_state::{Address, Site};

// Whether so many bytes at each distance from `low` to `high` are among the first `room`.
fn is_inside(low: i128, high: i128, size: u8, room: u64) -> bool
    ensures { IsTrue result ↔ IsInside low high size room }
{
    0 <= low && high <= room as i128 - size as i128
}

// Whether they are the word below the heap that holds the address of the globals.
fn is_instance_word(low: i128, high: i128, size: u8) -> bool
    ensures { IsTrue result ↔ IsInstanceWord low high size }
{
    size == 8 && low == -8 && high == -8
}

// Whether a write begins in the stack that was probed or in the guard below it, where it is of the frame.
fn begins_in_stack(probed: u64, address: Address) -> bool
    ensures { (st : Abstract) → st.probed ≡ probed
        → (IsTrue result ↔ BeginsInStack st (address_view address)) }
{
    match address {
        Address::Frame(c) => 0 <= c as i128 + 8192 + probed as i128,
        Address::Heap { .. }
        | Address::Globals { .. }
        | Address::Image(_)
        | Address::Range { .. }
        | Address::Entry { .. }
        | Address::Unknown => true,
    }
}

// Whether so many bytes that are written are in the heap or the globals, where they are not of the frame or the image.
fn writes_inside(address: Address, size: u8) -> bool
    ensures { IsTrue result ↔ WritesInside (address_view address) size }
{
    match address {
        Address::Heap { low, high } => is_inside(low, high, size, 8_589_934_592),
        Address::Globals { low, high } => is_inside(low, high, size, 4096),
        Address::Unknown => false,
        Address::Frame(_) | Address::Image(_) | Address::Range { .. } | Address::Entry { .. } => {
            true
        }
    }
}

// Whether so many bytes that are written end in the own frame, where they are of the frame, and are not of the image.
fn writes_own(address: Address, size: u8) -> bool
    ensures { IsTrue result ↔ WritesOwn (address_view address) size }
{
    match address {
        Address::Frame(c) => c as i128 + size as i128 <= 0,
        Address::Image(_) | Address::Range { .. } | Address::Entry { .. } => false,
        Address::Heap { .. } | Address::Globals { .. } | Address::Unknown => true,
    }
}

// Whether so many bytes that are read are in the heap or the word below it, in the globals, or in what may be read of the
// image, where they are not of the frame.
fn reads_inside(site: &Site, address: Address, size: u8) -> bool
    ensures { (f : Context) (next : ℕ) → IsSite f site.now
        → (IsTrue result ↔ ReadsInside (site_at f next) (address_view address) size) }
{
    match address {
        Address::Frame(_) => true,
        Address::Heap { low, high } => {
            is_inside(low, high, size, 8_589_934_592) || is_instance_word(low, high, size)
        }
        Address::Globals { low, high } => is_inside(low, high, size, 4096),
        Address::Image(at) => are_readable(site, at as u128, size),
        Address::Range { at, scale, k } => is_range_readable(site, at as u128, scale, k, size),
        Address::Entry { disp, .. } => disp as u64 + size as u64 <= 16,
        Address::Unknown => false,
    }
}

// Whether so many bytes at an offset of the frame lie behind the return address, and at most 4,104 bytes above it.
fn is_behind(offset: i64, size: u8) -> bool
    ensures { IsTrue result ↔ ((pos 8 ≤ℤ offset) × ((offset +ℤ pos size) ≤ℤ pos 4104)) }
{
    8 <= offset && offset <= 4104 - size as i64
}

// Whether so many bytes of the frame at an offset were all written, or lie there.
fn is_known(state: &State, offset: i64, size: u8) -> bool
    ensures { IsTrue result ↔ ReadsKnown (abstract_of state.now) (Frame offset) size }
{
    if offset < 0 {
        return state.is_written(offset, offset + size as i64);
    }
    state.is_state();
    size == 0 || is_behind(offset, size)
}

// Whether so many bytes that are read are known to be written, where they are of the frame.
fn reads_known(state: &State, address: Address, size: u8) -> bool
    ensures { IsTrue result ↔ ReadsKnown (abstract_of state.now) (address_view address) size }
{
    match address {
        Address::Frame(offset) => is_known(state, offset, size),
        Address::Heap { .. }
        | Address::Globals { .. }
        | Address::Image(_)
        | Address::Range { .. }
        | Address::Entry { .. }
        | Address::Unknown => true,
    }
}

/// The lowest number of the checks that fail at a read of so many bytes.
pub(crate) fn failing_read(site: &Site, state: &State, address: Address, size: u8) -> Option<u8>
    ensures { (f : Context) (next : ℕ) → IsSite f site.now
        → IsLowestOf (ReadFails (site_at f next) (abstract_of state.now) (address_view address) size) result }
{
    lower(
        number_unless(reads_inside(site, address, size), 4),
        number_unless(reads_known(state, address, size), 6),
    )
}

/// The same of a write.
pub(crate) fn failing_write(state: &State, address: Address, size: u8) -> Option<u8>
    ensures { IsLowestOf (WriteFails (abstract_of state.now) (address_view address) size) result }
{
    lower(
        number_unless(begins_in_stack(state.probed(), address), 3),
        lower(
            number_unless(writes_inside(address, size), 4),
            number_unless(writes_own(address, size), 5),
        ),
    )
}

/// The same of an access for an XMM register, which writes or reads.
pub(crate) fn failing_touch(
    site: &Site,
    state: &State,
    write: bool,
    address: Address,
    size: u8,
) -> Option<u8>
    ensures { (f : Context) (next : ℕ) → IsSite f site.now
        → IsLowestOf (TouchFails (site_at f next) (abstract_of state.now) write (address_view address) size) result }
{
    if write {
        failing_write(state, address, size)
    } else {
        failing_read(site, state, address, size)
    }
}

/// The same of the push of a call.
pub(crate) fn failing_push(state: &State) -> Option<u8>
    ensures { IsLowestOf (PushFails (abstract_of state.now)) result }
{
    state.is_state();
    match state.register(4).offset {
        Offset::Unknown => Some(3),
        Offset::Known(c) => failing_write(state, Address::Frame(c - 8), 8),
    }
}
