ghost use Rattle.std.specs.Prelude.{◌≡◌, ◌↔◌, ◌+◌, ◌*◌, ◌<◌, ◌^◌, [], IsTrue};
ghost use Rattle.std.specs.List.{list_any};
ghost use Rattle.vw_domain.specs.Addresses.{Range};
ghost use Rattle.vw_domain.specs.Checks.{ReadsInside};
ghost use Rattle.vw_domain.specs.Sites.{AreReadable};
ghost use Rattle.vw_image.specs.Words.{readable};
ghost use Rattle.vw_state.specs.Sites.{is_in_entries, may_be_read, site_of};

use vw_image::{Image, segments_are_bounded};
use vw_state::Site;

// Whether the byte at an address is in an entry of a table.
fn is_in_entries(at: u128, table: (u64, u64)) -> bool
    ensures { result ≡ is_in_entries at table }
{
    let start = table.0 as u128;
    let end = start + 16 * table.1 as u128;
    start <= at && at < end
}

// Whether the byte at an address is in an entry of one of the tables.
fn is_in_tables(at: u128, tables: &[(u64, u64)]) -> bool
    ensures { result ≡ list_any (is_in_entries at) tables.now }
{
    tables.iter().any(|table| is_in_entries(at, *table))
}

// Whether so many bytes from an address on may be read, by the segments and the relocations of the image. No memory of
// it is at 2^64 or above.
fn is_readable(image: &Image, at: u128, count: u128) -> bool
    ensures { result ≡ readable image.now at count }
{
    segments_are_bounded();
    let _bytes = image.bytes();
    if at >= 1 << 64 || count >= 1 << 64 {
        return false;
    }
    image.readable(at as u64, count as u64)
}

// Whether the byte at an address may be read.
fn may_be_read(site: &Site, at: u128) -> bool
    ensures { result ≡ may_be_read site.now.image.now site.now.tables.now at }
{
    is_readable(site.image, at, 1) || is_in_tables(at, site.tables.as_slice())
}

/// Whether each of `size` bytes from an address on may be read.
pub(crate) fn are_readable(site: &Site, at: u128, size: u8) -> bool
    requires { at < 2 ^ 80 }
    ensures { IsTrue result ↔ AreReadable
        (site_of site.now.image.now site.now.tables.now [] 0) at size }
{
    for i in 0..size {
        if !may_be_read(site, at + i as u128) {
            return false;
        }
    }
    true
}

/// Whether each of `size` bytes from `at` plus `scale` times each number below `count` on may be read. Where all bytes
/// from the first to the last may, one question to the image tells; else the numbers are halved. So it takes at most
/// some seventy questions for each place between the first and the last of these bytes at which the readable memory of
/// a segment ends or a table holds the address of an import.
pub(crate) fn is_range_readable(site: &Site, at: u128, scale: u8, count: u64, size: u8) -> bool
    requires { at + scale * count < 2 ^ 80 }
    ensures { IsTrue result ↔ ReadsInside
        (site_of site.now.image.now site.now.tables.now [] 0) (Range at scale count) size }
{
    if count == 0 {
        return true;
    }
    let length = scale as u128 * (count - 1) as u128 + size as u128;
    if is_readable(site.image, at, length) {
        return true;
    }
    if count == 1 {
        return are_readable(site, at, size);
    }
    let half = count / 2;
    let middle = at + scale as u128 * half as u128;
    is_range_readable(site, at, scale, half, size)
        && is_range_readable(site, middle, scale, count - half, size)
}
