//! Calls of the probe of the stack.

ghost use Rattle.std.specs.Prelude.{◌≡◌, ◌+◌, ◌+ℤ◌, pos, false};
ghost use Rattle.std.specs.Option.{option_map_or};
ghost use Rattle.vw_layout.specs.Calls.{is_probe, is_probed, is_probe_stub};
ghost use Rattle.vw_state.specs.Post.{address_in};

use vw_dynamic::Imports;
use vw_image::{Image, StubTo};

// The name of the import that probes the stack.
const PROBE_NAME: &[u8] = b"lucet_probestack";

// Whether an import is the one that probes the stack.
fn is_probe(imports: &Imports, number: u32) -> bool
    ensures { result ≡ is_probe imports.now number }
{
    number < imports.len() && PROBE_NAME == imports.name(number)
}

// Whether a stub that goes there goes to that import.
fn is_probed(imports: &Imports, to: StubTo) -> bool
    ensures { result ≡ is_probed imports.now to }
{
    match to {
        StubTo::Import(number) => is_probe(imports, number),
        StubTo::Inside(_) => false,
    }
}

// Whether the stub of that import stands at an address.
#[tactic(auto, unfolding(vw_layout::specs::Calls::is_probe_stub))]
fn is_probe_stub(image: &Image, address: u64) -> bool
    ensures { result ≡ is_probe_stub image.now address }
{
    match image.stub_at(address) {
        Some(stub) => is_probed(image.imports(), stub.to),
        None => false,
    }
}

// The address that a direct call enters, in a function at `entry`, with `next` behind it; none where that is no word.
fn called_address(entry: u64, next: u32, rel: i32) -> Option<u64>
    ensures { result ≡ address_in (pos (entry + next) +ℤ rel) }
{
    let to = entry as i128 + next as i128 + rel as i128;
    if 0 <= to && to < 0x1_0000_0000_0000_0000 {
        Some(to as u64)
    } else {
        None
    }
}

// Whether it calls the probe of the stack.
pub fn calls_probe(image: &Image, entry: u64, next: u32, rel: i32) -> bool
    ensures { result
        ≡ option_map_or (is_probe_stub image.now) (address_in (pos (entry + next) +ℤ rel)) false }
{
    match called_address(entry, next, rel) {
        Some(address) => is_probe_stub(image, address),
        None => false,
    }
}
