ghost use Rattle.std.specs.Prelude.{◌≡◌, ◌≤◌, ◌==◌, false, length, Some, None, IfSome, option_and_then, if◌then◌else◌};
ghost use Rattle.std.specs.List.{position};
ghost use Rattle.std.specs.Option.{option_map_or};
ghost use Rattle.vw_image.specs.Stubs.{IsBound};
ghost use Rattle.vw_layout.specs.Calls.{call_target, module_stub, is_probe, is_probed, is_destination, is_entry, number_at};
ghost use Rattle.vw_layout.specs.Spans.{Ascend};

use crate::Function;
use vw_dynamic::Imports;
use vw_image::{Image, Stub, StubTo};

/// What a call of an address enters.
#[derive(Clone, Copy, Debug, PartialEq, Eq)]
pub enum CallTarget {
    /// The declared function with this number, counted from 0 by ascending address, which begins there.
    Function(u32),
    /// This stub of the module, which does not go to the probe.
    Stub(Stub),
    /// The stub of the import that probes the stack, `lucet_probestack`.
    Probe,
}

/// The name of the import that probes the stack.
const PROBE_NAME: &[u8] = b"lucet_probestack";

// What a call of an address enters, where these functions are declared.
#[tactic(auto, unfolding(crate::specs::Calls::call_target, crate::specs::Calls::module_stub, crate::specs::Calls::is_probe_stub))]
pub(crate) fn call_target(image: &Image, functions: &[Function], address: u64) -> Option<CallTarget>
    requires ascend { Ascend functions.now }
    requires few { length functions.now ≤ 65536 }
    ensures { result ≡ call_target image.now functions.now address }
{
    let stub = image.stub_at(address);
    if goes_to_probe(image.imports(), stub) {
        return Some(CallTarget::Probe);
    }
    if let Some(number) = number_at(functions, address) {
        return Some(CallTarget::Function(number));
    }
    match with_destination(functions, stub) {
        Some(stub) => Some(CallTarget::Stub(stub)),
        None => None,
    }
}

// The stub of a module at an address, where these functions are declared.
#[tactic(auto, unfolding(crate::specs::Calls::module_stub))]
pub(crate) fn module_stub(image: &Image, functions: &[Function], address: u64) -> Option<Stub>
    requires { Ascend functions.now }
    ensures stub { result ≡ module_stub image.now functions.now address }
    ensures numbered { IfSome result (λ stub. IsBound (length image.now.imports) stub.to) }
{
    with_destination(functions, image.stub_at(address))
}

// Whether there is a stub, and it goes to the import that probes the stack.
fn goes_to_probe(imports: &Imports, stub: Option<Stub>) -> bool
    ensures { result ≡ option_map_or (λ stub. is_probed imports.now stub.to) stub false }
{
    match stub {
        Some(stub) => is_probed(imports, stub.to),
        None => false,
    }
}

fn is_probed(imports: &Imports, to: StubTo) -> bool
    ensures { result ≡ is_probed imports.now to }
{
    match to {
        StubTo::Import(number) => is_probe(imports, number),
        StubTo::Inside(_) => false,
    }
}

// Whether an import is the one that probes the stack.
pub(crate) fn is_probe(imports: &Imports, number: u32) -> bool
    ensures { result ≡ is_probe imports.now number }
{
    number < imports.len() && PROBE_NAME == imports.name(number)
}

// The stub, where it goes to an import or a declared function.
fn with_destination(functions: &[Function], stub: Option<Stub>) -> Option<Stub>
    requires { Ascend functions.now }
    ensures { result ≡ option_and_then (λ stub. if is_destination functions.now stub.to then Some stub else None) stub }
{
    match stub {
        Some(stub) if is_destination(functions, stub.to) => Some(stub),
        Some(_) | None => None,
    }
}

fn is_destination(functions: &[Function], to: StubTo) -> bool
    requires { Ascend functions.now }
    ensures { result ≡ is_destination functions.now to }
{
    match to {
        StubTo::Import(_) => true,
        StubTo::Inside(address) => is_entry(functions, address),
    }
}

// Whether a declared function begins at an address.
fn is_entry(functions: &[Function], address: u64) -> bool
    requires { Ascend functions.now }
    ensures { result ≡ is_entry functions.now address }
{
    position_of(functions, address).is_some()
}

// The number of the function that begins at an address.
pub(crate) fn number_at(functions: &[Function], address: u64) -> Option<u32>
    requires ascend { Ascend functions.now }
    requires few { length functions.now ≤ 65536 }
    ensures { result ≡ number_at functions.now address }
{
    match position_of(functions, address) {
        Some(place) => Some(place as u32),
        None => None,
    }
}

// The place of the function that begins at an address, by a search in halves.
fn position_of(functions: &[Function], address: u64) -> Option<usize>
    requires { Ascend functions.now }
    ensures { result ≡ position (λ f. f.entry == address) functions.now }
{
    let mut low = 0;
    let mut high = functions.len();
    while low < high {
        let middle = low + (high - low) / 2;
        let entry = functions[middle].entry;
        if entry == address {
            return Some(middle);
        }
        if entry < address {
            low = middle + 1;
        } else {
            high = middle;
        }
    }
    None
}
