ghost use Rattle.std.specs.Prelude.{◌≡◌, ℕ, true, false, IfOk};
ghost use Rattle.std.specs.Option.{IsSome};
ghost use Rattle.std.specs.BTreeMap.{get};
ghost use Rattle.std.specs.Ordering.{nat_cmp};
ghost use Rattle.vw_image.specs.Image.{shares};
ghost use Rattle.vw_image.specs.Bounds.{AllSeparate};
ghost use Rattle.vw_image.specs.Index.{IsIndex, bound_ones};

use std::alloc::Global;
use std::collections::BTreeMap;
use vw_bits::OutOfMemory;
use vw_dynamic::{RelKind, Relocation};

/// How many bytes a relocation changes.
const RELOCATED: u64 = 8;

// The relocations by their places, of which no two share a byte.
pub(crate) fn by_place(
    alloc: Global,
    relocations: &[Relocation],
) -> Result<BTreeMap<u64, RelKind>, OutOfMemory>
    requires { AllSeparate relocations.now }
    ensures { IfOk result (λ index. IsIndex index relocations.now) }
{
    let mut index = BTreeMap::new(alloc);
    for relocation in relocations {
        index.insert(relocation.place, relocation.kind)?;
    }
    Ok(index)
}

// Those that bind an import, by their places.
pub(crate) fn bound_by_place(
    alloc: Global,
    relocations: &[Relocation],
) -> Result<BTreeMap<u64, RelKind>, OutOfMemory>
    requires { AllSeparate relocations.now }
    ensures { IfOk result (λ index. IsIndex index (bound_ones relocations.now)) }
{
    let mut index = BTreeMap::new(alloc);
    for relocation in relocations {
        if let RelKind::Bound(_) = relocation.kind {
            index.insert(relocation.place, relocation.kind)?;
        }
    }
    Ok(index)
}

// Whether one of the relocations changes one of `size` bytes from an address on. The first that ends behind
// the address is the only one to look at, since a later one begins no earlier.
pub(crate) fn touches(index: &BTreeMap<u64, RelKind>, address: u64, size: u64) -> bool
    ensures found { result ≡ true → (q : ℕ) × (shares address size q ≡ true) × IsSome (get nat_cmp index.now q) }
    ensures none { result ≡ false → (q : ℕ) → shares address size q ≡ true → IsSome (get nat_cmp index.now q) → ⊥ }
{
    let low = address.saturating_sub(RELOCATED - 1);
    match index.range(low..).next() {
        Some((place, _)) => size > 0 && (*place <= address || *place - address < size),
        None => false,
    }
}
