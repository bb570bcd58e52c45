ghost use Rattle.std.specs.Prelude.{◌≡◌};
ghost use Rattle.vw_values.specs.Masks.{and, and_extents, bound_of, lesser};
ghost use Rattle.vw_values.specs.Sums.{below_or_num};

use crate::bounds::up_after;
use crate::extent::{Extent, extent_of};
use crate::narrowing::narrow32;
use crate::sums::below_or_num;
use crate::{Bounds, Value};
use vw_insn::Width;

/// The bits that the low bits of two values share, at 32 or 64 bits (SDM volume 2, "AND"). At other widths any number.
pub fn and(a: Value, b: Value, width: Width, bounds: &Bounds) -> Value
    ensures { result ≡ and a b width bounds.now }
{
    match width {
        Width::W32 => and_extents(extent_of(narrow32(a)), extent_of(narrow32(b)), bounds),
        Width::W64 => and_extents(extent_of(a), extent_of(b), bounds),
        _ => Value::Num,
    }
}

fn and_extents(p: Extent, q: Extent, bounds: &Bounds) -> Value
    ensures { result ≡ and_extents bounds.now p q }
{
    match p {
        Extent::Exactly(c) => match q {
            Extent::Exactly(d) => Value::Const(c & d),
            _ => any_and(p, q, bounds),
        },
        _ => any_and(p, q, bounds),
    }
}

// A number below the lesser bound.
fn any_and(p: Extent, q: Extent, bounds: &Bounds) -> Value
    ensures { result ≡ below_or_num (lesser (bound_of bounds.now p) (bound_of bounds.now q)) }
{
    below_or_num(lesser(bound_of(p, bounds), bound_of(q, bounds)))
}

fn bound_of(p: Extent, bounds: &Bounds) -> Option<u64>
    ensures { result ≡ bound_of bounds.now p }
{
    match p {
        Extent::Exactly(c) => up_after(c, bounds),
        Extent::Under(k) => Some(k),
        Extent::Unbounded | Extent::Other(_) => None,
    }
}

fn lesser(j: Option<u64>, k: Option<u64>) -> Option<u64>
    ensures { result ≡ lesser j k }
{
    match j {
        None => k,
        Some(j) => match k {
            None => Some(j),
            Some(k) => Some(j.min(k)),
        },
    }
}
