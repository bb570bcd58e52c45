//! What the edges of a branch tell of the number that was compared.

ghost use Rattle.std.specs.Prelude.{◌≡◌, ◌+◌, IfSome, Some};
ghost use Rattle.vw_insn.specs.Listed.{IsWide};
ghost use Rattle.vw_domain.specs.Branches.{IsLess, rule_of, with_width, rule_at};
ghost use Rattle.vw_domain.specs.Refines.{IsComparison};
ghost use Rattle.vw_domain.specs.Stands.{width_of};
ghost use Rattle.vw_domain.specs.State.{IsFact};
ghost use Rattle.vw_state.specs.Edges.{Tells};

use vw_domain::{Comparison, Fact};
use vw_insn::{Cond, Width};

// The width of a comparison of so many bits, 32 or 64.
fn width_of(bits: u8) -> Width
    ensures width { result ≡ width_of bits }
    ensures wide { IsWide result }
{
    if bits == 32 { Width::W32 } else { Width::W64 }
}

// The number is at most `k`, with which so many bits of it were compared. Nothing is told where that holds of each word.
fn at_most(bits: u8, k: u64) -> Option<Comparison>
    requires { IsFact (Fact.Compare bits k) }
    ensures told { Tells result (Some (width_of bits, IsLess (k + 1))) }
    ensures comparison { IfSome result IsComparison }
{
    match k.checked_add(1) {
        Some(next) => Some(Comparison::Below {
            width: width_of(bits),
            k: next,
        }),
        None => None,
    }
}

// What an edge of a branch tells of the number of which so many bits were compared with `k`.
fn told_by(cond: Cond, taken: bool, bits: u8, k: u64) -> Option<Comparison>
    requires { IsFact (Fact.Compare bits k) }
    ensures told { Tells result (with_width (width_of bits) (rule_of cond taken k)) }
    ensures comparison { IfSome result IsComparison }
{
    let width = width_of(bits);
    let below = Comparison::Below { width, k };
    let equal = Comparison::Equal { width, k };
    match cond {
        Cond::B => { if taken { Some(below) } else { None } }
        Cond::Ae => { if taken { None } else { Some(below) } }
        Cond::Be => { if taken { at_most(bits, k) } else { None } }
        Cond::A => { if taken { None } else { at_most(bits, k) } }
        Cond::E => { if taken { Some(equal) } else { None } }
        Cond::Ne => { if taken { None } else { Some(equal) } }
        _ => None,
    }
}

// What an edge of a branch tells, by what the flags tell before it.
pub fn told_at(cond: Cond, taken: bool, fact: Fact) -> Option<Comparison>
    requires { IsFact fact }
    ensures told { Tells result (rule_at cond taken fact) }
    ensures comparison { IfSome result IsComparison }
{
    match fact {
        Fact::Compare { w, k } => told_by(cond, taken, w, k),
        Fact::Unknown => None,
    }
}
