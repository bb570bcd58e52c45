ghost use Rattle.std.specs.Prelude.{◌≡◌, ℕ, ◌+◌, ◌<◌, ◌^◌, length, take, slice_index, IfOk};
ghost use Rattle.std.specs.List.{sum_by};
ghost use Rattle.vw_make.specs.Bounds.{MeetsBounds};
ghost use Rattle.vw_make.specs.Layout.{function_space};
ghost use Rattle.vw_make.specs.Plan.{IsPlan};

use crate::buffer::round_up;
use crate::layout::{Layout, lay_out};
use crate::parts::{Func, Parts};
use crate::sizes::{Sizes, measure};
use std::alloc::Global;
use vw_bits::OutOfMemory;

/// The parts of a module, with the place of each.
#[derive(Drop)]
pub struct Plan<'a> {
    /// The parts.
    pub parts: &'a Parts,
    /// How large they are.
    pub sizes: Sizes,
    /// Where they begin.
    pub layout: Layout,
    /// The addresses of the functions, by number.
    pub functions: Vec<u64>,
}

/// Works out where everything stands.
pub fn make_plan(alloc: Global, parts: &Parts) -> Result<Plan<'_>, OutOfMemory>
    requires { MeetsBounds parts.now }
    ensures plan { IfOk result (λ plan. IsPlan plan) }
    ensures parts { IfOk result (λ plan. plan.parts.now ≡ parts.now) }
{
    let sizes = measure(parts);
    let layout = lay_out(&sizes);
    let functions = function_places(alloc, parts.functions.as_slice(), layout.text)?;
    Ok(Plan {
        parts,
        sizes,
        layout,
        functions,
    })
}

// The address of each function, where the first begins at `text`.
fn function_places(alloc: Global, functions: &[Func], text: u64) -> Result<Vec<u64>, OutOfMemory>
    requires { text + sum_by function_space functions.now < 2 ^ 40 }
    ensures count { IfOk result (λ places. length places.items ≡ length functions.now) }
    ensures places { IfOk result (λ places. (number : ℕ) → number < length functions.now
        → slice_index places.items number ≡ text + sum_by function_space (take number functions.now)) }
{
    let mut places = Vec::new(alloc);
    let mut at = text;
    for func in functions {
        places.push(at)?;
        at += round_up(func.code.as_slice().len() as u64, 16);
    }
    Ok(places)
}
