ghost use Rattle.std.specs.Prelude.{◌≡◌, ◌==◌, count_by, ◌∷◌, ◌+◌, ◌<◌, ◌^◌, length, List, ℕ, IfOk, IfErr, IsTrue, ◌↔◌};
ghost use Rattle.vw_report.specs.Reports.{IsRefused, IsReport};
ghost use Rattle.vw_report.specs.Listings.{FailsAtPoint, FunctionsDone, FunctionsStopped, PointsDone, PointsStopped, ReadsPoint, ReportStopped};

use crate::fail::Fail;
use crate::read_fields::{entry_at, point_at};
use crate::read_numbers::behind;
use std::alloc::Global;
use vw_bits::{List, OutOfMemory};
use vw_domain::{PartsError, State};
use vw_state::{FunctionTable, PointState, Tables};

/// Why no tables were read.
#[derive(Debug, Drop)]
pub enum ReportError {
    /// The bytes are no report's text. The line, counted from 1, is the first up to which none agrees.
    Fault { line: u64 },
    /// Memory was refused.
    Memory(OutOfMemory),
}

// Where reading stopped: memory was refused, or a faulty line begins, with so many bytes left.
#[derive(Clone, Copy)]
enum Stop {
    Memory(OutOfMemory),
    At(usize),
}

// A point with its state, from its line.
fn point_state_at(alloc: Global, bytes: &[u8]) -> Result<(PointState, &[u8]), Fail>
    ensures found { IfOk result (λ x. ReadsPoint bytes.now x.0 x.1.now) }
    ensures fails { IfErr result (FailsAtPoint bytes.now) }
{
    let ((at, parts), rest) = match point_at(alloc, bytes) {
        Err(fail) => return Err(fail),
        Ok(read) => read,
    };
    match State::of(alloc, &parts) {
        Ok(state) => Ok((PointState { at, state }, rest)),
        Err(PartsError::NotAState) => Err(Fail::Bad),
        Err(PartsError::Memory(refused)) => Err(Fail::Memory(refused)),
    }
}

// Whether a point's line begins here, if any line does.
fn begins_point(bytes: &[u8]) -> bool
    ensures { IsTrue result ↔ ((tail : List ℕ) × (bytes.now ≡ 97 ∷ tail)) }
{
    match bytes {
        [b, ..] => *b == b'a',
        [] => false,
    }
}

// The points of a function.
fn points_at(alloc: Global, bytes: &[u8]) -> Result<(List<PointState>, &[u8]), Stop>
    ensures done { IfOk result (λ x. PointsDone bytes.now x.0 x.1.now) }
    ensures stopped { IfErr result (PointsStopped bytes.now) }
{
    let mut points = List::new(alloc);
    let mut low: u64 = 0;
    let mut rest = bytes;
    for i in 0..bytes.len() {
        match point_state_at(alloc, rest) {
            Err(Fail::Memory(refused)) => return Err(Stop::Memory(refused)),
            Err(Fail::Bad) => {
                if begins_point(rest) {
                    return Err(Stop::At(rest.len()));
                }
                return Ok((points, rest));
            }
            Ok((point, tail)) => {
                let at = point.at as u64;
                if at < low {
                    return Err(Stop::At(rest.len()));
                }
                match points.push(point) {
                    Err(refused) => return Err(Stop::Memory(refused)),
                    Ok(()) => {}
                }
                low = at + 1;
                rest = tail;
            }
        }
    }
    Ok((points, rest))
}

// The functions, each with its points.
fn functions_at(alloc: Global, bytes: &[u8]) -> Result<(List<FunctionTable>, &[u8]), Stop>
    ensures done { IfOk result (λ x. FunctionsDone bytes.now x.0 x.1.now) }
    ensures stopped { IfErr result (FunctionsStopped bytes.now) }
{
    let mut functions = List::new(alloc);
    let mut low: u128 = 0;
    let mut rest = bytes;
    for i in 0..bytes.len() {
        match entry_at(rest) {
            None => return Ok((functions, rest)),
            Some((entry, tail)) => {
                if (entry as u128) < low {
                    return Err(Stop::At(rest.len()));
                }
                match points_at(alloc, tail) {
                    Err(stop) => return Err(stop),
                    Ok((states, tail)) => {
                        match functions.push(FunctionTable { entry, states }) {
                            Err(refused) => return Err(Stop::Memory(refused)),
                            Ok(()) => {}
                        }
                        low = entry as u128 + 1;
                        rest = tail;
                    }
                }
            }
        }
    }
    Ok((functions, rest))
}

// The tables, from the lines of a report.
fn tables_at(alloc: Global, bytes: &[u8]) -> Result<Tables, Stop>
    ensures done { IfOk result (λ tables. IsReport tables bytes.now) }
    ensures stopped { IfErr result (ReportStopped bytes.now) }
{
    match behind(bytes, b"veriwasm report 1\n") {
        None => Err(Stop::At(bytes.len())),
        Some(rest) => match functions_at(alloc, rest) {
            Err(stop) => Err(stop),
            Ok((functions, rest)) => match behind(rest, b"end\n") {
                None => Err(Stop::At(rest.len())),
                Some(tail) => {
                    if tail.len() == 0 {
                        Ok(Tables { functions })
                    } else {
                        Err(Stop::At(tail.len()))
                    }
                }
            },
        },
    }
}

fn newlines(bytes: &[u8]) -> usize
    ensures { result ≡ count_by (λ b. b == 10) bytes.now }
{
    bytes.iter().filter(|b| **b == b'\n').count()
}

/// The tables whose report has these bytes as its text. `Fault` exactly where they are no report's text, with the first
/// line, counted from 1, up to which none agrees: a last line without its newline agrees with none, nor does the
/// line behind the last one of a text that ends too soon.
pub fn read_report(alloc: Global, bytes: &[u8]) -> Result<Tables, ReportError>
    ensures found { IfOk result (λ tables. IsReport tables bytes.now) }
    ensures refused { IfErr result (IsRefused bytes.now) }
{
    match tables_at(alloc, bytes) {
        Ok(tables) => Ok(tables),
        Err(Stop::Memory(refused)) => Err(ReportError::Memory(refused)),
        Err(Stop::At(left)) => {
            let front = bytes.len().saturating_sub(left);
            let before = newlines(&bytes[..front]) as u64;
            Err(ReportError::Fault { line: before + 1 })
        }
    }
}
