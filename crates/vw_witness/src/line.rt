//! One instruction, with what a processor did.

use crate::fields::{bytes, flags, little_endian, number, registers};
use std::alloc::{AllocError, Global};
use vw_effect::{Access, Flags};

/// Registers and flags.
#[derive(Clone, Copy)]
pub struct Snapshot {
    pub flags: Flags,
    pub registers: [u64; 16],
}

/// An access, and the number that its bytes spell.
#[derive(Clone, Copy)]
pub struct Touched {
    pub access: Access,
    pub value: u128,
}

/// How the instruction ended.
#[derive(Clone, Copy)]
pub enum Outcome {
    Next(Snapshot),
    /// It went to this address.
    Went(Snapshot, u64),
    Trap,
}

/// A line. Each instruction stood at 0x100000A2.
#[derive(Drop)]
pub struct Line {
    pub code: Vec<u8>,
    pub before: Snapshot,
    pub read: Option<Touched>,
    pub write: Option<Touched>,
    pub outcome: Outcome,
}

fn touched_at(alloc: Global, text: &str) -> Result<Option<Touched>, AllocError> {
    let Some((at, spelled)) = text.split_once(':') else {
        return Ok(None);
    };
    let spelled = bytes(alloc, spelled)?;
    let (Some(at), Ok(size)) = (number(at), u32::try_from(spelled.len())) else {
        return Ok(None);
    };
    Ok(Some(Touched {
        access: Access { at, size },
        value: little_endian(spelled.as_slice()),
    }))
}

fn state_of(bits: &str, words: &[&str]) -> Option<Snapshot> {
    Some(Snapshot {
        flags: flags(bits)?,
        registers: registers(words)?,
    })
}

fn outcome_of(text: &str, bits: &str, words: &[&str]) -> Option<Outcome> {
    match text {
        "trap" => Some(Outcome::Trap),
        "next" => Some(Outcome::Next(state_of(bits, words)?)),
        _ => {
            let (_, to) = text.split_once(':')?;
            Some(Outcome::Went(state_of(bits, words)?, number(to)?))
        }
    }
}

/// Reads a line. `None` where a field is missing.
pub fn read_line(alloc: Global, text: &str) -> Result<Option<Line>, AllocError> {
    let fields = text.split(' ').collect::<Vec<&str>>(alloc)?;
    if fields.len() != 39 {
        return Ok(None);
    }
    let before = state_of(fields[1], &fields[2..18]);
    let ended = outcome_of(fields[38], fields[21], &fields[22..38]);
    let (Some(before), Some(outcome)) = (before, ended) else {
        return Ok(None);
    };
    Ok(Some(Line {
        code: bytes(alloc, fields[0])?,
        before,
        read: touched_at(alloc, fields[18])?,
        write: touched_at(alloc, fields[19])?,
        outcome,
    }))
}
