ghost use Rattle.std.specs.Prelude.{◌≡◌, ◌↔◌, ℕ, List, IsTrue};
ghost use Rattle.vw_values.specs.Values.{IsAmong};
ghost use Rattle.vw_domain.specs.Registers.{register_below};
ghost use Rattle.vw_domain.specs.Cells.{is_simple, is_tag, AreOneSimple, value_word, value_of_word, register_word, register_of_word};
ghost use Rattle.vw_domain.specs.Plain.{is_entry};
ghost use Rattle.vw_domain.specs.Writes.{forgotten_register};

use crate::forgets::remaining_register;
use crate::gone::Gone;
use crate::registers::Register;
use std::marker::Model;
use vw_stack::Offset;
use vw_values::{Bounds, Value, Via};

// Which variant of a value, with the variants inside it.
#[derive(Clone, Copy, PartialEq, Eq)]
enum Kind {
    Any,
    Num,
    Const,
    Below,
    Low,
    Both,
    HeapBase,
    HeapAddr,
    Globals,
    Entry,
    Image,
    Index16,
    MarkedIndex16,
    EntryPtr,
    EntryTyped,
    TagAt,
    TagIdx,
    TableFn,
    JumpOff,
    JumpDest,
}

// A register's parts side by side. What its kind does not use is zero.
#[derive(Clone, Copy, PartialEq, Eq)]
struct Word {
    first: u64,
    second: u64,
    offset: i64,
    table: u32,
    kind: Kind,
    register: u8,
    is_known: bool,
}

/// What is known of a register, in 32 bytes. Contracts see the register.
#[derive(Clone, Copy)]
pub struct Cell {
    word: Word,
}

const _: () = prove!(size_of::<Cell>() == 32);

impl Model for Cell {
    ghost use Rattle.std.specs.Prelude.{◌≡◌};
    ghost use Rattle.vw_domain.specs.declared.registers.Register.{Register};
    ghost use Rattle.vw_domain.specs.Cells.{register_word, register_of_word};
    ghost use Rattle.std.proofs.Common.{ap};

    ghost Value = { Register };

    ghost view = { λ c. register_of_word c.word };

    ghost invariant = { λ c. register_word (register_of_word c.word) ≡ c.word };

    ghost inverse = { λ r. record { word = register_word r } };

    ghost inverse_ok = { λ c h. ap (λ w. record { word = w }) h };
}

// A value's word, at no known distance.
fn value_word(value: Value) -> Word
    ensures { result ≡ value_word value }
{
    let mut word = Word {
        first: 0,
        second: 0,
        offset: 0,
        table: 0,
        kind: Kind::Any,
        register: 0,
        is_known: false,
    };
    match value {
        Value::Any => {}
        Value::Num => word.kind = Kind::Num,
        Value::Const(c) => {
            word.kind = Kind::Const;
            word.first = c;
        }
        Value::Below(k) => {
            word.kind = Kind::Below;
            word.first = k;
        }
        Value::Low(k) => {
            word.kind = Kind::Low;
            word.first = k;
        }
        Value::Both(k) => {
            word.kind = Kind::Both;
            word.first = k;
        }
        Value::HeapBase => word.kind = Kind::HeapBase,
        Value::HeapAddr => word.kind = Kind::HeapAddr,
        Value::Globals => word.kind = Kind::Globals,
        Value::Entry(register) => {
            word.kind = Kind::Entry;
            word.register = register;
        }
        Value::Image(a) => {
            word.kind = Kind::Image;
            word.first = a;
        }
        Value::Index16 { k, mark } => {
            word.first = k;
            match mark {
                None => word.kind = Kind::Index16,
                Some((table, tag)) => {
                    word.kind = Kind::MarkedIndex16;
                    word.second = tag;
                    word.table = table;
                }
            }
        }
        Value::EntryPtr(table) => {
            word.kind = Kind::EntryPtr;
            word.table = table;
        }
        Value::EntryTyped { table, tag } => {
            word.kind = Kind::EntryTyped;
            word.second = tag;
            word.table = table;
        }
        Value::TagOf { table, via } => {
            word.table = table;
            match via {
                Via::At(register) => {
                    word.kind = Kind::TagAt;
                    word.register = register;
                }
                Via::Idx(register) => {
                    word.kind = Kind::TagIdx;
                    word.register = register;
                }
            }
        }
        Value::TableFn { table, tag } => {
            word.kind = Kind::TableFn;
            word.second = tag;
            word.table = table;
        }
        Value::JumpOff { a, k } => {
            word.kind = Kind::JumpOff;
            word.first = a;
            word.second = k;
        }
        Value::JumpDest { a, k } => {
            word.kind = Kind::JumpDest;
            word.first = a;
            word.second = k;
        }
    }
    word
}

fn value_of_word(word: &Word) -> Value
    ensures { result ≡ value_of_word word.now }
{
    match word.kind {
        Kind::Any => Value::Any,
        Kind::Num => Value::Num,
        Kind::Const => Value::Const(word.first),
        Kind::Below => Value::Below(word.first),
        Kind::Low => Value::Low(word.first),
        Kind::Both => Value::Both(word.first),
        Kind::HeapBase => Value::HeapBase,
        Kind::HeapAddr => Value::HeapAddr,
        Kind::Globals => Value::Globals,
        Kind::Entry => Value::Entry(word.register),
        Kind::Image => Value::Image(word.first),
        Kind::Index16 => Value::Index16 {
            k: word.first,
            mark: None,
        },
        Kind::MarkedIndex16 => Value::Index16 {
            k: word.first,
            mark: Some((word.table, word.second)),
        },
        Kind::EntryPtr => Value::EntryPtr(word.table),
        Kind::EntryTyped => Value::EntryTyped {
            table: word.table,
            tag: word.second,
        },
        Kind::TagAt => Value::TagOf {
            table: word.table,
            via: Via::At(word.register),
        },
        Kind::TagIdx => Value::TagOf {
            table: word.table,
            via: Via::Idx(word.register),
        },
        Kind::TableFn => Value::TableFn {
            table: word.table,
            tag: word.second,
        },
        Kind::JumpOff => Value::JumpOff {
            a: word.first,
            k: word.second,
        },
        Kind::JumpDest => Value::JumpDest {
            a: word.first,
            k: word.second,
        },
    }
}

fn register_word(register: Register) -> Word
    ensures { result ≡ register_word register }
{
    let mut word = value_word(register.value);
    if let Offset::Known(c) = register.offset {
        word.offset = c;
        word.is_known = true;
    }
    word
}

// Whether the value is a tag.
fn is_tag(kind: Kind) -> bool
    ensures { result ≡ is_tag kind }
{
    matches!(kind, Kind::TagAt | Kind::TagIdx)
}

// Whether the value names no bound and no number but a register's.
fn is_simple(kind: Kind) -> bool
    ensures { result ≡ is_simple kind }
{
    matches!(
        kind,
        Kind::Any | Kind::Num | Kind::HeapBase | Kind::HeapAddr | Kind::Globals | Kind::Entry
    )
}

// Whether two words are of one such value at one distance. What such a value does not use is not looked at.
fn are_one_simple(a: &Word, b: &Word) -> bool
    ensures { IsTrue result → AreOneSimple a.now b.now }
{
    a.kind == b.kind
        && a.register == b.register
        && a.is_known == b.is_known
        && a.offset == b.offset
        && is_simple(a.kind)
}

fn is_same_word(a: &Word, b: &Word) -> bool
    ensures { IsTrue result ↔ (a.now ≡ b.now) }
{
    *a == *b
}

impl Cell {
    // The cell of a register.
    pub(crate) fn of(register: Register) -> Cell
        ensures { result ≡ register }
    {
        Cell {
            word: register_word(register),
        }
    }

    // The register's value.
    pub(crate) fn value(&self) -> Value
        ensures { result ≡ self.now.value }
    {
        value_of_word(&self.word)
    }

    // How far the register is from the value that rsp had at the function's entry.
    pub(crate) fn offset(&self) -> Offset
        ensures { result ≡ self.now.offset }
    {
        if self.word.is_known {
            Offset::Known(self.word.offset)
        } else {
            Offset::Unknown
        }
    }

    // The register.
    pub(crate) fn register(&self) -> Register
        ensures { result ≡ self.now }
    {
        Register {
            offset: self.offset(),
            value: self.value(),
        }
    }

    // Puts another value into the register.
    pub(crate) fn set_value(&mut self, value: Value)
        ensures { self.new ≡ record self.old { value = value } }
    {
        *self = Cell::of(Register {
            offset: self.offset(),
            value,
        });
    }

    // Whether the bound that the register's value names, where it names one, is among these.
    pub(crate) fn is_among(&self, bounds: &Bounds) -> bool
        ensures { IsTrue result ↔ IsAmong bounds.now self.now.value }
    {
        match self.word.kind {
            Kind::Below | Kind::Low | Kind::Both | Kind::Index16 | Kind::MarkedIndex16 => {
                bounds.contains(self.word.first)
            }
            Kind::JumpOff | Kind::JumpDest => bounds.contains(self.word.second),
            Kind::Any
            | Kind::Num
            | Kind::Const
            | Kind::HeapBase
            | Kind::HeapAddr
            | Kind::Globals
            | Kind::Entry
            | Kind::Image
            | Kind::EntryPtr
            | Kind::EntryTyped
            | Kind::TagAt
            | Kind::TagIdx
            | Kind::TableFn => true,
        }
    }

    // Whether the register's value is that of an entry, which may be marked.
    pub(crate) fn is_entry(&self) -> bool
        ensures { result ≡ is_entry self.now.value }
    {
        matches!(
            self.word.kind,
            Kind::Index16 | Kind::MarkedIndex16 | Kind::EntryPtr | Kind::EntryTyped
        )
    }

    // Whether two cells are one, as they are exactly where their registers are.
    pub(crate) fn is_same(&self, other: &Cell) -> bool
        ensures { IsTrue result ↔ (self.now ≡ other.now) }
    {
        is_same_word(&self.word, &other.word)
    }

    // Whether two cells are of one register whose value names no bound, as most are.
    pub(crate) fn is_same_simple(&self, other: &Cell) -> bool
        ensures same { IsTrue result → self.now ≡ other.now }
        ensures below { IsTrue result → register_below self.now other.now }
        ensures among { IsTrue result → (bounds : List ℕ) → IsAmong bounds other.now.value }
    {
        are_one_simple(&self.word, &other.word)
    }

    // Leaves of the register what is still known of it once registers are written. Only a tag is looked at.
    #[inline(always)]
    pub(crate) fn forget(&mut self, gone: Gone)
        ensures { self.new ≡ forgotten_register gone self.old }
    {
        if !is_tag(self.word.kind) {
            return;
        }
        self.forget_tag(gone);
    }

    #[inline(never)]
    fn forget_tag(&mut self, gone: Gone)
        ensures { self.new ≡ forgotten_register gone self.old }
    {
        *self = Cell::of(remaining_register(self.register(), gone));
    }
}
