ghost use Rattle.std.specs.Prelude.{◌≡◌, ◌<◌, ℕ, List, true, None, Some, OnOk, OnErr};
ghost use Rattle.vw_values.specs.declared.value.Value.{Value};
ghost use Rattle.vw_values.specs.Values.{IsAmong};
ghost use Rattle.vw_domain.specs.Registers.{IsRegister, OffsetFits};
ghost use Rattle.vw_domain.specs.State.{IsFact, Fits};
ghost use Rattle.vw_domain.specs.Abstract.{abstract_of, IsFrameSpot, is_there};
ghost use Rattle.vw_domain.specs.Changes.{write, set_flags, lose_slots};
ghost use Rattle.vw_domain.specs.Statements.{finish};

use crate::parts::Fact;
use crate::registers::Register;
use crate::state::State;
use crate::writes::{copy_place, follow_place, write};
use vw_bits::OutOfMemory;
use vw_names::Spot;
use vw_stack::Offset;
use vw_values::Value;

// The least key of a slot, and the first number above all keys.
const LOWEST_KEY: i64 = -(1 << 33);

const KEYS_END: i64 = (1 << 33) + 2;

impl State {
    /// Puts into a register a number that no other place has, of which `known` tells. Each other value that was read by
    /// that register says nothing afterwards. Takes no memory.
    pub fn write(&mut self, register: u8, known: Register)
        requires register { register < 17 }
        requires known { IsRegister known }
        ensures form { abstract_of self.new
            ≡ write (abstract_of self.old) register None known.value known.offset }
        ensures fits { (b : List ℕ) → Fits b self.old → IsAmong b known.value → Fits b self.new }
    {
        let parts = &mut *self.parts;
        write(parts, register, known);
    }

    /// Puts the number of a place that is there into a register, at a distance that fits the place's value. Each value
    /// that was read by that register says nothing afterwards. A copy of a register to itself keeps it in its class, so
    /// where it is to be alone there, as after an instruction that copies it so, it is written by `write`. Where memory
    /// is refused, the state stays as it was.
    pub fn copy_to(&mut self, register: u8, source: Spot, offset: Offset) -> Result<(), OutOfMemory>
        requires register { register < 17 }
        requires source { IsFrameSpot source }
        requires there { is_there self.old source ≡ true }
        requires fits { OffsetFits offset ((abstract_of self.old).values source) }
        ensures ok { OnOk result ((v : Value) → abstract_of self.new
            ≡ write (abstract_of self.old) register (Some source) v offset) }
        ensures fits { OnOk result ((b : List ℕ) → Fits b self.old → Fits b self.new) }
        ensures err { OnErr result (self.new ≡ self.old) }
    {
        let parts = &mut *self.parts;
        copy_place(parts, register, source, offset)?;
        Ok(())
    }

    /// The flags tell nothing afterwards. Takes no memory.
    pub fn clear_flags(&mut self)
        ensures form { abstract_of self.new ≡ set_flags (abstract_of self.old) None Fact.Unknown }
        ensures fits { (b : List ℕ) → Fits b self.old → Fits b self.new }
    {
        let parts = &mut *self.parts;
        parts.classes.leave(Spot::Flags);
        parts.fact = Fact::Unknown;
    }

    /// The flags are those of a comparison of `w` bits, 32 or 64, of the number of a place that is there with `k`, which
    /// is below 2^w. Where memory is refused, the state stays as it was.
    pub fn compare(&mut self, source: Spot, w: u8, k: u64) -> Result<(), OutOfMemory>
        requires source { IsFrameSpot source }
        requires there { is_there self.old source ≡ true }
        requires fact { IsFact (Fact.Compare w k) }
        ensures ok { OnOk result (abstract_of self.new
            ≡ set_flags (abstract_of self.old) (Some source) (Fact.Compare w k)) }
        ensures fits { OnOk result ((b : List ℕ) → Fits b self.old → Fits b self.new) }
        ensures err { OnErr result (self.new ≡ self.old) }
    {
        let parts = &mut *self.parts;
        follow_place(parts, Spot::Flags, source)?;
        parts.fact = Fact::Compare { w, k };
        Ok(())
    }

    /// All slots are lost: nothing is known of the frame's words afterwards, but which of its bytes were written. Takes
    /// no memory.
    pub fn lose_slots(&mut self)
        ensures form { abstract_of self.new ≡ lose_slots (abstract_of self.old) }
        ensures fits { (b : List ℕ) → Fits b self.old → Fits b self.new }
    {
        let parts = &mut *self.parts;
        parts.classes.leave_slots(LOWEST_KEY, KEYS_END);
        parts.slots.cut_range(LOWEST_KEY, KEYS_END);
    }

    /// After an instruction the register number 16 may hold any number, which nothing else tells of. Takes no memory.
    pub fn finish(&mut self)
        ensures form { abstract_of self.new ≡ finish (abstract_of self.old) }
        ensures fits { (b : List ℕ) → Fits b self.old → Fits b self.new }
    {
        let known = Register {
            offset: Offset::Unknown,
            value: Value::Any,
        };
        self.write(16, known);
    }
}
