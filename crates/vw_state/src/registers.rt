ghost use Rattle.std.specs.Prelude.{◌≡◌, ◌<◌, ℕ, None, List};
ghost use Rattle.vw_values.specs.Values.{IsValue, IsAmong};
ghost use Rattle.vw_domain.specs.Abstract.{abstract_of};
ghost use Rattle.vw_domain.specs.Addresses.{value_of};
ghost use Rattle.vw_domain.specs.Changes.{write};
ghost use Rattle.vw_domain.specs.FormLaws.{IsDisplacement};
ghost use Rattle.vw_domain.specs.Operands.{index_of, operand_of, operand_offset};
ghost use Rattle.vw_domain.specs.Registers.{IsRegister};
ghost use Rattle.vw_domain.specs.State.{Fits, plain_register};

use vw_domain::{Register, State};
use vw_insn::{Mem, word_of};
use vw_stack::Offset;
use vw_stmt::{Operand, Var};
use vw_values::Value;

// A register's number; tmp counts as number 16.
pub fn number_of(var: Var) -> u8
    ensures number { result ≡ index_of var }
    ensures below { result < 17 }
{
    match var {
        Var::Reg(reg) => reg.number(),
        Var::Tmp => 16,
    }
}

// A memory operand's displacement.
pub fn displacement(mem: &Mem) -> i32
    ensures is { result ≡ mem.now.disp }
    ensures small { IsDisplacement mem.now.disp }
{
    mem.disp
}

// A register that holds this value, at no known distance.
pub fn plain(value: Value) -> Register
    ensures { result ≡ plain_register value }
{
    Register {
        offset: Offset::Unknown,
        value,
    }
}

/// What is known of a register, or of tmp: its value, and its distance from the value of rsp at the function's entry.
/// Takes no memory.
pub fn known_of(state: &State, var: Var) -> Register
    ensures value { result.value ≡ value_of (abstract_of state.now) (index_of var) }
    ensures offset { result.offset ≡ (abstract_of state.now).offsets (index_of var) }
{
    state.register(number_of(var))
}

// What is known of an operand.
pub fn operand_known(state: &State, operand: Operand) -> Register
    ensures value { result.value ≡ operand_of (abstract_of state.now) operand }
    ensures offset { result.offset ≡ operand_offset (abstract_of state.now) operand }
{
    match operand {
        Operand::Var(var) => known_of(state, var),
        Operand::Imm(number) => plain(Value::Const(word_of(number))),
    }
}

// Puts into a register, or into tmp, a number that no other place has, of which `known` tells. Takes no memory.
pub fn put(state: &mut State, dst: Var, known: Register)
    requires { IsRegister known }
    ensures form { abstract_of state.new
        ≡ write (abstract_of state.old) (index_of dst) None known.value known.offset }
    ensures fits { (b : List ℕ) → Fits b state.old → IsAmong b known.value → Fits b state.new }
{
    state.write(number_of(dst), known);
}
