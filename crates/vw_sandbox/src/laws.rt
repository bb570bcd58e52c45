//! Facts about the definitions, each the contract of a function that does nothing: they show that the definitions refuse
//! what they are meant to refuse, that what they say of every run speaks of some, and by what rules it is shown.

ghost use Rattle.std.specs.Prelude.{◌≡◌, ◌≢◌, ◌⊎◌, ◌↔◌, false, true, ℕ, ◌+◌, ◌-◌, ◌*◌, ◌%◌, ◌^◌, ◌≤◌, ◌<◌, List, [], ◌∷◌, Some, Contains, slice_get};
ghost use Rattle.vw_bits.specs.Words.{sign_extended};
ghost use Rattle.vw_image.specs.Image.{image_of};
ghost use Rattle.vw_image.specs.Words.{word_at};
ghost use Rattle.vw_insn.specs.Effect.{Ordinary, Direct, Indirect, way};
ghost use Rattle.vw_insn.specs.Words.{Registers};
ghost use Rattle.vw_layout.specs.Layout.{IsModule, declared_functions};
ghost use Rattle.vw_layout.specs.declared.functions.Function.{Function};
ghost use Rattle.vw_layout.specs.declared.tables.TableInfo.{TableInfo};
ghost use Rattle.vw_layout.specs.declared.tables.TableEntry.{TableEntry};
ghost use Rattle.vw_rows.specs.Numbers.{IsBytes};
ghost use Rattle.vw_rows.specs.Spelling.{Spells};
ghost use Rattle.vw_switch.specs.Targets.{target};
ghost use Rattle.vw_state.specs.Code.{code_at, NothingAt};
ghost use Rattle.vw_machine.specs.declared.world.World.{World};
ghost use Rattle.vw_machine.specs.declared.choice.Choice.{Choice};
ghost use Rattle.vw_machine.specs.declared.event.Event.TheVariants.{Write, Goto};
ghost use Rattle.vw_machine.specs.World.{IsLaidOut, IsWithin, heap_range, globals_range};
ghost use Rattle.vw_machine.specs.Module.{ModuleView, bytes_from, module_of};
ghost use Rattle.vw_machine.specs.State.{Activation, MachineState};
ghost use Rattle.vw_machine.specs.Standing.{Here, Code, IsOf, StandsAt};
ghost use Rattle.vw_machine.specs.Step.{Went, Returned, step};
ghost use Rattle.vw_machine.specs.Events.{events};
ghost use Rattle.vw_machine.specs.Permitted.{is_pointer};
ghost use Rattle.vw_machine.specs.Entered.{IsInitial};
ghost use Rattle.vw_sandbox.specs.Runs.{Reaches, RunsTo};
ghost use Rattle.vw_sandbox.specs.Claims.{IsProbeStub, PassesHeap, KeepsRegisters};
ghost use Rattle.vw_sandbox.specs.Sandboxed.{StaysSandboxed};
ghost use Rattle.vw_sandbox.specs.Maps.{Map, InsnKeepsToMap, IsSandboxedBy, entries};
ghost use Rattle.vw_sandbox.specs.Assertions.{Moment, AreKept};
ghost use Rattle.vw_sandbox.specs.Stated.{AreStated};

use crate::gathered::{file_laws, module_laws};
use vw_image::{Word, segments_are_bounded};
use vw_insn::Insn;
use vw_layout::{functions_ascend, imports_are_few};
use vw_lift::{effect_is_a_run, lists_are_in_form};
use vw_machine::one_thing_stands;
use vw_state::functions_have_sites;
use vw_stmt::words_stay;

/// For each module there is an instance that is laid out well, and for each of its functions a state in which the
/// host enters it: what is said of every run speaks of some.
pub fn runs_begin()
    ensures { (file : List ℕ) → IsModule file
        → (w : World) × IsLaidOut (module_of file).image (module_of file).imports w
        × ((f : Function) → Contains (module_of file).functions f → (s : MachineState) × IsInitial w f s) }
{
    segments_are_bounded();
    imports_are_few();
}

/// A claim about states of the machine.
pub trait Claim {
    /// The claim is met by a state.
    ghost is_met: { MachineState → Type 0 };
}

/// A claim that the first state of a run meets, and that each step keeps, is met by every state of the run.
pub fn kept_claims_are_met<C: Claim>()
    ensures { (m : ModuleView) (w : World) (first : MachineState) → C.is_met first
        → ((s next : MachineState) (here : Here) (choice : Choice) → C.is_met s
        → StandsAt m w s.rip s.active here → step m w s here choice ≡ Went next → C.is_met next)
        → (s : MachineState) → Reaches m w first s → C.is_met s }
{}

/// A run is in a state exactly where it is there after some list of choices, one for each step.
pub fn reaches_by_choices()
    ensures { (m : ModuleView) (w : World) (first s : MachineState)
        → (Reaches m w first s ↔ ((choices : List Choice) × RunsTo m w choices first s)) }
{}

/// A module is sandboxed exactly where under every list of choices, one for each step, every run stays in the sandbox.
pub fn sandboxed_by_choices()
    ensures { (m : ModuleView) (map : Map) → (IsSandboxedBy m map ↔ StaysSandboxed m map) }
{
    one_thing_stands();
}

/// A transfer keeps to no tables whose points are all elsewhere: so not to tables that give the function no
/// point, nor to an address between two points.
pub fn transfers_keep_to_points()
    ensures { (m : ModuleView) (w : World) (map : Map) (top : Activation) (rip to : ℕ)
        → ((f : Function) (point : ℕ) → IsOf m w top f → map.is_point f.entry point ≡ true
        → to ≢ w.load + f.entry + point)
        → InsnKeepsToMap m w map top rip Ordinary (Goto to) → ⊥ }
{}

/// A call through a register or memory keeps to no tables where its target is the pointer of no entry of the table and
/// with the tag that they give its operand: so not to tables that give it another table or tag, or none.
pub fn calls_keep_to_entries()
    ensures { (m : ModuleView) (w : World) (map : Map) (top : Activation) (rip to : ℕ)
        → ((f : Function) (point number : ℕ) (t : TableInfo) (e : TableEntry) → IsOf m w top f
        → rip ≡ w.load + f.entry + point → map.callee f.entry point ≡ Some (number, e.tag)
        → slice_get m.tables number ≡ Some t → Contains t.entries e
        → is_pointer w e.pointer to ≡ false)
        → InsnKeepsToMap m w map top rip Indirect (Goto to) → ⊥ }
{}

/// Where an entry of a table of jumps leads to a point of a function, it holds a plain word, and the table's address plus
/// this word with its sign extended is the point's address, modulo 2^64: what MOVSXD and ADD make of it.
pub fn jump_entries_are_distances()
    ensures { (file : List ℕ) (f : Function) (base i to : ℕ) → IsModule file → IsBytes file
        → Contains (declared_functions file) f
        → target (image_of file) base i f.entry f.size ≡ Some to
        → (x : ℕ) × (word_at (image_of file) (base + 4 * i) 4 ≡ Word.Plain x)
        × ((base + sign_extended x 4) % 2 ^ 64 ≡ f.entry + to) × (to < f.size) }
{
    file_laws();
    functions_have_sites();
}

/// A step that returns to the host with rsp elsewhere than 8 above that at the entry, or with another rbx, rbp or r12 to
/// r15, is not as a function should return.
pub fn wrong_returns_are_refused()
    ensures rsp { (m : ModuleView) (w : World) (entered : Registers) (s after : MachineState)
        (here : Here) (choice : Choice)
        → StandsAt m w s.rip s.active here → step m w s here choice ≡ Returned after
        → after.registers 4 ≢ entered 4 + 8 → KeepsRegisters m w entered s → ⊥ }
    ensures saved { (m : ModuleView) (w : World) (entered : Registers) (s after : MachineState)
        (here : Here) (choice : Choice)
        → StandsAt m w s.rip s.active here → step m w s here choice ≡ Returned after
        → (r : ℕ) → Contains (3 ∷ 5 ∷ 12 ∷ 13 ∷ 14 ∷ 15 ∷ []) r
        → after.registers r ≢ entered r → KeepsRegisters m w entered s → ⊥ }
{}

/// A step that calls an address where no stub of the import that probes the stack stands, with rdi elsewhere than at the
/// heap's base, is not as a call should be.
pub fn wrong_heaps_are_refused()
    ensures { (m : ModuleView) (w : World) (s : MachineState) (i : Insn) (len : ℕ) (choice : Choice) (to : ℕ)
        → StandsAt m w s.rip s.active (Code i len)
        → (way i ≡ Direct) ⊎ (way i ≡ Indirect)
        → Contains (events m w s (Code i len) choice) (Goto to)
        → s.registers 7 ≢ w.heap → (IsProbeStub m w to → ⊥)
        → PassesHeap m w s → ⊥ }
{}

/// What a run of a sandboxed module writes lies in the heap's reservation, in the globals, or from 8,192 bytes below the
/// stack up to where the return address of the activation lies.
pub fn writes_stay_in_bounds()
    ensures { (m : ModuleView) (map : Map) (w : World) (f : Function)
        (first s : MachineState) (here : Here) (choice : Choice) (top : Activation) (rest : List Activation) (a n : ℕ)
        → IsSandboxedBy m map → IsLaidOut m.image m.imports w → Contains m.functions f
        → IsInitial w f first → Reaches m w first s → StandsAt m w s.rip s.active here → s.active ≡ top ∷ rest
        → Contains (events m w s here choice) (Write a n)
        → IsWithin a n (heap_range w) ⊎ IsWithin a n (globals_range w)
        ⊎ ((w.stack_low - 8192 ≤ a) × (a + n ≤ top.rsp0)) }
{}

/// What is asserted at the points of a module's functions, by function and point: in an instance, about the registers
/// with which an activation was entered, the activation, and registers, flags and stack.
pub trait Assertions {
    /// This is asserted.
    ghost holds: { World → Function → ℕ → Registers → Activation → Moment → Type 0 };
}

/// Where each step of each function keeps what is asserted at its points, in every instance that is laid out well, every
/// run stays in the sandbox, through calls to any depth, stubs, functions of the host and the probe of the stack.
pub fn asserted_code_is_sandboxed<A: Assertions>()
    ensures { (file : List ℕ) (map : Map) → IsModule file
        → ((w : World) → IsLaidOut (module_of file).image (module_of file).imports w
        → AreKept (module_of file) w map (A.holds w))
        → IsSandboxedBy (module_of file) map }
{
    module_laws();
}

/// The same where what is asked speaks of the statements of instructions: where each run of an instruction's statements
/// keeps what is asserted.
pub fn stated_code_is_sandboxed<A: Assertions>()
    ensures { (file : List ℕ) (map : Map) → IsModule file → IsBytes file
        → ((w : World) → IsLaidOut (module_of file).image (module_of file).imports w
        → AreStated (module_of file) w map (A.holds w))
        → IsSandboxedBy (module_of file) map }
{
    module_laws();
    effect_is_a_run();
    lists_are_in_form();
    words_stay();
}

/// What is asked can be met: a module whose functions all begin with RET is sandboxed, and its entries are the points.
pub fn returning_code_is_sandboxed()
    ensures { (file : List ℕ) → IsModule file
        → ((w : World) (f : Function) → Contains (module_of file).functions f
        → Spells (bytes_from ((module_of file).byte w) f.entry 1) Insn.Ret)
        → IsSandboxedBy (module_of file) entries }
{
    module_laws();
}

/// Where nothing decodes at the entry of a declared function, no tables sandbox the module.
pub fn unspelled_code_is_not_sandboxed()
    ensures { (file : List ℕ) (map : Map) (f : Function) → IsModule file
        → Contains (declared_functions file) f
        → NothingAt (code_at (image_of file) f.entry f.size) 0
        → IsSandboxedBy (module_of file) map → ⊥ }
{
    file_laws();
    functions_ascend();
    segments_are_bounded();
    imports_are_few();
}
