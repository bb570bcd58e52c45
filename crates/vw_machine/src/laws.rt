//! Facts about the definitions, each the contract of a function that does nothing. They show that the definitions refuse
//! what they are meant to refuse, and that they leave no choice where there is none.

ghost use Rattle.std.specs.Prelude.{◌≡◌, ◌≢◌, ℕ, ◌+◌, ◌-◌, ◌^◌, ◌≤◌, ◌<◌, List, ◌∷◌, true, false, Contains};
ghost use Rattle.vw_insn.specs.declared.instruction.Insn.{Insn};
ghost use Rattle.vw_insn.specs.Effect.{Access, Way, Ordinary, Return};
ghost use Rattle.vw_layout.specs.Layout.{IsWhole};
ghost use Rattle.vw_layout.specs.declared.layout.Module.{Module as Declared};
ghost use Rattle.vw_machine.specs.declared.world.World.{World};
ghost use Rattle.vw_machine.specs.declared.choice.Choice.{Choice};
ghost use Rattle.vw_machine.specs.declared.event.Event.{Event};
ghost use Rattle.vw_machine.specs.declared.event.Event.TheVariants.{Read, Write, Goto};
ghost use Rattle.vw_machine.specs.World.{Range, IsLaidOut, IsIn, loaded_range};
ghost use Rattle.vw_machine.specs.Module.{ModuleView, module_of, view_of};
ghost use Rattle.vw_machine.specs.State.{Activation, MachineState};
ghost use Rattle.vw_machine.specs.Standing.{Here, IsInside, IsSpelledAt, StandsAt};
ghost use Rattle.vw_machine.specs.Step.{does_trap};
ghost use Rattle.vw_machine.specs.Permitted.{MayDo, IsPermitted};
ghost use Rattle.vw_machine.specs.Laws.{IsFramed};

use vw_decode::one_spelling;

/// A read whose last byte is the first one past the heap's reservation is permitted to no instruction.
pub fn reservation_ends()
    ensures { (m : ModuleView) (w : World) (top : Activation) (way : Way) → IsLaidOut m.image m.imports w → IsFramed w top
        → MayDo m w top way (Read (w.heap + 2 ^ 33 - 3) 4) → ⊥ }
{}

/// A read that touches the instance word is permitted to an instruction only where it reads the word, all of it and
/// nothing else.
pub fn instance_word_is_read_whole()
    ensures { (m : ModuleView) (w : World) (top : Activation) (way : Way) (a n : ℕ) → IsLaidOut m.image m.imports w → IsFramed w top
        → 0 < n → a < w.heap → w.heap - 8 < a + n → MayDo m w top way (Read a n) → (a + 8 ≡ w.heap) × (n ≡ 8) }
{}

/// No write touches the instance word.
pub fn instance_word_is_not_written()
    ensures { (m : ModuleView) (w : World) (top : Activation) (way : Way) (a n : ℕ) → IsLaidOut m.image m.imports w → IsFramed w top
        → 0 < n → a < w.heap → w.heap - 8 < a + n → MayDo m w top way (Write a n) → ⊥ }
{}

/// The globals end after 4,096 bytes: an access to the last of them and to the byte behind it is permitted to no
/// instruction.
pub fn globals_end()
    ensures reads { (m : ModuleView) (w : World) (top : Activation) (way : Way) (a n : ℕ) → IsLaidOut m.image m.imports w → IsFramed w top
        → a < w.globals + 4096 → w.globals + 4096 < a + n → w.globals ≤ a → MayDo m w top way (Read a n) → ⊥ }
    ensures writes { (m : ModuleView) (w : World) (top : Activation) (way : Way) (a n : ℕ) → IsLaidOut m.image m.imports w → IsFramed w top
        → a < w.globals + 4096 → w.globals + 4096 < a + n → w.globals ≤ a → MayDo m w top way (Write a n) → ⊥ }
{}

/// A write that touches one of the eight bytes of the return address is permitted to no instruction.
pub fn return_address_stays()
    ensures { (m : ModuleView) (w : World) (top : Activation) (way : Way) (a n : ℕ) → IsLaidOut m.image m.imports w → IsFramed w top
        → 0 < n → a < top.rsp0 + 8 → top.rsp0 < a + n → MayDo m w top way (Write a n) → ⊥ }
{}

/// A write that touches a byte of the image is permitted to no instruction.
pub fn image_stays()
    ensures { (m : ModuleView) (w : World) (top : Activation) (way : Way) (a n q : ℕ) (part : Range) → IsLaidOut m.image m.imports w → IsFramed w top
        → Contains m.image part → IsIn q (loaded_range w part) → a ≤ q → q < a + n → MayDo m w top way (Write a n) → ⊥ }
{}

/// A read that touches a byte of the frame that is not written is permitted to no instruction.
pub fn unwritten_is_not_read()
    ensures { (m : ModuleView) (w : World) (top : Activation) (way : Way) (a n q : ℕ) → IsLaidOut m.image m.imports w → IsFramed w top
        → w.stack_low ≤ q → q < top.rsp0 → top.written q ≡ false → a ≤ q → q < a + n → MayDo m w top way (Read a n) → ⊥ }
{}

/// A write at the lowest byte of the guard is permitted, since it ends the run: code that probes its stack
/// need not know how much of it is left.
pub fn guard_may_be_written()
    ensures { (m : ModuleView) (w : World) (top : Activation) → IsLaidOut m.image m.imports w → IsFramed w top
        → MayDo m w top Ordinary (Write (w.stack_low - 8192) 8) }
{}

/// An access that touches a byte of the guard traps, whatever is chosen.
pub fn guard_traps()
    ensures { (w : World) (i : Insn) (a n : ℕ) (choice : Choice) (more : List Access)
        → a < w.stack_low → w.stack_low - 8192 < a + n → does_trap w i (record { at = a; size = n } ∷ more) choice ≡ true }
{}

/// A return goes nowhere but to the return address.
pub fn returns_go_back()
    ensures { (m : ModuleView) (w : World) (top : Activation) (to : ℕ) → to ≢ top.back → MayDo m w top Return (Goto to) → ⊥ }
{}

/// One thing stands at rip: an instruction, a stub, a function of the host, the probe, or nothing.
pub fn one_thing_stands()
    ensures { (m : ModuleView) (w : World) (rip : ℕ) (active : List Activation) (here other : Here) → IsLaidOut m.image m.imports w
        → StandsAt m w rip active here → StandsAt m w rip active other → here ≡ other }
{
    one_spelling();
}

/// Where rip lies in the function that was entered last and no instruction is spelled there, nothing is permitted.
pub fn unspelled_is_refused()
    ensures { (m : ModuleView) (w : World) (s : MachineState) (top : Activation) (rest : List Activation) (event : Event) → s.active ≡ top ∷ rest
        → IsInside m w top s.rip → ((i : Insn) (len : ℕ) → IsSpelledAt m w top s.rip i len → ⊥) → IsPermitted m w s event → ⊥ }
{}

/// A module is seen as its file's.
pub fn views_are_of_files()
    ensures { (declared : Declared) → IsWhole declared → view_of declared ≡ module_of declared.image.bytes }
{}
