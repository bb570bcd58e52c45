//! What loads give.

ghost use Rattle.std.specs.Prelude.{◌≡◌, ℕ, ◌+◌, ◌≤◌, ◌<◌, ◌%◌, ◌^◌, true};
ghost use Rattle.vw_machine.specs.Module.{view_of};
ghost use Rattle.vw_machine.specs.Step.{is_in_image, image_number, loads};
ghost use Rattle.vw_machine.specs.Kept.{state_of};
ghost use Rattle.vw_machine.specs.Answers.{IsPlaced};

use crate::image::{is_in_image, number_at};
use crate::judging::is_instance_word;
use crate::memory::number_in;
use crate::ranges::is_within;
use crate::{Choice, Machine, World};
use vw_layout::Module;

// The low bytes of a number.
fn low_bytes(number: u64, size: u32) -> u64
    ensures { result ≡ number % 256 ^ size }
{
    if size < 8 {
        number % (1 << (8 * size))
    } else {
        number
    }
}

// The number that a load of at most eight bytes gives.
pub(crate) fn loaded(
    machine: &Machine,
    module: &Module,
    world: &World,
    choice: &Choice,
    at: u64,
    size: u32,
) -> u64
    requires placed { IsPlaced «module».now world.now }
    requires short { size ≤ 8 }
    ensures { result
        ≡ loads (view_of «module».now) world.now choice.now (state_of machine.now).bytes at size }
{
    if is_instance_word(world, at, size) {
        world.globals
    } else if is_within(at, size, world.stack_low, world.stack_high) {
        number_in(&machine.bytes, at, size)
    } else if is_in_image(module, world, at, size) {
        number_at(module, world, at, size)
    } else {
        low_bytes(choice.numbers[0], size)
    }
}
