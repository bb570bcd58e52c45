//! An instance of a module.

ghost use Rattle.std.specs.Prelude.{◌≡◌, ◌≤◌, length, IfOk};
ghost use Rattle.vw_layout.specs.Layout.{IsWhole};
ghost use Rattle.vw_machine.specs.World.{usual_hosts, usual_instance};
ghost use Rattle.vw_machine.specs.Answers.{IsPlaced};

use crate::World;
use std::alloc::Global;
use vw_bits::{List, OutOfMemory};
use vw_image::segments_are_bounded;
use vw_layout::{Module, imports_are_few};

/// Where the functions of the host begin.
const HOSTS: u64 = 0x6000_0000_0000;

// Addresses for so many functions of the host.
fn hosts_of(alloc: Global, count: u32) -> Result<List<u64>, OutOfMemory>
    requires { count ≤ 65536 }
    ensures { IfOk result (λ hosts. hosts ≡ usual_hosts count) }
{
    let mut hosts = List::new(alloc);
    for number in 0..count {
        hosts.push(HOSTS + 16 * number as u64)?;
    }
    Ok(hosts)
}

impl World {
    /// An instance of a module that is laid out well: the image is loaded at 2^40, the heap lies at 2^45, the globals
    /// 2^44 behind it, a stack of 1 MiB another 2^44 on, the host's return address is 2^44 behind that, and its
    /// function for import k is 2^44 + 16 k on. OutOfMemory where the allocator refuses a request.
    pub fn usual(alloc: Global, module: &Module) -> Result<World, OutOfMemory>
        requires { IsWhole «module».now }
        ensures addresses { IfOk result (λ world. world
            ≡ usual_instance (length «module».now.image.imports)) }
        ensures placed { IfOk result (IsPlaced «module».now) }
    {
        segments_are_bounded();
        imports_are_few();
        let _ = module.image.segments();
        let hosts = hosts_of(alloc, module.image.imports().len())?;
        Ok(World {
            load: 0x100_0000_0000,
            heap: 0x2000_0000_0000,
            globals: 0x3000_0000_0000,
            stack_low: 0x4000_0000_0000,
            stack_high: 0x4000_0010_0000,
            host_return: 0x5000_0000_0000,
            hosts,
        })
    }
}
