//! Where an instance of a module lies in memory.

use vw_bits::List;

/// An instance of a module: where its image, its heap, its globals and its stack lie, and where the host is. All are
/// addresses of the processor, below 2^47 where the instance is laid out well.
#[derive(Debug, Drop)]
pub struct World {
    /// The load address of the image.
    pub load: u64,
    /// The base of the heap. The eight bytes below it are the instance word, which holds the globals' address.
    pub heap: u64,
    /// The address of the globals.
    pub globals: u64,
    /// The lowest address of the stack. Below it lie 8,192 bytes of guard.
    pub stack_low: u64,
    /// The end of the stack: the address behind its highest byte.
    pub stack_high: u64,
    /// Where the host goes on when the function that it entered returns.
    pub host_return: u64,
    /// The host's function for each import, by the import's number.
    pub hosts: List<u64>,
}
