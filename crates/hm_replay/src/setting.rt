//! What the rounds and the steps of scripts are run with.
use hm_heap::Heap;
use hm_outside::{Gate, Pages};
use std::alloc::Global;

/// The runtime on which a call may wait, the allocator, and the heap.
#[derive(Drop)]
pub struct Setting<'a, 'g, R, P: Pages, G: Gate> {
    pub rt: &'a R,
    pub alloc: Global,
    pub heap: &'a Heap<'g, P, G>,
}
