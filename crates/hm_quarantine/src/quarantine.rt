//! The array and the ring of one region. A freed slot goes to a cell of the array, what stood there goes
//! on to the ring, and a full ring gives its oldest out.
ghost use Rattle.std.specs.Prelude.{◌≡◌, length, IfOk};
ghost use Rattle.hm_quarantine.specs.Quarantine.{IsArrayIndex, nothing_kept, let_go, kept_with};

use crate::array::Array;
use circular_buffer::HeapCircularBuffer;
use hm_base::NoMemory;
use std::alloc::Global;
use std::marker::Model;

/// Slots that are freed and not yet released.
#[derive(Drop)]
pub struct Quarantine {
    array: Array,
    ring: HeapCircularBuffer<u64>,
}

impl Model for Quarantine {
    ghost use Rattle.hm_quarantine.specs.Quarantine.{Kept};

    ghost Value = { Kept };

    ghost view = { λ q. record { array = q.array; ring = q.ring.items; ring_length = q.ring.capacity } };
}

impl Quarantine {
    /// An empty quarantine with this many cells in its array and in its ring. Either may be 0.
    pub fn build(alloc: Global, array: u32, ring: u32) -> Result<Quarantine, NoMemory>
        ensures { IfOk result (λ q. q ≡ nothing_kept array ring) }
    {
        let array = Array::build(alloc, array as usize)?;
        let ring = HeapCircularBuffer::with_capacity(alloc, ring as usize)?;
        Ok(Quarantine { array, ring })
    }

    /// Takes a freed slot in, at a cell of the array, and answers the slot that leaves.
    pub fn pass(&mut self, slot: u64, index: u32) -> Option<u64>
        requires { IsArrayIndex (length self.old.array) index }
        ensures released { result ≡ let_go self.old slot index }
        ensures kept { self.new ≡ kept_with self.old slot index }
    {
        if self.array.is_empty() {
            return self.ring.push_back(slot);
        }
        let before = self.array.put(index as usize, slot)?;
        self.ring.push_back(before)
    }
}
