//! The array of a quarantine: cells that each hold a slot or nothing. It writes its memory only as far as a cell
//! was ever set, so that an array of which little is used costs little.
ghost use Rattle.std.specs.Prelude.{◌≡◌, ◌<◌, ◌==◌, length, replicate, slice_index_or, slice_set, None, Some, IfOk};

use hm_base::NoMemory;
use std::alloc::Global;
use std::marker::Model;

/// Cells of which those past the last one that was ever set are not written.
#[derive(Drop)]
pub(crate) struct Array {
    written: Vec<Option<u64>>,
    len: usize,
}

impl Model for Array {
    ghost use Rattle.std.specs.Prelude.{ℕ, ◌≤◌, List, Option, length, vec_capacity};
    ghost use Rattle.hm_quarantine.specs.Quarantine.{cells};

    ghost Value = { List (Option ℕ) };

    ghost view = { λ a. cells a.len a.written.items };

    ghost invariant = { λ a. (length a.written.items ≤ a.len) × (a.len ≤ vec_capacity a.written) };
}

impl Array {
    /// So many empty cells.
    pub(crate) fn build(alloc: Global, len: usize) -> Result<Array, NoMemory>
        ensures { IfOk result (λ array. array ≡ replicate len None) }
    {
        let written = Vec::with_capacity(alloc, len)?;
        Ok(Array { written, len })
    }

    /// Whether there is no cell.
    pub(crate) fn is_empty(&self) -> bool
        ensures { result ≡ (length self.now == 0) }
    {
        self.len == 0
    }

    /// Sets a cell, and answers what stood there.
    pub(crate) fn put(&mut self, index: usize, slot: u64) -> Option<u64>
        requires { index < length self.old }
        ensures before { result ≡ slice_index_or self.old index None }
        ensures after { self.new ≡ slice_set self.old index (Some slot) }
    {
        if index < self.written.len() {
            return self.written[index].replace(slot);
        }
        let Ok(()) = self.written.resize(index, None) else {
            unreachable!();
        };
        self.written.push_reserved(Some(slot));
        None
    }
}
