//! One accessible run in a vector: its first address and its bytes. All have bytes of their own, and no part is named.
ghost use Rattle.std.specs.Prelude.{◌≡◌, IfOk};
ghost use Rattle.hm_base.specs.Lists.{zeros};

use hm_outside::{HasPageRun, Piece};
use std::alloc::{AllocError, Global};

#[derive(Drop)]
pub(crate) struct Run {
    first: u64,
    bytes: Vec<u8>,
}

impl Run {
    ghost use Rattle.hm_fakes.specs.PlainRuns.{entry};

    /// A run of zero bytes.
    pub(crate) fn zeroed(alloc: Global, first: u64, len: usize) -> Result<Run, AllocError>
        ensures { IfOk result (λ r. entry r ≡ (first, zeros len)) }
    {
        let bytes = vec![in alloc; 0; len]?;
        Ok(Run { first, bytes })
    }
}

impl HasPageRun for Run {
    ghost use Rattle.std.specs.Prelude.{[], ⊤, refl};
    ghost use Rattle.hm_fakes.specs.PlainRuns.{entry, with_bytes, put_over};
    ghost use Rattle.hm_fakes.specs.PlainLaws.{run_put, put_exact};

    ghost entry = { entry };

    ghost after_write = { with_bytes };

    ghost put = { put_over };

    ghost own = { λ r. [] };

    ghost none_own = { λ n. [] };

    ghost own_lent = { λ m from len. [] };

    ghost own_filled = { λ m from len n. ⊤ };

    ghost written = { run_put };

    ghost lent = { λ r from len w. refl };

    ghost exact = { put_exact };

    fn first(&self) -> u64 {
        self.first
    }

    fn len(&self) -> usize {
        self.bytes.len()
    }

    fn front(&self, from: usize, len: usize) -> Piece<'_> {
        Piece::Bytes(&self.bytes[from..from + len])
    }

    fn bytes_at(&mut self, from: usize, len: usize) -> &mut [u8] {
        self.bytes.slice_mut(from..from + len)
    }

    fn fill(&mut self, from: usize, len: usize, byte: u8) {
        self.bytes.slice_mut(from..from + len).fill(byte);
    }

    fn clear(&mut self) {
        self.bytes.fill(0);
    }
}
