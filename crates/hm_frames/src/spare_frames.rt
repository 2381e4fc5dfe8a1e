//! Runs whose pages were dropped, kept to be used again: no more than a few, and none that is long.
ghost use Rattle.std.specs.Prelude.{◌≡◌, ◌*◌, ◌≤◌, length, All, vec_len, IfOk, IfSome};
ghost use Rattle.hm_base.specs.Lists.{zeros};
ghost use Rattle.hm_frames.specs.OwnUnits.{none_own};

use crate::frame::Frame;
use hm_base::NoMemory;
use hm_outside::HasPageRun;
use std::alloc::Global;

/// At most so many runs are kept.
const MOST_KEPT: usize = 8;

/// No run of more bytes is kept: 256 pages.
const LONGEST_KEPT: usize = 1_048_576;

/// The kept runs. Each still has the bytes that were written, and is made zero when it is taken.
#[derive(Drop)]
pub(crate) struct SpareFrames {
    frames: Vec<Frame>,
    ghost few: { vec_len frames ≤ 8 },
    ghost short: { All (λ f. length f.run.bytes ≤ 1048576) frames.items },
}

impl SpareFrames {
    /// None is kept. It takes no memory.
    pub(crate) fn new(alloc: Global) -> Self {
        SpareFrames {
            frames: Vec::new(alloc),
        }
    }

    /// Keeps the run, or drops it: where enough are kept, where it is long, and where no room was made. It takes no
    /// memory.
    pub(crate) fn keep(&mut self, frame: Frame) {
        let room = self.frames.capacity().min(MOST_KEPT);
        if self.frames.len() < room && frame.len() <= LONGEST_KEPT {
            self.frames.push_reserved(frame);
        }
    }

    /// A kept run of so many bytes, which is kept no longer.
    fn take(&mut self, len: usize) -> Option<Frame>
        ensures { IfSome result (λ r. length r.run.bytes ≡ len) }
    {
        let i = self.frames.iter().position(|frame| frame.len() == len)?;
        Some(self.frames.swap_remove(i))
    }

    /// A run of zero bytes: a kept one of that length, or else a fresh one. Room is made for all runs that may be kept.
    pub(crate) fn zeroed(
        &mut self,
        alloc: Global,
        first: u64,
        pages: u32,
    ) -> Result<Frame, NoMemory>
        requires some { 1 ≤ pages }
        requires few { pages ≤ 262144 }
        ensures first { IfOk result (λ r. r.first ≡ first) }
        ensures bytes { IfOk result (λ r. r.run.bytes ≡ zeros (4096 * pages)) }
        ensures own { IfOk result (λ r. r.run.own ≡ none_own (4096 * pages)) }
    {
        self.frames.reserve(MOST_KEPT - self.frames.len())?;
        match self.take(pages as usize * 4096) {
            Some(mut frame) => {
                frame.move_to(first);
                Ok(frame)
            }
            None => Frame::zeroed(alloc, first, pages),
        }
    }
}
