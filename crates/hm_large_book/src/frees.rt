//! Entries of a block that was taken back.
ghost use Rattle.std.specs.Prelude.{◌≡◌, ◌↔◌, ◌<◌, ◌≤◌, IsTrue, IfOk};
ghost use Rattle.hm_model.specs.Calls.{no_choices, one_word};
ghost use Rattle.hm_large_rules.specs.State.{quarantined_below};
ghost use Rattle.hm_large_book.specs.Book.{blocks_in, Accepts};
ghost use Rattle.hm_large_book.specs.Changes.{IsLive};
ghost use Rattle.hm_large_book.specs.Freed.{JudgesFree};
ghost use Rattle.hm_large_book.specs.Judged.{Judges, Holds};

use crate::blocks::{Extent, accepted};
use crate::book::LargeBook;
use hm_base::NoMemory;
use hm_large_rules::{ARRAY_LENGTH, QUARANTINED_BELOW};
use hm_model::{Call, Choices, Draws, Entry, Judgement, Reply};

// Whether an entry chose at most what left the quarantine.
fn chose(entry: &Entry) -> bool
    ensures { IsTrue result ↔ (entry.now.choices ≡ record no_choices { released = entry.now.choices.released }) }
{
    entry.choices
        == Choices {
            released: entry.choices.released,
            ..Choices::none()
        }
}

// Whether an entry has this word, and this is what left the quarantine.
fn draws_so(entry: &Entry, word: u32, left: Option<u64>) -> bool
    ensures { IsTrue result ↔ ((entry.now.draws ≡ one_word word) × (left ≡ entry.now.choices.released)) }
{
    (entry.draws == Draws::one(word)) & (left == entry.choices.released)
}

impl LargeBook {
    // A block that does not go into quarantine was taken back.
    fn freed_great(&mut self, entry: &Entry, addr: u64, extent: Extent) -> Judgement
        requires live { IsLive self.old.blocks addr extent }
        requires great { quarantined_below ≤ extent.size }
        ensures { JudgesFree self.old entry.now addr extent self.new result }
    {
        if entry.choices.released.is_some() {
            return Judgement::NotLegal;
        }
        self.blocks.leave(addr, extent);
        if entry.draws == Draws::none() {
            Judgement::Taken
        } else {
            Judgement::NotDrawn
        }
    }

    // A block that goes into quarantine was taken back.
    fn freed_small(
        &mut self,
        entry: &Entry,
        addr: u64,
        extent: Extent,
    ) -> Result<Judgement, NoMemory>
        requires stands { Holds self.old }
        requires live { IsLive self.old.blocks addr extent }
        requires small { extent.size < quarantined_below }
        ensures { IfOk result (JudgesFree self.old entry.now addr extent self.new) }
    {
        self.blocks.quarantine(addr, extent)?;
        if !self.blocks.release(entry.choices.released) {
            return Ok(Judgement::NotLegal);
        }
        let (word, index) = self.words.draw(ARRAY_LENGTH);
        let left = self.quarantine.pass(addr, index);
        if draws_so(entry, word, left) {
            Ok(Judgement::Taken)
        } else {
            Ok(Judgement::NotDrawn)
        }
    }

    // A live block was taken back, its size being right.
    fn freed_block(
        &mut self,
        entry: &Entry,
        addr: u64,
        stated: Option<u64>,
        extent: Extent,
    ) -> Result<Judgement, NoMemory>
        requires stands { Holds self.old }
        requires accepts { Accepts (blocks_in self.old.blocks.live.items) addr stated extent }
        ensures { IfOk result (Judges self.old entry.now (Call.GiveBack addr stated) Reply.Freed self.new) }
    {
        if !chose(entry) {
            return Ok(Judgement::NotLegal);
        }
        if extent.size >= QUARANTINED_BELOW {
            return Ok(self.freed_great(entry, addr, extent));
        }
        let judgement = self.freed_small(entry, addr, extent)?;
        Ok(judgement)
    }

    /// A block was taken back.
    pub(crate) fn freed(
        &mut self,
        entry: &Entry,
        addr: u64,
        stated: Option<u64>,
    ) -> Result<Judgement, NoMemory>
        requires stands { Holds self.old }
        ensures { IfOk result (Judges self.old entry.now (Call.GiveBack addr stated) Reply.Freed self.new) }
    {
        match accepted(&self.blocks.live, addr, stated) {
            Some(extent) => self.freed_block(entry, addr, stated, extent),
            None => Ok(Judgement::NotLegal),
        }
    }
}
