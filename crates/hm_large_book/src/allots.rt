//! Entries of a call that allots a large block.
ghost use Rattle.std.specs.Prelude.{◌≡◌, ◌≤◌, ◌^◌, ◌↔◌, IsTrue, IfOk, Some};
ghost use Rattle.hm_choice.specs.Stream.{after_word};
ghost use Rattle.hm_large_rules.specs.Rules.{chose_guard};
ghost use Rattle.hm_large_book.specs.Guarded.{JudgesGuard};
ghost use Rattle.hm_large_book.specs.Judged.{Judges, Holds};

use crate::book::LargeBook;
use crate::changes::size_of_block;
use crate::judgement::rose;
use crate::least::least_address;
use hm_base::NoMemory;
use hm_choice::Stream;
use hm_model::{Call, Choices, Draws, Entry, Judgement, Reply};
use hm_sizes::PAGE;

// Whether an entry chose this guard alone.
fn chose(entry: &Entry, guard: u64) -> bool
    ensures { IsTrue result ↔ (entry.now.choices ≡ chose_guard guard) }
{
    entry.choices
        == Choices {
            guard: Some(guard),
            ..Choices::none()
        }
}

fn is_same(number: u64, other: u64) -> bool
    ensures { IsTrue result ↔ (number ≡ other) }
{
    number == other
}

// Whether the address that was found is this one.
fn is_found(least: Option<u64>, addr: u64) -> bool
    ensures { IsTrue result ↔ (least ≡ Some addr) }
{
    match least {
        Some(found) => found == addr,
        None => false,
    }
}

// Draws the pages of a guard. Says whether an entry that is allowed has that word and these pages.
fn guarded(words: &mut Stream, entry: &Entry, size: u64) -> Judgement
    requires { size ≤ 2 ^ 30 }
    ensures judged { JudgesGuard words.old entry.now size result }
    ensures taken { words.new ≡ after_word words.old }
{
    let most = (size / (2 * PAGE)).max(1);
    let (word, more) = words.draw(most as u32);
    let pages = 1 + u64::from(more);
    if (entry.draws == Draws::one(word)) & is_found(entry.choices.guard, pages) {
        Judgement::Taken
    } else {
        Judgement::NotDrawn
    }
}

impl LargeBook {
    /// A block of so many bytes was given at an address.
    pub(crate) fn given(
        &mut self,
        entry: &Entry,
        asked: u64,
        align: u64,
        addr: u64,
        usable: u64,
    ) -> Result<Judgement, NoMemory>
        requires asked { asked ≤ 2 ^ 30 }
        requires stands { Holds self.old }
        ensures { IfOk result (Judges self.old entry.now (Call.Allot asked align) (Reply.Given addr usable) self.new) }
    {
        let guard = entry.choices.guard.unwrap_or(0);
        let size = size_of_block(asked);
        let least = least_address(&self.blocks.space, size, guard, align);
        let chosen = chose(entry, guard);
        let sized = is_same(usable, size);
        let placed = is_found(least, addr);
        let allowed = chosen & sized & placed;
        if !allowed {
            return Ok(Judgement::NotLegal);
        }
        self.blocks.insert(self.alloc, addr, asked, guard)?;
        Ok(guarded(&mut self.words, entry, size))
    }

    /// There was no space.
    pub(crate) fn no_space(&mut self, entry: &Entry, asked: u64, align: u64) -> Judgement
        requires asked { asked ≤ 2 ^ 30 }
        ensures { Judges self.old entry.now (Call.Allot asked align) Reply.NoSpace self.new result }
    {
        let guard = entry.choices.guard.unwrap_or(0);
        let size = size_of_block(asked);
        let least = least_address(&self.blocks.space, size, guard, align);
        let chosen = chose(entry, guard);
        let none = least.is_none();
        let allowed = chosen & none;
        if !allowed {
            return Judgement::NotLegal;
        }
        guarded(&mut self.words, entry, size)
    }

    /// There was space, and a page fault occurred.
    pub(crate) fn allot_fault(&mut self, entry: &Entry, asked: u64, align: u64) -> Judgement
        requires asked { asked ≤ 2 ^ 30 }
        ensures { Judges self.old entry.now (Call.Allot asked align) Reply.PagesFailed self.new result }
    {
        let guard = entry.choices.guard.unwrap_or(0);
        let size = size_of_block(asked);
        let least = least_address(&self.blocks.space, size, guard, align);
        let chosen = chose(entry, guard);
        let some = least.is_some();
        let rose = rose(entry);
        let allowed = chosen & some & rose;
        if !allowed {
            return Judgement::NotLegal;
        }
        guarded(&mut self.words, entry, size)
    }
}
