//! The book of a region of either kind, which judges the entries of a journal one after another.
ghost use Rattle.std.specs.Prelude.{◌≡◌, ◌<◌, ◌⊎◌, ℕ, List, [], IfOk};
ghost use Rattle.hm_model.specs.declared.entry.Entry.{Entry};
ghost use Rattle.hm_sizes.specs.declared.config.Config.{Config};
ghost use Rattle.hm_sizes.specs.Configs.{IsValid};
ghost use Rattle.hm_sizes.specs.Origins.{large_region_number};
ghost use Rattle.hm_class_book.specs.Reached as class_books;
ghost use Rattle.hm_class_book.specs.Said.{said};
ghost use Rattle.hm_large_book.specs.Reached as large_books;
ghost use Rattle.hm_heap.specs.Lawful.{fault_count, first_address};
ghost use Rattle.hm_check.specs.Readers.{class_regions};
ghost use Rattle.hm_check.specs.RegionBooks.{told_origin, IsClassBook, IsBook, IsSomeBook, IsJudged};

use crate::verdict::JournalFault;
use hm_base::{NoMemory, RegionId};
use hm_class_book::ClassBook;
use hm_large_book::LargeBook;
use hm_model::{Entry, Judgement};
use hm_sizes::{ClassId, Config};
use std::alloc::Global;

/// How many classes there are.
pub(crate) const CLASSES: u32 = hm_sizes::CLASSES as u32;

/// The number of the large region, which comes after those of four arenas.
pub(crate) const LARGE: u32 = 4 * CLASSES;

/// The book of a region.
#[derive(Drop)]
pub(crate) enum RegionBook {
    Class(ClassBook),
    Large(LargeBook),
}

fn class_book(
    alloc: Global,
    config: &Config,
    seed: u64,
    region: RegionId,
) -> Result<ClassBook, NoMemory>
    requires valid { IsValid config.now }
    requires region { region.0 < class_regions config.now }
    ensures { IfOk result (IsClassBook config.now seed region.0 []) }
{
    let arena = region.0 / CLASSES;
    let class = ClassId((region.0 % CLASSES) as u8);
    ClassBook::build(alloc, config, seed, arena, class)
}

fn take_class(book: &mut ClassBook, entry: &Entry) -> Result<Option<JournalFault>, NoMemory>
    requires { class_books.IsReached (said book.old) }
    ensures { (c : Config) (seed region : ℕ) (past : List Entry) → IsClassBook c seed region past book.old
        → IfOk result (IsJudged c seed region past entry.now (RegionBook.Class book.new)) }
{
    match book.take(entry)? {
        Judgement::Taken => Ok(None),
        Judgement::NotLegal => Ok(Some(JournalFault::NotLegal)),
        Judgement::NotDrawn => Ok(Some(JournalFault::NotDrawn)),
    }
}

fn take_large(book: &mut LargeBook, entry: &Entry) -> Result<Option<JournalFault>, NoMemory>
    requires { large_books.IsReached book.old }
    ensures { (c : Config) (seed : ℕ) (past : List Entry) → large_books.IsBookOf c seed past book.old
        → IfOk result (IsJudged c seed large_region_number past entry.now (RegionBook.Large book.new)) }
{
    match book.take(entry)? {
        Judgement::Taken => Ok(None),
        Judgement::NotLegal => Ok(Some(JournalFault::NotLegal)),
        Judgement::NotDrawn => Ok(Some(JournalFault::NotDrawn)),
    }
}

impl RegionBook {
    /// The book of a region with no entries, of this seed.
    pub(crate) fn build(
        alloc: Global,
        config: &Config,
        seed: u64,
        region: RegionId,
    ) -> Result<RegionBook, NoMemory>
        requires valid { IsValid config.now }
        requires region { (region.0 < class_regions config.now) ⊎ (region.0 ≡ large_region_number) }
        ensures { IfOk result (IsBook config.now seed region.0 []) }
    {
        if region.0 == LARGE {
            Ok(RegionBook::Large(LargeBook::build(alloc, config, seed)?))
        } else {
            Ok(RegionBook::Class(class_book(alloc, config, seed, region)?))
        }
    }

    /// Where the region begins.
    pub(crate) fn first(&self) -> u64
        ensures { (c : Config) (seed region : ℕ) (past : List Entry) → IsBook c seed region past self.now
            → result ≡ first_address (told_origin c seed region) }
    {
        match self {
            RegionBook::Class(book) => book.first(),
            RegionBook::Large(book) => book.first(),
        }
    }

    /// The count of page faults after the last entry.
    pub(crate) fn faults(&self) -> u64
        ensures { (c : Config) (seed region : ℕ) (past : List Entry) → IsBook c seed region past self.now
            → result ≡ fault_count (told_origin c seed region) past }
    {
        match self {
            RegionBook::Class(book) => book.faults(),
            RegionBook::Large(book) => book.faults(),
        }
    }

    /// Judges an entry while it takes it. Once one was not taken, or memory lacked, nothing is said of further ones.
    pub(crate) fn take(&mut self, entry: &Entry) -> Result<Option<JournalFault>, NoMemory>
        requires { IsSomeBook self.old }
        ensures { (c : Config) (seed region : ℕ) (past : List Entry) → IsBook c seed region past self.old
            → IfOk result (IsJudged c seed region past entry.now self.new) }
    {
        match self {
            RegionBook::Class(book) => take_class(book, entry),
            RegionBook::Large(book) => take_large(book, entry),
        }
    }
}
