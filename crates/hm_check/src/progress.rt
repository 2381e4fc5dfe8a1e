//! What is kept of a journal while it is read line by line, and what each line comes to.
ghost use Rattle.std.specs.Prelude.{◌≡◌, ◌+◌, ◌<◌, ◌≤◌, ◌^◌, List, [], ◌∷◌, IfOk};
ghost use Rattle.hm_model.specs.declared.entry.Entry.{Entry};
ghost use Rattle.hm_sizes.specs.Configs.{IsValid, standard};
ghost use Rattle.hm_check.specs.Progress.{reader_of, region_of, Knows, IsReady, Comes};
ghost use Rattle.hm_check.specs.Readers.{region_count, start};
ghost use Rattle.hm_check.specs.Verdicts.{Judges};

use crate::region_book::{CLASSES, LARGE, RegionBook};
use crate::verdict::{JournalFault, Verdict};
use hm_base::{NoMemory, RegionId};
use hm_journal::{closed_in, config_in, entry_in, is_end, is_header, region_in, seed_in};
use hm_sizes::Config;
use std::alloc::Global;

/// What the next line is to be.
#[derive(Clone, Copy, PartialEq, Eq, Drop)]
pub(crate) enum Next {
    Header,
    Configuration,
    Seed,
    /// That of a region; or the last one, where all have been closed.
    Region,
    /// So many entries, and then the line that closes the region.
    Entries { left: u64 },
    Nothing,
}

/// What is kept of the lines so far. Until a line has said it, the configuration and the seed are any.
#[derive(Drop)]
pub(crate) struct Progress {
    pub(crate) next: Next,
    pub(crate) config: Config,
    pub(crate) seed: u64,
    /// So many regions have been closed.
    pub(crate) regions: u32,
    /// So many entries were read in all.
    pub(crate) total: u64,
    /// The book of the region that is open.
    pub(crate) book: Option<RegionBook>,
}

impl Progress {
    /// Before the first line.
    pub(crate) fn start() -> Progress
        ensures reader { reader_of result [] ≡ start }
        ensures knows { Knows result [] }
    {
        Progress {
            next: Next::Header,
            config: Config::standard(),
            seed: 0,
            regions: 0,
            total: 0,
            book: None,
        }
    }

    fn header(&mut self, line: &[u8]) -> Option<JournalFault>
        requires { self.old.next ≡ Next.Header }
        ensures { (past : List Entry) → Knows self.old past
            → Comes (reader_of self.old past) line.now self.new result }
    {
        if !is_header(line) {
            return Some(JournalFault::BadText);
        }
        self.next = Next::Configuration;
        None
    }

    fn configuration(
        &mut self,
        alloc: Global,
        line: &[u8],
    ) -> Result<Option<JournalFault>, NoMemory>
        requires { self.old.next ≡ Next.Configuration }
        ensures { (past : List Entry) → Knows self.old past
            → IfOk result (Comes (reader_of self.old past) line.now self.new) }
    {
        let Some(config) = config_in(alloc, line)? else {
            return Ok(Some(JournalFault::BadText));
        };
        self.next = Next::Seed;
        self.config = config;
        Ok(None)
    }

    fn seed(&mut self, alloc: Global, line: &[u8]) -> Result<Option<JournalFault>, NoMemory>
        requires { self.old.next ≡ Next.Seed }
        ensures { (past : List Entry) → Knows self.old past
            → IfOk result (Comes (reader_of self.old past) line.now self.new) }
    {
        let Some(seed) = seed_in(alloc, line)? else {
            return Ok(Some(JournalFault::BadText));
        };
        self.next = Next::Region;
        self.seed = seed;
        Ok(None)
    }

    // The region that is opened next.
    fn region_number(&self) -> RegionId
        requires { IsValid self.now.config }
        ensures { result.0 ≡ region_of self.now }
    {
        if self.regions < self.config.arenas * CLASSES {
            RegionId(self.regions)
        } else {
            RegionId(LARGE)
        }
    }

    fn region(&mut self, alloc: Global, line: &[u8]) -> Result<Option<JournalFault>, NoMemory>
        requires ready { IsReady self.old }
        requires stage { self.old.next ≡ Next.Region }
        requires more { self.old.regions < region_count self.old.config }
        ensures { (past : List Entry) → Knows self.old past
            → IfOk result (Comes (reader_of self.old past) line.now self.new) }
    {
        let region = self.region_number();
        let Some(said) = region_in(alloc, line)? else {
            return Ok(Some(JournalFault::BadText));
        };
        if said.region != region {
            return Ok(Some(JournalFault::BadText));
        }
        let book = RegionBook::build(alloc, &self.config, self.seed, region)?;
        if said.first != book.first() {
            return Ok(Some(JournalFault::NotDrawn));
        }
        self.next = Next::Entries { left: said.entries };
        self.book = Some(book);
        Ok(None)
    }

    fn last(&mut self, line: &[u8]) -> Option<JournalFault>
        requires stage { self.old.next ≡ Next.Region }
        requires all { region_count self.old.config ≤ self.old.regions }
        ensures { (past : List Entry) → Knows self.old past
            → Comes (reader_of self.old past) line.now self.new result }
    {
        if !is_end(line) {
            return Some(JournalFault::BadText);
        }
        self.next = Next::Nothing;
        None
    }

    fn region_or_last(
        &mut self,
        alloc: Global,
        line: &[u8],
    ) -> Result<Option<JournalFault>, NoMemory>
        requires ready { IsReady self.old }
        requires stage { self.old.next ≡ Next.Region }
        ensures { (past : List Entry) → Knows self.old past
            → IfOk result (Comes (reader_of self.old past) line.now self.new) }
    {
        if self.regions <= self.config.arenas * CLASSES {
            self.region(alloc, line)
        } else {
            Ok(self.last(line))
        }
    }

    fn entry(
        &mut self,
        alloc: Global,
        left: u64,
        line: &[u8],
    ) -> Result<Option<JournalFault>, NoMemory>
        requires ready { IsReady self.old }
        requires stage { self.old.next ≡ Next.Entries left }
        requires some { 1 ≤ left }
        requires room { self.old.total + 1 < 2 ^ 64 }
        ensures { (past : List Entry) → Knows self.old past
            → IfOk result (Comes (reader_of self.old past) line.now self.new) }
    {
        let Some(entry) = entry_in(alloc, line)? else {
            return Ok(Some(JournalFault::BadText));
        };
        let Some(book) = &mut self.book else {
            unreachable!();
        };
        let fault = book.take(&entry)?;
        self.next = Next::Entries { left: left - 1 };
        self.total += 1;
        Ok(fault)
    }

    fn closed(&mut self, alloc: Global, line: &[u8]) -> Result<Option<JournalFault>, NoMemory>
        requires ready { IsReady self.old }
        requires stage { self.old.next ≡ Next.Entries 0 }
        ensures { (past : List Entry) → Knows self.old past
            → IfOk result (Comes (reader_of self.old past) line.now self.new) }
    {
        let Some(faults) = closed_in(alloc, line)? else {
            return Ok(Some(JournalFault::BadText));
        };
        let Some(book) = &self.book else {
            unreachable!();
        };
        if faults != book.faults() {
            return Ok(Some(JournalFault::NotLegal));
        }
        self.next = Next::Region;
        self.regions += 1;
        self.book = None;
        Ok(None)
    }

    /// Reads the next line, which has its line feed. After a line at fault, and where memory lacks, nothing is said of
    /// further ones.
    pub(crate) fn line(
        &mut self,
        alloc: Global,
        line: &[u8],
    ) -> Result<Option<JournalFault>, NoMemory>
        requires ready { IsReady self.old }
        requires room { self.old.total + 1 < 2 ^ 64 }
        ensures { (past : List Entry) → Knows self.old past
            → IfOk result (Comes (reader_of self.old past) line.now self.new) }
    {
        match self.next {
            Next::Header => Ok(self.header(line)),
            Next::Configuration => self.configuration(alloc, line),
            Next::Seed => self.seed(alloc, line),
            Next::Region => self.region_or_last(alloc, line),
            Next::Entries { left: 0 } => self.closed(alloc, line),
            Next::Entries { left } => self.entry(alloc, left, line),
            Next::Nothing => Ok(Some(JournalFault::BadText)),
        }
    }

    /// The verdict where no line ends any more, behind which this stands.
    pub(crate) fn end(&self, rest: &[u8], number: u64) -> Verdict
        ensures { (past : List Entry) → Judges (reader_of self.now past) number (rest.now ∷ []) result }
    {
        let ended = self.next == Next::Nothing;
        let nothing = rest.is_empty();
        if ended & nothing {
            Verdict::Yes {
                entries: self.total,
            }
        } else {
            Verdict::No {
                line: number,
                fault: JournalFault::BadText,
            }
        }
    }
}
