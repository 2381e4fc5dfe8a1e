//! A book of the large region: what its state is after some entries, which are legal and drawn, and whether a further
//! one may come next.
ghost use Rattle.std.specs.Prelude.{◌≡◌, ℕ, IfOk, List, []};
ghost use Rattle.hm_model.specs.declared.entry.Entry.{Entry};
ghost use Rattle.hm_sizes.specs.Configs.{IsValid};
ghost use Rattle.hm_sizes.specs.Homes.{large_start};
ghost use Rattle.hm_sizes.specs.declared.config.Config.{Config};
ghost use Rattle.hm_large_rules.specs.Rules.{Asks, state};
ghost use Rattle.hm_large_book.specs.Judged.{terms_of, Judges, Holds};
ghost use Rattle.hm_large_book.specs.Reached.{IsBookOf, IsReached, Says};

use crate::blocks::BlockBook;
use crate::formed::is_formed;
use hm_base::NoMemory;
use hm_choice::Stream;
use hm_large_rules::{ARRAY_LENGTH, RING_LENGTH, STREAM};
use hm_model::{Call, Entry, Judgement};
use hm_quarantine::Quarantine;
use hm_sizes::{Config, LARGE_START};
use std::alloc::Global;

/// The state of the large region after some entries.
#[derive(Drop)]
pub struct LargeBook {
    pub(crate) alloc: Global,
    pub(crate) config: Config,
    pub(crate) seed: u64,
    pub(crate) blocks: BlockBook,
    pub(crate) quarantine: Quarantine,
    pub(crate) words: Stream,
    pub(crate) faults: u64,
}

impl LargeBook {
    /// The book of a region with no entries, of this seed.
    pub fn build(alloc: Global, config: &Config, seed: u64) -> Result<LargeBook, NoMemory>
        requires { IsValid config.now }
        ensures { IfOk result (IsBookOf config.now seed []) }
    {
        Ok(LargeBook {
            alloc,
            config: *config,
            seed,
            blocks: BlockBook::build(alloc, config)?,
            quarantine: Quarantine::build(alloc, ARRAY_LENGTH, RING_LENGTH)?,
            words: Stream::start(seed, STREAM),
            faults: 0,
        })
    }

    /// Where the region begins.
    pub fn first(&self) -> u64
        ensures { result ≡ large_start }
    {
        LARGE_START
    }

    /// The count of page faults of the last entry, 0 where there is none.
    pub fn faults(&self) -> u64
        ensures { (c : Config) (seed : ℕ) (es : List Entry) → IsBookOf c seed es self.now
            → result ≡ (state (terms_of c) es).faults }
    {
        self.faults
    }

    // What is said of an entry by its call and its reply.
    fn judge(&mut self, entry: &Entry) -> Result<Judgement, NoMemory>
        requires asks { Asks entry.now.call }
        requires stands { Holds self.old }
        ensures { IfOk result (Judges self.old entry.now entry.now.call entry.now.reply self.new) }
    {
        match &entry.call {
            Call::Allot { asked, align } => self.judge_allot(entry, *asked, *align),
            Call::GiveBack { addr, stated } => self.judge_free(entry, *addr, *stated),
            Call::Measure { addr } => Ok(self.judge_measure(entry, *addr)),
            Call::Fetch { addr, len } => Ok(self.judge_fetch(entry, *addr, *len)),
            Call::Fill { addr, runs } => Ok(self.judge_fill(entry, *addr, runs)),
        }
    }

    /// Judges an entry while it takes it. Once one was not taken, or memory lacked, nothing is said of further ones.
    pub fn take(&mut self, entry: &Entry) -> Result<Judgement, NoMemory>
        requires { IsReached self.old }
        ensures { IfOk result (λ j. (c : Config) (seed : ℕ) (es : List Entry) → IsBookOf c seed es self.old
            → Says c seed es entry.now self.new j) }
    {
        if !is_formed(entry, self.faults) {
            return Ok(Judgement::NotLegal);
        }
        let judgement = self.judge(entry)?;
        self.faults = entry.faults_after;
        Ok(judgement)
    }
}
