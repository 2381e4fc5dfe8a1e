//! Entries that change no block: measuring and reading, and what is refused.
ghost use Rattle.std.specs.Prelude.{length};
ghost use Rattle.hm_model.specs.Calls.{IsRange};
ghost use Rattle.hm_model.specs.Runs.{expand};
ghost use Rattle.hm_large_book.specs.Judged.{Judges};

use crate::blocks::{is_live, is_size, is_wrong};
use crate::book::LargeBook;
use crate::bytes::{has_bytes, traps_at};
use crate::judgement::plain;
use hm_model::{Call, Entry, Judgement, Reply, Runs};

impl LargeBook {
    /// A measurement of no live block.
    pub(crate) fn measured_none(&self, entry: &Entry, addr: u64) -> Judgement
        ensures { Judges self.now entry.now (Call.Measure addr) Reply.NotLive self.now result }
    {
        plain(!is_live(&self.blocks.live, addr), entry)
    }

    /// A measurement of a block of this size.
    pub(crate) fn measured(&self, entry: &Entry, addr: u64, size: u64) -> Judgement
        ensures { Judges self.now entry.now (Call.Measure addr) (Reply.Usable size) self.now result }
    {
        plain(is_size(&self.blocks.live, addr, size), entry)
    }

    /// A free of no live block.
    pub(crate) fn freed_none(&self, entry: &Entry, addr: u64, stated: Option<u64>) -> Judgement
        ensures { Judges self.now entry.now (Call.GiveBack addr stated) Reply.NotLive self.now result }
    {
        plain(!is_live(&self.blocks.live, addr), entry)
    }

    /// A free with the wrong size: the block's, and that of the stated size.
    pub(crate) fn freed_wrong(
        &self,
        entry: &Entry,
        addr: u64,
        stated: Option<u64>,
        block: u64,
        other: u64,
    ) -> Judgement
        ensures { Judges self.now entry.now (Call.GiveBack addr stated) (Reply.WrongSize block other) self.now result }
    {
        plain(
            is_wrong(&self.blocks.live, addr, stated, block, other),
            entry,
        )
    }

    /// A read of these bytes.
    pub(crate) fn fetched(&self, entry: &Entry, addr: u64, len: u64, runs: &Runs) -> Judgement
        requires { IsRange addr len }
        ensures { Judges self.now entry.now (Call.Fetch addr len) (Reply.Bytes runs.now) self.now result }
    {
        plain(has_bytes(&self.blocks.live, addr, len, runs), entry)
    }

    /// A read that traps at this address.
    pub(crate) fn fetch_trapped(&self, entry: &Entry, addr: u64, len: u64, trap: u64) -> Judgement
        requires { IsRange addr len }
        ensures { Judges self.now entry.now (Call.Fetch addr len) (Reply.Trap trap) self.now result }
    {
        plain(traps_at(&self.blocks.live, addr, len, trap), entry)
    }

    /// A write that traps at this address.
    pub(crate) fn fill_trapped(&self, entry: &Entry, addr: u64, runs: &Runs, trap: u64) -> Judgement
        requires { IsRange addr (length (expand runs.now)) }
        ensures { Judges self.now entry.now (Call.Fill addr runs.now) (Reply.Trap trap) self.now result }
    {
        plain(traps_at(&self.blocks.live, addr, runs.len(), trap), entry)
    }
}
