//! Entries that change live blocks and choose nothing: writing, and a free at which a page fault occurred.
ghost use Rattle.std.specs.Prelude.{length};
ghost use Rattle.hm_model.specs.Calls.{IsRange};
ghost use Rattle.hm_model.specs.Runs.{expand};
ghost use Rattle.hm_large_book.specs.Judged.{Judges};

use crate::blocks::is_accepted;
use crate::book::LargeBook;
use crate::bytes::write_live;
use crate::changes::mark_live;
use crate::judgement::{plain, rose};
use hm_model::{Call, Entry, Judgement, Reply, Runs};

impl LargeBook {
    /// A write of these bytes.
    pub(crate) fn filled(&mut self, entry: &Entry, addr: u64, runs: &Runs) -> Judgement
        requires { IsRange addr (length (expand runs.now)) }
        ensures { Judges self.old entry.now (Call.Fill addr runs.now) Reply.Filled self.new result }
    {
        plain(write_live(&mut self.blocks.live, addr, runs), entry)
    }

    /// A free at which a page fault occurred.
    pub(crate) fn free_fault(&mut self, entry: &Entry, addr: u64, stated: Option<u64>) -> Judgement
        ensures { Judges self.old entry.now (Call.GiveBack addr stated) Reply.PagesFailed self.new result }
    {
        let live = is_accepted(&self.blocks.live, addr, stated);
        let rose = rose(entry);
        mark_live(&mut self.blocks.live, addr);
        plain(live & rose, entry)
    }
}
