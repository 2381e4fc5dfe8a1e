//! What is said of an entry of each call, by its reply.
ghost use Rattle.std.specs.Prelude.{◌≤◌, ◌^◌, IfOk, length};
ghost use Rattle.hm_model.specs.Calls.{IsRange};
ghost use Rattle.hm_model.specs.Runs.{expand};
ghost use Rattle.hm_large_book.specs.Judged.{Judges, Holds};

use crate::book::LargeBook;
use hm_base::NoMemory;
use hm_model::{Call, Entry, Judgement, Reply, Runs};

impl LargeBook {
    pub(crate) fn judge_allot(
        &mut self,
        entry: &Entry,
        asked: u64,
        align: u64,
    ) -> Result<Judgement, NoMemory>
        requires asked { asked ≤ 2 ^ 30 }
        requires stands { Holds self.old }
        ensures { IfOk result (Judges self.old entry.now (Call.Allot asked align) entry.now.reply self.new) }
    {
        match &entry.reply {
            Reply::Given { addr, usable } => self.given(entry, asked, align, *addr, *usable),
            Reply::NoSpace => Ok(self.no_space(entry, asked, align)),
            Reply::PagesFailed => Ok(self.allot_fault(entry, asked, align)),
            _ => Ok(Judgement::NotLegal),
        }
    }

    pub(crate) fn judge_free(
        &mut self,
        entry: &Entry,
        addr: u64,
        stated: Option<u64>,
    ) -> Result<Judgement, NoMemory>
        requires stands { Holds self.old }
        ensures { IfOk result (Judges self.old entry.now (Call.GiveBack addr stated) entry.now.reply self.new) }
    {
        match &entry.reply {
            Reply::NotLive => Ok(self.freed_none(entry, addr, stated)),
            Reply::WrongSize {
                block,
                stated: other,
            } => { Ok(self.freed_wrong(entry, addr, stated, *block, *other)) }
            Reply::PagesFailed => Ok(self.free_fault(entry, addr, stated)),
            Reply::Freed => self.freed(entry, addr, stated),
            _ => Ok(Judgement::NotLegal),
        }
    }

    pub(crate) fn judge_measure(&mut self, entry: &Entry, addr: u64) -> Judgement
        ensures { Judges self.old entry.now (Call.Measure addr) entry.now.reply self.new result }
    {
        match &entry.reply {
            Reply::NotLive => self.measured_none(entry, addr),
            Reply::Usable(size) => self.measured(entry, addr, *size),
            _ => Judgement::NotLegal,
        }
    }

    pub(crate) fn judge_fetch(&mut self, entry: &Entry, addr: u64, len: u64) -> Judgement
        requires { IsRange addr len }
        ensures { Judges self.old entry.now (Call.Fetch addr len) entry.now.reply self.new result }
    {
        match &entry.reply {
            Reply::Bytes(runs) => self.fetched(entry, addr, len, runs),
            Reply::Trap { addr: trap } => self.fetch_trapped(entry, addr, len, *trap),
            _ => Judgement::NotLegal,
        }
    }

    pub(crate) fn judge_fill(&mut self, entry: &Entry, addr: u64, runs: &Runs) -> Judgement
        requires { IsRange addr (length (expand runs.now)) }
        ensures { Judges self.old entry.now (Call.Fill addr runs.now) entry.now.reply self.new result }
    {
        match &entry.reply {
            Reply::Filled => self.filled(entry, addr, runs),
            Reply::Trap { addr: trap } => self.fill_trapped(entry, addr, runs, *trap),
            _ => Judgement::NotLegal,
        }
    }
}
