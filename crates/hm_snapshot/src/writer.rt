//! The writer.
ghost use Rattle.std.specs.Prelude.{◌≡◌, ◌-◌, ◌<◌, ℕ, [], ◌∷◌, ◌++◌, length, take, IfOk, IsErrOf, MatchResult};
ghost use Rattle.hm_model.specs.declared.change.SizeChange.{SizeChange};
ghost use Rattle.hm_snapshot.specs.declared.writer.ReaderRefusal.{ReaderRefusal};

use crate::entries::Entries;
use crate::rule::{Adding, Adds, Hears, Known, OnlyGrows, Tells};
use crate::{SizeReader, Sizes};
use core::mem::replace_with;
use hm_base::NoMemory;
use hm_model::SizeChange;
use left_right::writer::Writer;
use std::alloc::Global;
use std::marker::{Brand, Model};
use std::sync::Wait;

/// Publishes changes. It is not `Drop`: end it by `end`.
pub struct SizeWriter {
    writer: Writer<Sizes, SizeChange, Known, OnlyGrows>,
    waiting: u64,
    unused: u32,
}

/// Why no reader was made.
#[derive(Clone, Copy, Debug, PartialEq, Eq)]
pub enum ReaderRefusal {
    /// There was no memory.
    NoMemory,
    /// Each place has had a reader, and none was found free again.
    NoPlace,
}

impl Model for SizeWriter {
    ghost use Rattle.std.specs.Prelude.{◌≡◌, drop, length};
    ghost use Rattle.left_right.specs.Sides.{view as view_of};
    ghost use Rattle.hm_snapshot.specs.Known.{Published};
    ghost use Rattle.hm_snapshot.specs.Shown.{shown_after};

    ghost Value = { Published };

    ghost view = { λ w. record {
      list = view_of w.writer.desk.place;
      waiting = drop w.writer.behind w.writer.log.items;
      unused = w.unused;
    } };

    ghost invariant = { λ w. (w.writer.desk.shown.value ≡ shown_after (view_of w.writer.desk.place))
        × (w.waiting ≡ length (drop w.writer.behind w.writer.log.items)) };
}

impl SizeWriter {
    /// A writer with room for so many readers. Nothing is published.
    pub fn build(alloc: Global, readers: u32) -> Result<SizeWriter, NoMemory>
        requires { 0 < readers }
        ensures { IfOk result (λ w. w ≡ record { list = []; waiting = []; unused = readers }) }
    {
        let writer = Writer::new(
            alloc,
            Sizes::empty(alloc),
            Sizes::empty(alloc),
            readers as usize,
        )?;
        Ok(SizeWriter {
            writer,
            waiting: 0,
            unused: readers,
        })
    }

    /// How many changes wait.
    pub fn waiting(&self) -> u64
        ensures { result ≡ length self.now.waiting }
    {
        self.waiting
    }

    /// A reader that knows what is published.
    pub fn reader(&mut self) -> Result<SizeReader, ReaderRefusal>
        ensures kept { MatchResult result
            (λ _. self.new ≡ record self.old { unused = self.old.unused - 1 })
            (λ _. self.new ≡ self.old) }
        ensures knows { IfOk result (λ r. r ≡ record { read = self.old.list; faults = 0 }) }
        ensures taken { IsErrOf result ReaderRefusal.NoPlace → self.old.unused ≡ 0 }
    {
        let mut reader = match self.writer.factory().reader() {
            Ok(reader) => reader,
            Err(_) if self.unused > 0 => return Err(ReaderRefusal::NoMemory),
            Err(_) => return Err(ReaderRefusal::NoPlace),
        };
        reader.learn::<Hears>(self.writer.tell::<Tells>());
        self.unused = self.unused.saturating_sub(1);
        Ok(SizeReader {
            reader,
            entries: Entries::none(),
        })
    }

    /// Publishes the changes that wait, and then these.
    pub fn publish<R: Wait>(&mut self, rt: &R, list: &[SizeChange]) -> Result<(), NoMemory>
        ensures { MatchResult result
            (λ _. self.new ≡ record self.old { list = self.old.list ++ (self.old.waiting ++ list.now); waiting = [] })
            (λ _. (n : ℕ) × (self.new ≡ record self.old { waiting = self.old.waiting ++ take n list.now })) }
    {
        for change in list {
            self.wait(*change)?;
        }
        replace_with(self, rt, |writer, rt| writer.show(rt))
    }

    /// A change is to wait.
    fn wait(&mut self, change: SizeChange) -> Result<(), NoMemory>
        ensures { MatchResult result
            (λ _. self.new ≡ record self.old { waiting = self.old.waiting ++ change ∷ [] })
            (λ _. self.new ≡ self.old) }
    {
        if self.waiting == u64::MAX {
            return Err(NoMemory);
        }
        match self.writer.append(change) {
            Ok(()) => {
                self.waiting += 1;
                Ok(())
            }
            Err(_) => Err(NoMemory),
        }
    }

    fn show<R: Wait>(self, rt: &R) -> (SizeWriter, Result<(), NoMemory>)
        ensures { MatchResult result.1
            (λ _. result.0 ≡ record self { list = self.list ++ self.waiting; waiting = [] })
            (λ _. result.0 ≡ self) }
    {
        self.show_these::<Brand, R>(rt)
    }

    fn show_these<N: Adding, R: Wait>(self, rt: &R) -> (SizeWriter, Result<(), NoMemory>)
        requires named { self.waiting ≡ N.added }
        ensures { MatchResult result.1
            (λ _. result.0 ≡ record self { list = self.list ++ self.waiting; waiting = [] })
            (λ _. result.0 ≡ self) }
    {
        let SizeWriter {
            writer,
            waiting,
            unused,
        } = self;
        let (writer, done) = writer.publish_as::<Adds<N>, R>(rt);
        let (waiting, done) = match done {
            Ok(()) => (0, Ok(())),
            Err(_) => (waiting, Err(NoMemory)),
        };
        let writer = SizeWriter {
            writer,
            waiting,
            unused,
        };
        (writer, done)
    }

    /// Ends the writer. It waits for the readers that are reading.
    pub fn end<R: Wait>(self, rt: &R) {
        let SizeWriter {
            writer,
            waiting: _,
            unused: _,
        } = self;
        drop(writer.take(rt));
    }
}
