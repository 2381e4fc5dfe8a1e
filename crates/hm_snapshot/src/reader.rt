//! The reader.
ghost use Rattle.std.specs.Prelude.{◌≡◌, MatchResult};
ghost use Rattle.hm_model.specs.Changes.{sizes, size_at, total_of};
ghost use Rattle.hm_snapshot.specs.Rule.{StartsWith};
ghost use Rattle.hm_snapshot.specs.Known.{HasRisen};

use crate::Sizes;
use crate::entries::Entries;
use crate::rule::{Known, OnlyGrows};
use core::mem::replace_with;
use left_right::reader::Reader;
use std::marker::Model;

/// Reads the sizes as some published list of changes makes them.
#[derive(Drop)]
pub struct SizeReader {
    pub(crate) reader: Reader<Sizes, Known, OnlyGrows>,
    pub(crate) entries: Entries,
}

impl Model for SizeReader {
    ghost use Rattle.left_right.specs.Sides.{view as view_of};
    ghost use Rattle.hm_snapshot.specs.Known.{Seen};

    ghost Value = { Seen };

    ghost view = { λ r. record { read = view_of r.reader.place; faults = r.entries } };
}

/// The entry was refused.
#[derive(Clone, Copy, Debug, PartialEq, Eq)]
pub struct Unread;

impl SizeReader {
    /// How many entries were refused.
    pub fn faults(&self) -> u64
        ensures { result ≡ self.now.faults }
    {
        self.entries.refused()
    }

    /// The size at an address.
    pub fn size(&mut self, addr: u64) -> Result<Option<u64>, Unread>
        ensures { MatchResult result
            (λ size. StartsWith self.new.read self.old.read × (self.new.faults ≡ self.old.faults)
            × (size ≡ size_at (sizes self.new.read) addr))
            (λ _. (self.new.read ≡ self.old.read) × HasRisen self.old.faults self.new.faults) }
    {
        replace_with(
            self,
            addr,
            |reader, addr|
                ensures { MatchResult result.1
                    (λ size. StartsWith result.0.read reader.read × (result.0.faults ≡ reader.faults)
                    × (size ≡ size_at (sizes result.0.read) addr))
                    (λ _. (result.0.read ≡ reader.read) × HasRisen reader.faults result.0.faults) }
            { reader.find(addr) },
        )
    }

    fn find(self, addr: u64) -> (SizeReader, Result<Option<u64>, Unread>)
        ensures { MatchResult result.1
            (λ size. StartsWith result.0.read self.read × (result.0.faults ≡ self.faults)
            × (size ≡ size_at (sizes result.0.read) addr))
            (λ _. (result.0.read ≡ self.read) × HasRisen self.faults result.0.faults) }
    {
        let SizeReader {
            reader,
            mut entries,
        } = self;
        match entries.enter(reader) {
            Ok(reading) => {
                let size = reading.get().size(addr);
                let reader = reading.leave();
                (SizeReader { reader, entries }, Ok(size))
            }
            Err(reader) => (SizeReader { reader, entries }, Err(Unread)),
        }
    }

    /// The sum of the sizes.
    pub fn total(&mut self) -> Result<u128, Unread>
        ensures { MatchResult result
            (λ total. StartsWith self.new.read self.old.read × (self.new.faults ≡ self.old.faults)
            × (total ≡ total_of (sizes self.new.read)))
            (λ _. (self.new.read ≡ self.old.read) × HasRisen self.old.faults self.new.faults) }
    {
        replace_with(
            self,
            (),
            |reader, _|
                ensures { MatchResult result.1
                    (λ total. StartsWith result.0.read reader.read × (result.0.faults ≡ reader.faults)
                    × (total ≡ total_of (sizes result.0.read)))
                    (λ _. (result.0.read ≡ reader.read) × HasRisen reader.faults result.0.faults) }
            { reader.sum() },
        )
    }

    fn sum(self) -> (SizeReader, Result<u128, Unread>)
        ensures { MatchResult result.1
            (λ total. StartsWith result.0.read self.read × (result.0.faults ≡ self.faults)
            × (total ≡ total_of (sizes result.0.read)))
            (λ _. (result.0.read ≡ self.read) × HasRisen self.faults result.0.faults) }
    {
        let SizeReader {
            reader,
            mut entries,
        } = self;
        match entries.enter(reader) {
            Ok(reading) => {
                let total = reading.get().total();
                let reader = reading.leave();
                (SizeReader { reader, entries }, Ok(total))
            }
            Err(reader) => (SizeReader { reader, entries }, Err(Unread)),
        }
    }
}
