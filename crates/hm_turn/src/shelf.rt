//! The smallest value that a lock can keep: entries, and a number.
ghost use Rattle.std.specs.Prelude.{◌≡◌, [], ◌∷◌, ◌++◌, OnOk, OnErr};

use crate::Kept;
use hm_base::NoMemory;
use hm_model::Entry;
use std::alloc::Global;
use std::marker::Model;

/// Entries, and the number that is their origin.
#[derive(Drop)]
pub struct Shelf {
    number: u64,
    entries: Vec<Entry>,
}

impl Model for Shelf {
    ghost use Rattle.hm_turn.specs.Shelved.{Shelved};

    ghost Value = { Shelved };

    ghost view = { λ s. record { number = s.number; entries = s.entries.items } };
}

impl Kept for Shelf {
    ghost entries = { λ s. s.entries };

    ghost origin = { λ s. s.number ∷ [] };

    fn len(&self) -> u64 {
        self.entries.len() as u64
    }
}

impl Shelf {
    /// A shelf with no entry. It takes no memory.
    pub fn build(alloc: Global, number: u64) -> Shelf
        ensures { result ≡ record { number = number; entries = [] } }
    {
        Shelf {
            number,
            entries: Vec::new(alloc),
        }
    }

    /// Puts the entry behind the others.
    pub fn add(&mut self, entry: Entry) -> Result<(), NoMemory>
        ensures ok { OnOk result (self.new ≡ record self.old { entries = self.old.entries ++ entry ∷ [] }) }
        ensures err { OnErr result (self.new ≡ self.old) }
    {
        self.entries.push(entry)?;
        Ok(())
    }

    /// The entries, in the order in which they were added.
    pub fn entries(&self) -> &[Entry]
        ensures { result.now ≡ self.now.entries }
    {
        &self.entries
    }
}
