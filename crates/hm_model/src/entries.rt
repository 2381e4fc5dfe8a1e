//! A region's history: with room for the entries to come, and once it is closed. What the types of an entry promise is
//! said of each entry as it is added, and stays known.
ghost use Rattle.std.specs.Prelude.{◌≡◌, ◌+◌, ◌≤◌, ◌++◌, ◌∷◌, [], length, IsOk, OnOk, OnErr};
ghost use Rattle.std.specs.List.{All};
ghost use Rattle.hm_model.specs.Typed.{IsTyped, HoldsTyped};

use crate::Entry;
use hm_base::NoMemory;
use std::alloc::Global;
use std::marker::Model;

/// Entries, oldest first, with room for more.
#[derive(Debug, Drop)]
pub struct Entries {
    items: Vec<Entry>,
}

impl Model for Entries {
    ghost use Rattle.std.specs.Prelude.{◌-◌};
    ghost use Rattle.hm_model.specs.Entries.{Entries};
    ghost use Rattle.hm_model.specs.Typed.{HoldsTyped};

    ghost Value = { Entries };

    ghost view = { λ e. record { entries = e.items.items; spare = e.items.cap - e.items.len } };

    ghost invariant = { λ e. HoldsTyped e.items.items (e.items.cap - e.items.len) };
}

/// The entries of a history that is closed, oldest first.
#[derive(Debug, Drop)]
pub struct EntryList {
    items: Vec<Entry>,
}

impl Model for EntryList {
    ghost use Rattle.std.specs.Prelude.{List};
    ghost use Rattle.std.specs.List.{All};
    ghost use Rattle.hm_model.specs.declared.entry.Entry.{Entry};
    ghost use Rattle.hm_model.specs.Typed.{IsTyped};

    ghost Value = { List Entry };

    ghost view = { λ l. l.items.items };

    ghost invariant = { λ l. All IsTyped l.items.items };
}

impl EntryList {
    /// The entries, in order.
    pub fn items(&self) -> &[Entry]
        ensures { result.now ≡ self.now }
    {
        &self.items
    }

    /// What the types of each entry promise. It does nothing.
    pub fn typed(&self)
        ensures { All IsTyped self.now }
    {
        let _ = &self.items;
    }
}

impl Entries {
    /// No entry, and no room. It takes no memory.
    pub fn new(alloc: Global) -> Entries
        ensures entries { result.entries ≡ [] }
        ensures holds { HoldsTyped result.entries result.spare }
    {
        Entries {
            items: Vec::new(alloc),
        }
    }

    /// Makes room for so many more.
    pub fn reserve(&mut self, more: usize) -> Result<(), NoMemory>
        ensures entries { self.new.entries ≡ self.old.entries }
        ensures kept { self.old.spare ≤ self.new.spare }
        ensures room { OnOk result (more ≤ self.new.spare) }
        ensures enough { more ≤ self.old.spare → IsOk result }
        ensures unchanged { OnErr result (self.new ≡ self.old) }
        ensures holds { HoldsTyped self.new.entries self.new.spare }
    {
        self.items.reserve(more)?;
        Ok(())
    }

    /// Adds an entry, for which there is room. It takes no memory.
    pub fn push_reserved(&mut self, entry: Entry)
        requires room { 1 ≤ self.old.spare }
        ensures added { self.new.entries ≡ self.old.entries ++ entry ∷ [] }
        ensures spare { self.new.spare + 1 ≡ self.old.spare }
        ensures holds { HoldsTyped self.new.entries self.new.spare }
    {
        entry.typed();
        self.items.push_reserved(entry);
    }

    /// How many entries there are.
    pub fn len(&self) -> usize
        ensures { result ≡ length self.now.entries }
    {
        self.items.len()
    }

    /// For how many more there is room.
    pub fn spare(&self) -> usize
        ensures { result ≡ self.now.spare }
    {
        self.items.capacity() - self.items.len()
    }

    /// The entries, in order.
    pub fn items(&self) -> &[Entry]
        ensures { result.now ≡ self.now.entries }
    {
        &self.items
    }

    /// The history, closed. It takes no memory.
    pub fn into_list(self) -> EntryList
        ensures { result ≡ self.entries }
    {
        let Entries { items } = self;
        EntryList { items }
    }

    /// What the types of each entry promise. It does nothing.
    pub fn typed(&self)
        ensures { HoldsTyped self.now.entries self.now.spare }
    {
        let _ = &self.items;
    }
}
