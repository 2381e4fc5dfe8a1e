//! The addresses that names hold from round to round.
ghost use Rattle.std.specs.Prelude.{◌≡◌, OnOk, OnErr};
ghost use Rattle.hm_replay.specs.Names.{no_names, held, any_name, with_lists};

use crate::addresses::Addresses;
use crate::left::NameLeft;
use crate::rooms::{put_lists, take_all_rooms};
use hm_base::NoMemory;
use hm_trace::Name;
use std::alloc::Global;
use std::collections::BTreeMap;
use std::marker::Model;

/// The names that are set, each with its address. A name that is unset may keep its room.
#[derive(Drop)]
pub struct Env {
    addresses: BTreeMap<Name, Option<u64>>,
}

impl Model for Env {
    ghost use Rattle.std.specs.Prelude.{ℕ, List};
    ghost use Rattle.hm_trace.specs.declared.names.Name.{Name};
    ghost use Rattle.hm_replay.specs.Rooms.{set_in, AreRooms};

    ghost Value = { List (Name × ℕ) };

    ghost view = { λ e. set_in e.addresses.entries };

    ghost invariant = { λ e. AreRooms e.addresses.entries };
}

impl Env {
    /// No name is set.
    pub fn build(alloc: Global) -> Env
        ensures { held result ≡ no_names }
    {
        Env {
            addresses: BTreeMap::new(alloc),
        }
    }

    /// Sets the names of all these lists in turn or, for want of memory, none. Only names that were never set before take
    /// memory.
    pub(crate) fn set_all(&mut self, lists: &[Vec<NameLeft>]) -> Result<(), NoMemory>
        ensures value { OnOk result (held self.new ≡ with_lists (held self.old) lists.now) }
        ensures memory { OnErr result (self.new ≡ self.old) }
    {
        take_all_rooms(&mut self.addresses, lists)?;
        put_lists(&mut self.addresses, lists);
        Ok(())
    }
}

impl Addresses for Env {
    ghost names = { λ e. held e };

    ghost touched = { λ e. any_name };

    fn get(&self, name: &Name) -> Option<u64> {
        self.addresses.get(name).copied().flatten()
    }

    fn set(&mut self, name: Name, given: Option<u64>) -> Result<(), NoMemory> {
        let _ = self.addresses.insert(name, given)?;
        Ok(())
    }
}
