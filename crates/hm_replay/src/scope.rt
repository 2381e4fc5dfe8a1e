//! The names as one script of a round sees them: it reads those of the round in place, and keeps what it sets itself
//! beside them.
ghost use Rattle.std.specs.Prelude.{◌≡◌, IfOk};
ghost use Rattle.hm_replay.specs.Names.{Names, held, no_name, own_names, seen_in, with_all, with_own};

use crate::addresses::Addresses;
use crate::env::Env;
use crate::left::NameLeft;
use hm_base::NoMemory;
use hm_trace::Name;
use std::alloc::Global;
use std::collections::BTreeMap;
use std::marker::Model;

/// The names of a round, and over them those that the script has set or unset. The one that was set last is kept once
/// more, since most steps refer to the block that was given last.
#[derive(Drop)]
pub(crate) struct Scope<'e> {
    round: &'e Env,
    own: BTreeMap<Name, Option<u64>>,
    last: Option<NameLeft>,
}

impl<'e> Model for Scope<'e> {
    ghost use Rattle.hm_replay.specs.Names.{ScopeView};
    ghost use Rattle.hm_replay.specs.Rooms.{AreOwn};

    ghost Value = { ScopeView };

    ghost view = { λ s. (s.round.now, s.own.entries) };

    ghost invariant = { λ s. AreOwn s.own.entries s.last };
}

impl<'e> Scope<'e> {
    /// The names of the round as they are. It takes no memory.
    pub(crate) fn build(alloc: Global, round: &'e Env) -> Scope<'e>
        ensures names { seen_in result ≡ held round.now }
        ensures untouched { own_names result ≡ no_name }
    {
        Scope {
            round,
            own: BTreeMap::new(alloc),
            last: None,
        }
    }

    /// What the script leaves of the names that it has set or unset.
    pub(crate) fn left(&self, alloc: Global) -> Result<Vec<NameLeft>, NoMemory>
        ensures { IfOk result (λ left. (names : Names) → with_all names left.items ≡ with_own names self.now) }
    {
        let mut left = Vec::with_capacity(alloc, self.own.len())?;
        for (name, given) in &self.own {
            left.push_reserved(NameLeft {
                name: *name,
                address: *given,
            });
        }
        Ok(left)
    }
}

impl<'e> Addresses for Scope<'e> {
    ghost names = { λ s. seen_in s };

    ghost touched = { λ s. own_names s };

    fn get(&self, name: &Name) -> Option<u64> {
        match &self.last {
            Some(last) if last.name == *name => last.address,
            _ => match self.own.get(name).copied() {
                Some(given) => given,
                None => self.round.get(name),
            },
        }
    }

    fn set(&mut self, name: Name, given: Option<u64>) -> Result<(), NoMemory> {
        let _ = self.own.insert(name, given)?;
        self.last = Some(NameLeft {
            name,
            address: given,
        });
        Ok(())
    }
}
