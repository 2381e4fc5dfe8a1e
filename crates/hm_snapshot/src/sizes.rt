//! One copy of the map of sizes.
ghost use Rattle.std.specs.Prelude.{◌≡◌, ◌+◌, ◌<◌, ◌^◌, [], MatchResult};
ghost use Rattle.hm_model.specs.declared.change.SizeChange.TheVariants.{Put, Gone};
ghost use Rattle.hm_model.specs.Changes.{size_at, total_of};
ghost use Rattle.hm_snapshot.specs.Shown.{absorbed};

use hm_base::NoMemory;
use hm_model::SizeChange;
use left_right::Absorb;
use std::alloc::{AllocError, Global};
use std::collections::BTreeMap;
use std::marker::Model;

/// The sizes by their addresses, their sum, and how many changes they have taken in.
#[derive(Drop)]
pub struct Sizes {
    map: BTreeMap<u64, u64>,
    total: u128,
    count: u64,
}

impl Model for Sizes {
    ghost use Rattle.std.specs.Prelude.{◌≡◌};
    ghost use Rattle.hm_model.specs.Changes.{total_of};
    ghost use Rattle.hm_snapshot.specs.Shown.{AreSmall};
    ghost use Rattle.hm_snapshot.specs.Shown.{Shown};

    ghost Value = { Shown };

    ghost view = { λ s. record { map = s.map.entries; count = s.count } };

    ghost invariant = { λ s. (s.total ≡ total_of s.map.entries) × AreSmall s.map.entries };
}

impl Sizes {
    /// No change is in.
    pub fn empty(alloc: Global) -> Sizes
        ensures { result ≡ record { map = []; count = 0 } }
    {
        Sizes {
            map: BTreeMap::new(alloc),
            total: 0,
            count: 0,
        }
    }

    /// The size at an address.
    pub fn size(&self, addr: u64) -> Option<u64>
        ensures { result ≡ size_at self.now.map addr }
    {
        self.map.get(&addr).copied()
    }

    /// The sum of the sizes.
    pub fn total(&self) -> u128
        ensures { result ≡ total_of self.now.map }
    {
        self.total
    }

    /// Takes in one change. All is as before where memory is wanting, or 2^64 - 1 changes are in.
    pub fn take_in(&mut self, change: SizeChange) -> Result<(), NoMemory>
        ensures { MatchResult result (λ _. self.new ≡ absorbed self.old change) (λ _. self.new ≡ self.old) }
    {
        if self.count == u64::MAX {
            return Err(NoMemory);
        }
        match change {
            SizeChange::Put { addr, size } => self.put(addr, size),
            SizeChange::Gone { addr } => {
                self.take(addr);
                Ok(())
            }
        }
    }

    fn put(&mut self, addr: u64, size: u64) -> Result<(), NoMemory>
        requires { self.old.count + 1 < 2 ^ 64 }
        ensures { MatchResult result (λ _. self.new ≡ absorbed self.old (Put addr size)) (λ _. self.new ≡ self.old) }
    {
        let _ordered = self.map.len();
        let Ok(old) = self.map.insert(addr, size) else {
            return Err(NoMemory);
        };
        self.total = self.total + u128::from(size) - u128::from(old.unwrap_or(0));
        self.count += 1;
        Ok(())
    }

    fn take(&mut self, addr: u64)
        requires { self.old.count + 1 < 2 ^ 64 }
        ensures { self.new ≡ absorbed self.old (Gone addr) }
    {
        let old = self.map.remove(&addr);
        self.total -= u128::from(old.unwrap_or(0));
        self.count += 1;
    }
}

impl Absorb<SizeChange> for Sizes {
    type State = Sizes;

    ghost state = { λ s. s };

    ghost applied = { absorbed };

    fn absorb_first(&mut self, operation: &SizeChange, _other: &Sizes) -> Result<(), AllocError> {
        match self.take_in(*operation) {
            Ok(()) => Ok(()),
            Err(NoMemory) => Err(AllocError),
        }
    }
}
