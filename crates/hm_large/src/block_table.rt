//! The region's blocks by their addresses, and beside them the starts of the live ones in order: the block
//! that has an address is found in logarithmic time.
ghost use Rattle.std.specs.Prelude.{◌≡◌, ◌+◌, ◌≤◌, ℕ, false, IfOk, IsOk, OnOk, OnErr, IsSome, Some, None, is_some, if◌then◌else◌};
ghost use Rattle.std.specs.Ordering.{nat_cmp};
ghost use Rattle.std.specs.BTreeMap as tree;
ghost use Rattle.std.specs.FinMap as map;
ghost use Rattle.hm_large.specs.BlockTable.{Updates, CanAdd, Adds, FindsLast, live_size};

use hm_base::NoMemory;
use hm_region_table::{Block, RegionTable};
use std::alloc::Global;
use std::collections::BTreeMap;
use std::marker::Model;

/// Contracts see the table alone.
#[derive(Drop)]
pub struct BlockTable {
    table: RegionTable,
    /// The size of each live block, by its start.
    live: BTreeMap<u64, u64>,
}

impl Model for BlockTable {
    ghost use Rattle.hm_region_table.specs.Table.{Table, table_code};
    ghost use Rattle.hm_region_table.specs.contracts.entry.Block as block;
    ghost use Rattle.hm_large.specs.BlockTable.{AreLive};

    ghost Value = { Table };

    ghost coded = { table_code block.the_row.coded };

    ghost view = { λ t. t.table };

    ghost invariant = { λ t. AreLive t.table.blocks t.live };
}

// The last of these that begins at the address or below it.
fn last_begun(live: &BTreeMap<u64, u64>, addr: u64) -> Option<(u64, u64)>
    ensures { FindsLast (tree.get nat_cmp live.now) addr result }
{
    let (start, size) = live.range(..=addr).next_back()?;
    Some((*start, *size))
}

// Changes what the table has at a key that is there. It takes no memory.
fn exchange(table: &mut RegionTable, addr: u64, block: Block)
    requires { IsSome (map.get table.old.blocks addr) }
    ensures put { Updates table.old table.new addr (Some block) }
    ensures spare { table.new.spare ≡ table.old.spare }
{
    let _before = table.remove(addr);
    table.insert(addr, block);
}

impl BlockTable {
    /// A table with no blocks.
    pub fn build(alloc: Global) -> Result<BlockTable, NoMemory>
        ensures blocks { IfOk result (λ t. (a : ℕ) → map.get t.blocks a ≡ None) }
        ensures spare { IfOk result (λ t. t.spare ≡ 8) }
    {
        let table = RegionTable::build(alloc)?;
        Ok(BlockTable {
            table,
            live: BTreeMap::new(alloc),
        })
    }

    /// Makes room in the table for one more block.
    pub fn reserve_one(&mut self) -> Result<(), NoMemory>
        ensures blocks { self.new.blocks ≡ self.old.blocks }
        ensures room { OnOk result (1 ≤ self.new.spare) }
        ensures more { self.old.spare ≤ self.new.spare }
        ensures err { OnErr result (self.new ≡ self.old) }
        ensures enough { 1 ≤ self.old.spare → IsOk result }
    {
        self.table.reserve_one()
    }

    /// The block that begins at the address.
    pub fn get(&self, addr: u64) -> Option<Block>
        ensures { result ≡ map.get self.now.blocks addr }
    {
        self.table.get(addr)
    }

    /// Adds a live block where none begins. Where there is no memory for its start the table stays.
    pub fn insert(&mut self, addr: u64, block: Block) -> Result<(), NoMemory>
        requires { CanAdd self.old addr block }
        ensures ok { OnOk result (Adds self.old self.new addr block) }
        ensures err { OnErr result (self.new ≡ self.old) }
    {
        self.live.insert(addr, block.size)?;
        self.table.insert(addr, block);
        Ok(())
    }

    /// Changes what is kept of a block, which stays live and as large or goes into quarantine. It takes no
    /// memory.
    pub fn replace(&mut self, addr: u64, block: Block)
        requires there { IsSome (map.get self.old.blocks addr) }
        requires same { block.quarantined ≡ false → live_size (map.get self.old.blocks addr) ≡ Some block.size }
        ensures put { Updates self.old self.new addr (Some block) }
        ensures spare { self.new.spare ≡ self.old.spare }
    {
        exchange(&mut self.table, addr, block);
        if block.quarantined {
            let _size = self.live.remove(&addr);
        }
    }

    /// Takes out the block that begins at the address. It takes no memory.
    pub fn remove(&mut self, addr: u64) -> Option<Block>
        ensures value { result ≡ map.get self.old.blocks addr }
        ensures blocks { Updates self.old self.new addr None }
        ensures spare { self.new.spare ≡ (if is_some result then self.old.spare + 1 else self.old.spare) }
    {
        let _size = self.live.remove(&addr);
        self.table.remove(addr)
    }

    /// The last live block that begins at the address or below it, and its size.
    pub fn last_live(&self, addr: u64) -> Option<(u64, u64)>
        ensures { FindsLast (λ q. live_size (map.get self.now.blocks q)) addr result }
    {
        last_begun(&self.live, addr)
    }
}
