//! The table: its cells, at most half of which are in use.
ghost use Rattle.std.specs.Prelude.{◌≡◌, ◌+◌, ◌<◌, ◌≤◌, length, replicate, None, IfOk, IsOk, OnOk, OnErr, is_some, if◌then◌else◌};
ghost use Rattle.std.specs.FinMap as map;
ghost use Rattle.hm_region_table.specs.Cells.{IsKept, entries_of};
ghost use Rattle.hm_region_table.specs.Table.{blocks_of};

use crate::closing::take_out;
use crate::entry::{Block, Entry};
use crate::probe::{cell_for, find};
use hm_base::NoMemory;
use std::alloc::Global;
use std::marker::Model;

/// Contracts see it as a finite map, the number of further entries for which it has room, and that of all.
#[derive(Drop)]
pub struct RegionTable {
    alloc: Global,
    cells: Vec<Option<Entry>>,
    used: usize,
}

impl Model for RegionTable {
    ghost use Rattle.std.specs.Prelude.{◌-◌, ◌/◌, length};
    ghost use Rattle.hm_region_table.specs.Table.{Table, IsTable, blocks_of, table_code};
    ghost use Rattle.hm_region_table.specs.contracts.entry.Block as block;

    ghost Value = { Table };

    ghost coded = { table_code block.the_row.coded };

    ghost view = { λ t. record {
      blocks = blocks_of t.cells.items;
      spare = length t.cells.items / 2 - t.used;
      capacity = length t.cells.items / 2;
    } };

    ghost invariant = { λ t. IsTable t.cells.items t.used };
}

// So many empty cells.
fn empty_cells(alloc: Global, count: usize) -> Result<Vec<Option<Entry>>, NoMemory>
    ensures { IfOk result (λ v. v.items ≡ replicate count None) }
{
    let cells = vec![in alloc; None; count]?;
    Ok(cells)
}

// Puts the entries of the first cells into the others, of which there are more and all empty.
fn spread(from: &[Option<Entry>], into: &mut [Option<Entry>])
    requires kept { IsKept from.now }
    requires more { length from.now < length into.old }
    requires empty { into.old ≡ replicate (length into.old) None }
    ensures kept { IsKept into.new }
    ensures len { length into.new ≡ length into.old }
    ensures told { blocks_of into.new ≡ blocks_of from.now }
    ensures count { length (entries_of into.new) ≡ length (entries_of from.now) }
{
    let mut i = from.len();
    while i > 0 {
        i -= 1;
        if let Some(entry) = from[i] {
            let index = cell_for(into, entry.addr);
            into[index] = Some(entry);
        }
    }
}

impl RegionTable {
    /// An empty table.
    pub fn build(alloc: Global) -> Result<RegionTable, NoMemory>
        ensures blocks { IfOk result (λ t. t.blocks ≡ map.empty) }
        ensures spare { IfOk result (λ t. t.spare ≡ 8) }
        ensures capacity { IfOk result (λ t. t.capacity ≡ 8) }
    {
        let cells = empty_cells(alloc, 16)?;
        Ok(RegionTable {
            alloc,
            cells,
            used: 0,
        })
    }

    /// Makes room for one more entry, by twice as many cells where half of them are in use: so all entries move once
    /// for as many insertions as there are of them.
    pub fn reserve_one(&mut self) -> Result<(), NoMemory>
        ensures blocks { self.new.blocks ≡ self.old.blocks }
        ensures room { OnOk result (1 ≤ self.new.spare) }
        ensures more { self.old.spare ≤ self.new.spare }
        ensures err { OnErr result (self.new ≡ self.old) }
        ensures enough { 1 ≤ self.old.spare → IsOk result }
        ensures same { 1 ≤ self.old.spare → self.new ≡ self.old }
        ensures doubled { self.old.spare ≡ 0 → OnOk result (self.old.capacity ≤ self.new.spare) }
    {
        let count = self.cells.len();
        if self.used < count / 2 {
            return Ok(());
        }
        let Some(twice) = count.checked_mul(2) else {
            return Err(NoMemory);
        };
        let mut cells = empty_cells(self.alloc, twice)?;
        spread(&self.cells, &mut cells);
        self.cells = cells;
        Ok(())
    }

    /// Adds a block at a key that is not there. It takes no memory.
    pub fn insert(&mut self, addr: u64, block: Block)
        requires fresh { map.get self.old.blocks addr ≡ None }
        requires room { 1 ≤ self.old.spare }
        ensures blocks { self.new.blocks ≡ map.insert self.old.blocks addr block }
        ensures spare { self.new.spare + 1 ≡ self.old.spare }
        ensures capacity { self.new.capacity ≡ self.old.capacity }
    {
        let index = cell_for(&self.cells, addr);
        self.cells[index] = Some(Entry { addr, block });
        self.used += 1;
    }

    /// The block at the key.
    pub fn get(&self, addr: u64) -> Option<Block>
        ensures { result ≡ map.get self.now.blocks addr }
    {
        let index = find(&self.cells, addr)?;
        let entry = self.cells[index]?;
        Some(entry.block)
    }

    /// Takes out the block at the key. It takes no memory.
    pub fn remove(&mut self, addr: u64) -> Option<Block>
        ensures value { result ≡ map.get self.old.blocks addr }
        ensures blocks { self.new.blocks ≡ map.remove self.old.blocks addr }
        ensures spare { self.new.spare ≡ (if is_some result then self.old.spare + 1 else self.old.spare) }
        ensures capacity { self.new.capacity ≡ self.old.capacity }
    {
        let index = find(&self.cells, addr)?;
        let entry = self.cells[index]?;
        take_out(&mut self.cells, index);
        self.used -= 1;
        Some(entry.block)
    }
}
