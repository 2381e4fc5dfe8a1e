//! Allotting a large block: its guard is drawn, the lowest address that fits is found, and its pages are made
//! accessible.
ghost use Rattle.std.specs.Prelude.{◌≡◌, ◌+◌, ◌^◌, ◌<◌, ◌≤◌, ℕ, IfOk, OnOk, OnErr};
ghost use Rattle.hm_choice.specs.Stream.{next_word, after_word};
ghost use Rattle.hm_outside.specs.Causes.{HasRefusalCause};
ghost use Rattle.hm_model.specs.declared.entry.Call.TheVariants.{Allot};
ghost use Rattle.hm_sizes.specs.Laws.{IsLargeSize};
ghost use Rattle.hm_sizes.specs.Sizes.{raised as spec_raised};
ghost use Rattle.hm_sizes.specs.declared.config.Config.{Config};
ghost use Rattle.hm_large_rules.specs.State.{size_for, State};
ghost use Rattle.hm_large_rules.specs.Draws.{guard_of};
ghost use Rattle.hm_large.specs.BlockTable.{CanAdd};
ghost use Rattle.hm_large_rules.specs.Rules.{Asks};
ghost use Rattle.hm_large.specs.Kept.{Shows};
ghost use Rattle.hm_large.specs.Gives.{SameStore, CanOpen, Opens, StaysShut, IsFreeFor, TakesOut, Allots, Declines, Stands};

use crate::block_table::BlockTable;
use crate::store::{Store, span};
use hm_base::NoMemory;
use hm_model::Reply;
use hm_outside::{PageRefusal, Pages};
use hm_region_table::Block as KeptBlock;
use hm_sizes::{PAGE, large_size, raised};

/// The word that was drawn, the pages of the guard, and the reply.
#[derive(Debug, Drop)]
pub struct Attempt {
    pub word: u32,
    pub guard: u64,
    pub reply: Reply,
}

/// The size of the block for a request.
pub fn size_of_block(asked: u64) -> u64
    requires { asked ≤ 2 ^ 30 }
    ensures value { result ≡ size_for asked }
    ensures fits { IsLargeSize (spec_raised asked) result }
{
    large_size(raised(asked))
}

// Makes room for one more block and its range.
fn reserve(store: &mut Store) -> Result<(), NoMemory>
    ensures same { SameStore store.old store.new }
    ensures words { store.new.words ≡ store.old.words }
    ensures ranges { OnOk result (store.new.space.out + 2 ≤ store.new.space.spare) }
    ensures block { OnOk result (1 ≤ store.new.blocks.spare) }
{
    store.space.reserve_two()?;
    store.blocks.reserve_one()
}

// Draws the pages of a guard.
fn draw_guard(store: &mut Store, size: u64) -> (u32, u64)
    requires { size ≤ 2 ^ 30 }
    ensures word { result.0 ≡ next_word store.old.words }
    ensures guard { result.1 ≡ guard_of size result.0 }
    ensures most { result.1 ≤ 131072 }
    ensures store { store.new ≡ record store.old { words = after_word store.old.words } }
{
    let most = (size / (2 * PAGE)).max(1);
    let (word, more) = store.words.draw(most as u32);
    (word, 1 + u64::from(more))
}

// Puts a block into the table and makes its pages accessible. Where that fails the table stays as it was.
fn open<P: Pages>(
    blocks: &mut BlockTable,
    pages: &mut P,
    addr: u64,
    block: KeptBlock,
) -> Result<(), PageRefusal>
    requires block { CanAdd blocks.old addr block }
    requires pages { CanOpen (P.told pages.old) (P.runs pages.old) addr block.size }
    ensures ok { OnOk result (Opens P.Pages blocks.old blocks.new addr block pages.old pages.new) }
    ensures err { OnErr result (StaysShut P.Pages blocks.old blocks.new pages.old pages.new) }
    ensures told { P.told pages.new ≡ P.told pages.old }
    ensures owner { P.owner pages.new ≡ P.owner pages.old }
    ensures cause { HasRefusalCause (P.faults pages.old) (P.faults pages.new) result }
{
    blocks.insert(addr, block)?;
    let opened = pages.make_accessible(addr, (block.size / PAGE) as u32);
    if opened.is_err() {
        let _block = blocks.remove(addr);
    }
    opened
}

// Takes the range of a block, with its guards, out of those that are free.
fn take_range(store: &mut Store, addr: u64, size: u64, guard: u64)
    requires free { IsFreeFor store.old.space addr size guard }
    requires room { store.old.space.out + 2 ≤ store.old.space.spare }
    requires few { store.old.owed < 2 ^ 63 }
    ensures { TakesOut store.old store.new addr size guard }
{
    store.space.take(addr - PAGE * guard, span(size, guard));
    store.owed += 1;
}

/// Allots a large block. Its word is put back where the pages find no memory.
pub fn serve<P: Pages>(
    store: &mut Store,
    pages: &mut P,
    asked: u64,
    align: u64,
) -> Result<Attempt, NoMemory>
    requires asks { Asks (Allot asked align) }
    requires few { store.old.owed < 2 ^ 63 }
    requires stands { Stands (P.told pages.old) (P.runs pages.old) store.old }
    ensures told { P.told pages.new ≡ P.told pages.old }
    ensures owner { P.owner pages.new ≡ P.owner pages.old }
    ensures owed { store.new.owed ≤ store.old.owed + 1 }
    ensures allots { IfOk result (λ attempt. (c : Config) (seed : ℕ) (s : State) → Shows c seed s store.old
        → Allots P.Pages c seed s asked align store.new pages.old pages.new attempt) }
    ensures declines { OnErr result ((c : Config) (seed : ℕ) (s : State) → Shows c seed s store.old
        → Declines P.Pages c seed s store.new pages.old pages.new) }
{
    reserve(store)?;
    let size = size_of_block(asked);
    let (word, guard) = draw_guard(store, size);
    let Some(addr) = store.fit(size, guard, align) else {
        let reply = Reply::NoSpace;
        return Ok(Attempt { word, guard, reply });
    };
    let block = KeptBlock {
        asked,
        size,
        guard,
        quarantined: false,
        failed: false,
    };
    match open(&mut store.blocks, pages, addr, block) {
        Ok(()) => {
            take_range(store, addr, size, guard);
            let reply = Reply::Given { addr, usable: size };
            Ok(Attempt { word, guard, reply })
        }
        Err(PageRefusal::Failed) => {
            let reply = Reply::PagesFailed;
            Ok(Attempt { word, guard, reply })
        }
        Err(PageRefusal::NoMemory) => {
            store.words.back();
            Err(NoMemory)
        }
    }
}
