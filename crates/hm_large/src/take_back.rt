//! Taking a large block back: one below 32 MiB goes into quarantine, and what leaves that gives its range
//! back; a greater one gives its range back at once.
ghost use Rattle.std.specs.Prelude.{◌≡◌, ◌+◌, ◌-◌, ◌*◌, ◌<◌, ◌≤◌, ℕ, true, false, if◌then◌else◌, IfSome, IsSome, Some, None};
ghost use Rattle.std.specs.FinMap as map;
ghost use Rattle.hm_model.specs.Maps.{at};
ghost use Rattle.hm_sizes.specs.declared.config.Config.{Config};
ghost use Rattle.hm_large_rules.specs.State.{Block, State};
ghost use Rattle.hm_large_rules.specs.Steps.{marked};
ghost use Rattle.hm_large_rules.specs.Laws.{IsSound};
ghost use Rattle.hm_large.specs.BlockTable.{Updates, live_size};
ghost use Rattle.hm_large.specs.Kept.{Shows};
ghost use Rattle.hm_large.specs.Frees.{GoesBack, PutsBack, StandsLive, Frees};
ghost use Rattle.hm_region_table.specs.declared.entry.Block.{Block as KeptBlock};

use crate::store::{Store, span};
use hm_large_rules::{ARRAY_LENGTH, QUARANTINED_BELOW};
use hm_region_table::Block as KeptBlock;
use hm_sizes::PAGE;

/// What a free chose: the block that left the quarantine, and the word that was drawn.
#[derive(Clone, Copy, Debug, Drop)]
pub struct Freeing {
    pub released: Option<u64>,
    pub word: Option<u32>,
}

// Takes a block out of the table, and puts its range, with its guards, back among those that are free.
fn put_back(store: &mut Store, addr: u64)
    requires { IfSome (map.get store.old.blocks.blocks addr) (GoesBack store.old.space addr) }
    ensures { PutsBack store.old store.new addr }
{
    if let Some(block) = store.blocks.remove(addr) {
        store
            .space
            .put_back(addr - PAGE * block.guard, span(block.size, block.guard));
    }
}

// No entry is kept any more for the free of a block, if one was.
fn uncount(store: &mut Store, failed: bool)
    requires { failed ≡ false → 1 ≤ store.old.owed }
    ensures others { store.new ≡ record store.old { owed = store.old.owed - (if failed then 0 else 1) } }
    ensures owed { store.new.owed + (if failed then 0 else 1) ≡ store.old.owed }
{
    if !failed {
        store.owed -= 1;
    }
}

// Changes what the table has of a block. It takes no memory, since the block stands there.
fn replace(store: &mut Store, addr: u64, block: KeptBlock)
    requires there { IsSome (map.get store.old.blocks.blocks addr) }
    requires same { block.quarantined ≡ false → live_size (map.get store.old.blocks.blocks addr) ≡ Some block.size }
    ensures blocks { Updates store.old.blocks store.new.blocks addr (Some block) }
    ensures others { store.new ≡ record store.old { blocks = store.new.blocks } }
{
    store.blocks.replace(addr, block);
}

/// Takes a live block back, its pages being dropped already.
pub fn take_back(store: &mut Store, addr: u64, block: KeptBlock) -> Freeing
    requires { StandsLive store.old addr block }
    ensures frees { (c : Config) (seed : ℕ) (s : State) (x : Block) → IsSound c s → Shows c seed s store.old
        → at addr s.live ≡ Some x → Frees c seed s addr x store.new result }
    ensures owed { store.new.owed + (if block.failed then 0 else 1) ≡ store.old.owed }
{
    uncount(store, block.failed);
    if block.size >= QUARANTINED_BELOW {
        put_back(store, addr);
        return Freeing {
            released: None,
            word: None,
        };
    }
    let (word, place) = store.words.draw(ARRAY_LENGTH);
    let quarantined = KeptBlock {
        quarantined: true,
        ..block
    };
    replace(store, addr, quarantined);
    let released = store.quarantine.pass(addr, place);
    if let Some(left) = released {
        put_back(store, left);
    }
    Freeing {
        released,
        word: Some(word),
    }
}

/// Keeps a live block at whose free a page fault occurred. The entry kept for its free is
/// used up.
pub fn mark_fault(store: &mut Store, addr: u64, block: KeptBlock)
    requires { StandsLive store.old addr block }
    ensures shows { (c : Config) (seed : ℕ) (s : State) (x : Block) → IsSound c s → Shows c seed s store.old
        → at addr s.live ≡ Some x → Shows c seed (record s { live = marked addr s.live }) store.new }
    ensures owed { store.new.owed + (if block.failed then 0 else 1) ≡ store.old.owed }
{
    uncount(store, block.failed);
    let failed = KeptBlock {
        failed: true,
        ..block
    };
    replace(store, addr, failed);
}
