//! What is said of an address that is measured or given back.
ghost use Rattle.std.specs.Prelude.{◌≡◌, ℕ, false, option_map};
ghost use Rattle.hm_model.specs.Maps.{at};
ghost use Rattle.hm_sizes.specs.declared.config.Config.{Config};
ghost use Rattle.hm_large_rules.specs.State.{State};
ghost use Rattle.hm_large.specs.Kept.{Shows, kept_of};
ghost use Rattle.hm_large.specs.Judgements.{Judges};

use crate::store::Store;
use hm_model::Reply;
use hm_region_table::Block as KeptBlock;
use hm_sizes::block_size;

/// The live block at the address.
pub fn live_block(store: &Store, addr: u64) -> Option<KeptBlock>
    ensures { (c : Config) (seed : ℕ) (s : State) → Shows c seed s store.now
        → result ≡ option_map (kept_of false) (at addr s.live) }
{
    let block = store.blocks.get(addr)?;
    if block.quarantined { None } else { Some(block) }
}

/// The live block that is given back, or the reply of a free that is refused.
pub fn judge(store: &Store, addr: u64, stated: Option<u64>) -> Result<KeptBlock, Reply>
    ensures { (c : Config) (seed : ℕ) (s : State) → Shows c seed s store.now → Judges s addr stated result }
{
    let Some(block) = live_block(store, addr) else {
        return Err(Reply::NotLive);
    };
    let Some(size) = stated else {
        return Ok(block);
    };
    let stated = block_size(size);
    if stated == block.size {
        Ok(block)
    } else {
        Err(Reply::WrongSize {
            block: block.size,
            stated,
        })
    }
}
