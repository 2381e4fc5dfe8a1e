//! Replies, each of which the entry of a call and the caller both get.
ghost use Rattle.std.specs.Prelude.{◌≡◌, ◌⊎◌};
ghost use Rattle.hm_model.specs.Replies.{IsBlockReply, IsBlockFreeReply};
ghost use Rattle.hm_large.specs.Access.{fill_reply};
ghost use Rattle.hm_large.specs.Judgements.{measured_reply};

use hm_model::Reply;
use hm_region_table::Block as KeptBlock;

/// The reply of an allotment or a free, twice. It has no bytes, so this takes no memory.
pub fn twice(reply: Reply) -> (Reply, Reply)
    requires { IsBlockReply reply ⊎ IsBlockFreeReply reply }
    ensures { (result.0 ≡ reply) × (result.1 ≡ reply) }
{
    match reply {
        Reply::Given { addr, usable } => (
            Reply::Given { addr, usable },
            Reply::Given { addr, usable },
        ),
        Reply::WrongSize { block, stated } => (
            Reply::WrongSize { block, stated },
            Reply::WrongSize { block, stated },
        ),
        Reply::NoSpace => (Reply::NoSpace, Reply::NoSpace),
        Reply::PagesFailed => (Reply::PagesFailed, Reply::PagesFailed),
        Reply::Freed => (Reply::Freed, Reply::Freed),
        _ => (Reply::NotLive, Reply::NotLive),
    }
}

/// What a measurement replies.
pub fn measured(block: Option<KeptBlock>) -> Reply
    ensures { result ≡ measured_reply block }
{
    match block {
        Some(block) => Reply::Usable(block.size),
        None => Reply::NotLive,
    }
}

/// The reply to a fill, by the address at which it traps.
pub fn filled(trap: Option<u64>) -> Reply
    ensures { result ≡ fill_reply trap }
{
    match trap {
        Some(addr) => Reply::Trap { addr },
        None => Reply::Filled,
    }
}
