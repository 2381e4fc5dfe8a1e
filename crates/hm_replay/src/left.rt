//! What a name holds when a script has ended.
ghost use Rattle.std.proofs.Props.{props};
ghost use Rattle.std.specs.Prelude.{IfSome};
ghost use Rattle.hm_heap.specs.Requests.{IsInReach};

use hm_trace::Name;

/// A name that a script sets, and the address that it holds at the end: none where it is unset.
#[derive(Clone, Copy)]
pub(crate) struct NameLeft {
    pub(crate) name: Name,
    pub(crate) address: Option<u64>,
    ghost reach: { IfSome address IsInReach } by { Prim.hlevel props },
}
