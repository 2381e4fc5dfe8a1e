//! Names that hold addresses, as the steps of a script read and set them.
ghost use Rattle.std.specs.Prelude.{◌≡◌, IfSome, OnOk, OnErr};
ghost use Rattle.hm_trace.specs.Views.{name_view};
ghost use Rattle.hm_heap.specs.Requests.{IsInReach};
ghost use Rattle.hm_replay.specs.Names.{Names, Touched, touched_too, with_name};

use hm_base::NoMemory;
use hm_trace::Name;

/// Names of which each holds an address or none.
pub(crate) trait Addresses {
    /// What each name holds.
    ghost names: { Self → Names };

    /// Which names were set or unset, as far as that is kept.
    ghost touched: { Self → Touched };

    /// The address that a name holds.
    fn get(&self, name: &Name) -> Option<u64>
        ensures value { result ≡ names self.now (name_view name.now) }
        ensures reach { IfSome result IsInReach };

    /// Sets a name to an address, or unsets it.
    fn set(&mut self, name: Name, given: Option<u64>) -> Result<(), NoMemory>
        requires reach { IfSome given IsInReach }
        ensures value { OnOk result (names self.new ≡ with_name (names self.old) (name_view name) given) }
        ensures touched { OnOk result (touched self.new ≡ touched_too (touched self.old) (name_view name)) }
        ensures memory { OnErr result (self.new ≡ self.old) };
}
