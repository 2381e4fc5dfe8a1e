//! The address that a step refers to.
ghost use Rattle.std.specs.Prelude.{◌≡◌, true};
ghost use Rattle.hm_trace.specs.Traces.{is_offset, is_place, is_step};
ghost use Rattle.hm_trace.specs.Views.{place_view, step_view};
ghost use Rattle.hm_heap.specs.Requests.{IsInReach};
ghost use Rattle.hm_replay.specs.Steps.{with_offset, referred, base_of};

use crate::addresses::Addresses;
use hm_trace::{Place, Step};

// The address so many bytes up or down.
fn with_offset(addr: u64, offset: i64) -> u64
    requires reach { IsInReach addr }
    requires offset { is_offset offset ≡ true }
    ensures { result ≡ with_offset addr offset }
{
    if offset < 0 {
        addr - offset.unsigned_abs()
    } else {
        addr + offset.unsigned_abs()
    }
}

// The address of a place: none where its name is not set.
fn referred<E: Addresses>(env: &E, place: &Place) -> Option<u64>
    requires valid { is_place (place_view place.now) ≡ true }
    ensures { result ≡ referred (E.names env.now) (place_view place.now) }
{
    match place {
        Place::Null => Some(0),
        Place::At(addr) => Some(*addr),
        Place::Named { name, offset } => {
            let addr = env.get(name)?;
            Some(with_offset(addr, *offset))
        }
    }
}

/// The address that a step refers to, and 0 where it refers to none. None is for a name that is not set.
pub(crate) fn base_of<E: Addresses>(env: &E, step: &Step) -> Option<u64>
    requires valid { is_step (step_view step.now) ≡ true }
    ensures { result ≡ base_of (E.names env.now) (step_view step.now) }
{
    match step {
        Step::Malloc { .. } | Step::Calloc { .. } | Step::Aligned { .. } => Some(0),
        Step::Realloc { place, .. }
        | Step::Free { place }
        | Step::Sfree { place, .. }
        | Step::Write { place, .. }
        | Step::Read { place, .. }
        | Step::Size { place } => referred(env, place),
    }
}
