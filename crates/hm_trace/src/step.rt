//! The steps of a script, and the places that they refer to.
ghost use Rattle.std.specs.Prelude.{◌≡◌, ◌++◌, ◌∷◌, [], OnOk};
ghost use Rattle.std.specs.Option.{option_map};
ghost use Rattle.hm_trace.specs.Traces.{name_set};
ghost use Rattle.hm_trace.specs.Views.{name_view, step_view, steps_view};

use crate::names::Name;
use std::alloc::AllocError;

/// An address that a step refers to.
#[derive(Clone, Copy, Debug, PartialEq, Eq)]
pub enum Place {
    /// The address 0.
    Null,
    /// The address itself.
    At(u64),
    /// The address that the name holds, and so many bytes up or down.
    Named { name: Name, offset: i64 },
}

/// One call of a program. A `name` is set to the address that the call gives.
#[derive(Clone, Copy, Debug, PartialEq, Eq)]
pub enum Step {
    Malloc { name: Name, size: u64 },
    Calloc { name: Name, count: u64, size: u64 },
    Aligned { name: Name, align: u64, size: u64 },
    Realloc { name: Name, place: Place, size: u64 },
    Free { place: Place },
    /// Frees a block whose size is stated.
    Sfree { place: Place, size: u64 },
    /// Writes `byte` to `len` bytes from `place` on.
    Write { place: Place, len: u64, byte: u8 },
    /// Reads `len` bytes from `place` on.
    Read { place: Place, len: u64 },
    /// Asks for the usable size of a block.
    Size { place: Place },
}

impl Step {
    /// The name that it sets, which is none where it asks for no block.
    pub fn name_set(&self) -> Option<Name>
        ensures { option_map name_view result ≡ name_set (step_view self.now) }
    {
        match self {
            Step::Malloc { name, .. }
            | Step::Calloc { name, .. }
            | Step::Aligned { name, .. }
            | Step::Realloc { name, .. } => Some(*name),
            _ => None,
        }
    }
}

pub(crate) fn push_step(steps: &mut Vec<Step>, step: Step) -> Result<(), AllocError>
    ensures { OnOk result (steps_view steps.new.items ≡ steps_view steps.old.items ++ step_view step ∷ []) }
{
    steps.push(step)?;
    Ok(())
}
