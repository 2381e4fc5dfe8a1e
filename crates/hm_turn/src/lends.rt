//! The value in hand, lent to its holder. It stands apart from `Held`, since its clause names the row of that type.
ghost use Rattle.std.specs.Prelude.{◌≡◌};
ghost use Rattle.std.specs.Borrow.{Lends, sem};
ghost use Rattle.hm_turn.specs.contracts.turn.Held.{the_row};
ghost use Rattle.hm_turn.specs.Known.{with_value};

use crate::{Held, Kept};

impl<T: Kept> Held<T> {
    /// The value, as it was taken or last left.
    pub fn value(&mut self) -> &mut T
        ensures* writes_back { sem 𝓛 (Lends (the_row T.row T.Kept) T.row self.entry result (with_value self.old)) }
        ensures value { result.now ≡ self.old.value }
    {
        &mut self.value
    }
}
