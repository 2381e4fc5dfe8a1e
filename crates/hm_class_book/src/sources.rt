//! Where the next slot may come from, by the lists of partial and of empty slabs.
ghost use Rattle.std.specs.Prelude.{◌≡◌, ◌↔◌, ◌&&◌, IsTrue, Some};
ghost use Rattle.hm_class_rules.specs.State.{is_partial, is_empty, unopened};
ghost use Rattle.hm_class_rules.specs.Rules.{Source};
ghost use Rattle.hm_sizes.specs.Shapes.{IsShape};
ghost use Rattle.hm_class_book.specs.Book.{state_in};
ghost use Rattle.hm_class_book.specs.Sources.{is_nil, Holds, serves_by};

use crate::book::{Book, is_among};
use hm_sizes::Shape;

fn is_nil(numbers: &[u64]) -> bool
    ensures { result ≡ is_nil numbers.now }
{
    numbers.is_empty()
}

impl Book {
    /// The slab that is opened next, where none serves.
    pub fn unopened(&self, shape: &Shape) -> Option<u64>
        ensures { result ≡ unopened shape.now (state_in self.now).shut (state_in self.now).next }
    {
        match self.shut.first() {
            Some(slab) => Some(*slab),
            None => {
                if self.next < shape.limit {
                    Some(self.next)
                } else {
                    None
                }
            }
        }
    }

    /// Whether a slot of this slab may be picked, once this slab is opened, if one is.
    pub fn is_source(
        &self,
        shape: &Shape,
        partial: &[u64],
        empty: &[u64],
        opened: Option<u64>,
        slab: u64,
    ) -> bool
        requires shape { IsShape shape.now }
        requires partial { Holds partial.now (is_partial shape.now (state_in self.now)) }
        requires empty { Holds empty.now (is_empty shape.now (state_in self.now)) }
        ensures { IsTrue result ↔ Source shape.now (state_in self.now) opened slab }
    {
        match opened {
            None => serves(partial, empty, slab),
            Some(number) => {
                opens(partial, empty) & (number == slab) & is_same(self.unopened(shape), number)
            }
        }
    }
}

// Whether an open slab is the source.
fn serves(partial: &[u64], empty: &[u64], slab: u64) -> bool
    ensures { result ≡ serves_by partial.now empty.now slab }
{
    let is_partial = is_among(partial, slab);
    let none_partial = is_nil(partial);
    let is_empty = is_among(empty, slab);
    is_partial | (none_partial & is_empty)
}

// Whether no open slab is.
pub(crate) fn opens(partial: &[u64], empty: &[u64]) -> bool
    ensures { result ≡ (is_nil partial.now && is_nil empty.now) }
{
    let none_partial = is_nil(partial);
    let none_empty = is_nil(empty);
    none_partial & none_empty
}

pub(crate) fn is_same(option: Option<u64>, number: u64) -> bool
    ensures { IsTrue result ↔ option ≡ Some number }
{
    match option {
        Some(other) => other == number,
        None => false,
    }
}
