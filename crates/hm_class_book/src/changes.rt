//! What entries change in the lists of a book.
ghost use Rattle.std.specs.Prelude.{◌≡◌, ◌∷◌, OnOk};
ghost use Rattle.hm_model.specs.Maps.{removed, without};
ghost use Rattle.hm_class_book.specs.Book.{slabs_in};

use crate::book::OpenSlab;
use hm_base::NoMemory;
use std::collections::VecDeque;

pub(crate) fn remove_block(live: &mut Vec<(u64, u64)>, addr: u64)
    ensures { live.new.items ≡ removed addr live.old.items }
{
    live.retain(|block| block.0 != addr);
}

pub(crate) fn remove_slab(opens: &mut Vec<(u64, OpenSlab)>, slab: u64)
    ensures { slabs_in opens.new.items ≡ removed slab (slabs_in opens.old.items) }
{
    opens.retain(|open| open.0 != slab);
}

pub(crate) fn remove_number(numbers: &mut Vec<u64>, number: u64)
    ensures { numbers.new.items ≡ without number numbers.old.items }
{
    numbers.retain(|other| *other != number);
}

pub(crate) fn put_first(numbers: &mut Vec<u64>, number: u64) -> Result<(), NoMemory>
    ensures { OnOk result (numbers.new.items ≡ number ∷ numbers.old.items) }
{
    numbers.insert(0, number)?;
    Ok(())
}

/// The same in a queue, where no other number moves.
pub(crate) fn put_front(numbers: &mut VecDeque<u64>, number: u64) -> Result<(), NoMemory>
    ensures { OnOk result (numbers.new.items ≡ number ∷ numbers.old.items) }
{
    numbers.push_front(number)?;
    Ok(())
}
