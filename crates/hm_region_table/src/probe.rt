//! Searches of the cells, from a key's home on and round their end.
ghost use Rattle.std.specs.Prelude.{◌≡◌, ◌<◌, IfSome, IfNone};
ghost use Rattle.hm_region_table.specs.Cells.{home, next, IsKept, IsThere, IsNotThere, HasRoom, IsCellFor};

use crate::entry::Entry;

/// An odd factor near 2^64 over the golden ratio: what it multiplies is spread over the upper bits, so that addresses
/// with a common stride, as multiples of 4,096 or of a large alignment, have different homes.
const SPREAD: u64 = 11400714819323198485;

/// The bytes of a page.
const PAGE: u64 = 4096;

/// Where the search for a key begins.
pub(crate) fn home(addr: u64, count: usize) -> usize
    requires { 0 < count }
    ensures value { result ≡ home count addr }
    ensures within { result < count }
{
    (((addr / PAGE).wrapping_mul(SPREAD) >> 32) % count as u64) as usize
}

/// The cell after this one, round the end.
pub(crate) fn next(index: usize, count: usize) -> usize
    requires { index < count }
    ensures value { result ≡ next count index }
    ensures within { result < count }
{
    if index + 1 == count { 0 } else { index + 1 }
}

/// Where the key's entry stands.
pub(crate) fn find(cells: &[Option<Entry>], addr: u64) -> Option<usize>
    requires { IsKept cells.now }
    ensures found { IfSome result (λ p. IsThere cells.now addr p) }
    ensures absent { IfNone result (IsNotThere cells.now addr) }
{
    let count = cells.len();
    let mut index = home(addr, count);
    for _passed in 0..count {
        let entry = cells[index]?;
        if entry.addr == addr {
            return Some(index);
        }
        index = next(index, count);
    }
    None
}

/// The first empty cell from the key's home on.
pub(crate) fn cell_for(cells: &[Option<Entry>], addr: u64) -> usize
    requires kept { IsKept cells.now }
    requires room { HasRoom cells.now }
    ensures { IsCellFor cells.now addr result }
{
    let count = cells.len();
    let mut index = home(addr, count);
    for _passed in 0..count {
        if cells[index].is_none() {
            return index;
        }
        index = next(index, count);
    }
    index
}
