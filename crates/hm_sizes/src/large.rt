//! The sizes of large blocks.
ghost use Rattle.std.specs.Prelude.{◌≡◌, ◌^◌, ◌≤◌};
ghost use Rattle.hm_sizes.specs.Sizes.{large_size, spacing};

use crate::PAGE;

/// Where all large sizes stand a page apart.
const PAGES_APART: u64 = 32768;

/// The size of a large block for a request of this raised size.
pub fn large_size(raised: u64) -> u64
    requires { raised ≤ 2 ^ 31 }
    ensures { result ≡ large_size raised }
{
    raised.max(1).next_multiple_of(spacing(raised))
}

/// How far apart large sizes stand about this raised size: an eighth of a power of two.
fn spacing(raised: u64) -> u64
    requires { raised ≤ 2 ^ 31 }
    ensures value { result ≡ spacing raised }
    ensures some { 1 ≤ result }
    ensures most { result ≤ 2 ^ 31 }
{
    if raised <= PAGES_APART {
        PAGE
    } else {
        let digits = u64::BITS - (raised - 1).leading_zeros();
        1 << (digits - 3)
    }
}
