//! A free range of addresses, and the lowest address in it at which a block fits.
ghost use Rattle.std.specs.Prelude.{◌≡◌, ◌+◌, ◌%◌, ◌^◌, ◌<◌, ◌≤◌, ◌==◌, ℕ, IfSome, IfNone};

/// The `len` addresses from `start` on.
#[derive(Clone, Copy, Debug, PartialEq, Eq)]
pub struct FreeRange {
    pub start: u64,
    pub len: u64,
}

/// How far a number is past a multiple of `align`. A power of two, as alignments mostly are, takes no division, which
/// would be most of a search through many free ranges.
fn past_multiple(number: u64, align: u64) -> u64
    requires { 1 ≤ align }
    ensures { result ≡ number % align }
{
    if align.is_power_of_two() {
        number & (align - 1)
    } else {
        number % align
    }
}

impl FreeRange {
    ghost use Rattle.hm_space.specs.Ranges.{end_of, IsFitIn};

    pub(crate) fn is_empty(&self) -> bool
        ensures { result ≡ (self.now.len == 0) }
    {
        self.len == 0
    }

    /// The address past its last one.
    pub(crate) fn end(&self) -> u64
        requires { end_of self.now < 2 ^ 64 }
        ensures { result ≡ end_of self.now }
    {
        self.start + self.len
    }

    /// The lowest address in the range from which `len` addresses lie in it, and `front` past it is a
    /// multiple of `align`.
    pub(crate) fn lowest_fit(&self, len: u64, align: u64, front: u64) -> Option<u64>
        requires below { end_of self.now < 2 ^ 64 }
        requires align { 1 ≤ align }
        requires front { front ≤ len }
        ensures fits { IfSome result (IsFitIn self.now len align front) }
        ensures lowest { IfSome result (λ at. (other : ℕ) → IsFitIn self.now len align front other → at ≤ other) }
        ensures none { IfNone result ((at : ℕ) → IsFitIn self.now len align front at → ⊥) }
    {
        if self.len < len {
            return None;
        }
        let past = past_multiple(self.start + front, align);
        let skip = if past == 0 { 0 } else { align - past };
        if skip <= self.len - len {
            Some(self.start + skip)
        } else {
            None
        }
    }
}
