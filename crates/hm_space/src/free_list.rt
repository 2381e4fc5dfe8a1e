//! Edits of the list of free ranges, which rise and are apart: a part of one is taken out, and a range
//! is put in, joined with those that it touches.
ghost use Rattle.std.specs.Prelude.{◌≡◌, ◌≢◌, ◌+◌, ◌-◌, ◌^◌, ◌<◌, ◌≤◌, ℕ, length, slice_get, Some, IfSome, IfNone, IsSomeAnd, vec_len, vec_capacity};
ghost use Rattle.hm_space.specs.Ranges.{end_of, begun, IsWithin, IsInSome, LiesIn, AreApart, Takes, Gives};

use crate::FreeRange;

/// How many ranges begin at the address or below it.
pub(crate) fn count_begun(ranges: &[FreeRange], at: u64) -> usize
    requires { AreApart 0 ranges.now }
    ensures { result ≡ begun ranges.now at }
{
    ranges.partition_point(|range| range.start <= at)
}

/// Takes `len` addresses out of the range at this index, and keeps what is left of it on both sides.
pub(crate) fn cut(ranges: &mut Vec<FreeRange>, index: usize, at: u64, len: u64)
    requires apart { AreApart 0 ranges.old.items }
    requires some { 1 ≤ len }
    requires here { IsSomeAnd (slice_get ranges.old.items index) (λ range. LiesIn range at len) }
    requires room { vec_len ranges.old < vec_capacity ranges.old }
    ensures taken { Takes ranges.old.items ranges.new.items at len }
    ensures longer { vec_len ranges.new ≤ vec_len ranges.old + 1 }
    ensures capacity { vec_capacity ranges.new ≡ vec_capacity ranges.old }
{
    let range = ranges[index];
    let left = FreeRange {
        start: range.start,
        len: at - range.start,
    };
    let right = FreeRange {
        start: at + len,
        len: range.end() - (at + len),
    };
    match (left.is_empty(), right.is_empty()) {
        (true, true) => {
            let _whole = ranges.remove(index);
        }
        (true, false) => ranges[index] = right,
        (false, true) => ranges[index] = left,
        (false, false) => {
            ranges[index] = left;
            ranges.insert(index + 1, right).unwrap();
        }
    }
}

/// The range before this index, if it ends at the address.
fn ending_at(ranges: &[FreeRange], index: usize, at: u64) -> Option<FreeRange>
    requires apart { AreApart 0 ranges.now }
    requires index { index ≤ length ranges.now }
    ensures some { IfSome result (λ range. (0 < index) × (slice_get ranges.now (index - 1) ≡ Some range)
        × (end_of range ≡ at)) }
    ensures none { IfNone result (0 < index → IfSome (slice_get ranges.now (index - 1)) (λ range. end_of range ≢ at)) }
{
    if index == 0 {
        return None;
    }
    let range = ranges[index - 1];
    if range.end() == at { Some(range) } else { None }
}

/// The range at this index, if it starts at the address.
fn starting_at(ranges: &[FreeRange], index: usize, at: u64) -> Option<FreeRange>
    ensures some { IfSome result (λ range. (slice_get ranges.now index ≡ Some range) × (range.start ≡ at)) }
    ensures none { IfNone result (IfSome (slice_get ranges.now index) (λ range. range.start ≢ at)) }
{
    if index >= ranges.len() {
        return None;
    }
    let range = ranges[index];
    if range.start == at { Some(range) } else { None }
}

/// Puts a range in, joined with those that it touches. Its index is behind those that begin below it.
pub(crate) fn join(ranges: &mut Vec<FreeRange>, index: usize, at: u64, len: u64)
    requires apart { AreApart 0 ranges.old.items }
    requires some { 1 ≤ len }
    requires below { at + len < 2 ^ 64 }
    requires alone { (a : ℕ) → IsWithin at len a → IsInSome ranges.old.items a → ⊥ }
    requires index { index ≡ begun ranges.old.items at }
    requires room { vec_len ranges.old < vec_capacity ranges.old }
    ensures given { Gives ranges.old.items ranges.new.items at len }
    ensures longer { vec_len ranges.new ≤ vec_len ranges.old + 1 }
    ensures capacity { vec_capacity ranges.new ≡ vec_capacity ranges.old }
{
    let lower = ending_at(ranges, index, at);
    let upper = starting_at(ranges, index, at + len);
    match (lower, upper) {
        (Some(lower), Some(upper)) => {
            ranges[index - 1] = FreeRange {
                start: lower.start,
                len: lower.len + len + upper.len,
            };
            let _upper = ranges.remove(index);
        }
        (Some(lower), None) => {
            ranges[index - 1] = FreeRange {
                start: lower.start,
                len: lower.len + len,
            };
        }
        (None, Some(upper)) => {
            ranges[index] = FreeRange {
                start: at,
                len: len + upper.len,
            };
        }
        (None, None) => ranges.insert(index, FreeRange { start: at, len }).unwrap(),
    }
}
