//! Bytes as runs of equal ones.
ghost use Rattle.std.specs.Prelude.{◌≡◌, ◌==◌, ◌+◌, ◌++◌, ◌^◌, ◌<◌, ◌≤◌, ◌↔◌, ℕ, [], length, take, replicate, IsTrue, IsSome, IfSome, IsOk, IfOk, OnOk, OnErr};
ghost use Rattle.std.specs.List.{prefix_len};
ghost use Rattle.hm_model.specs.Runs.{expand, total, runs_of, same_runs, AreApart, AreRuns};

use hm_base::NoMemory;
use smallvec::SmallVec;
use std::alloc::Global;
use std::marker::Model;

/// Bytes as pairs of a byte and how often it stands there. One pair, as most bytes are, takes no memory.
#[derive(Debug, Drop)]
pub struct Runs {
    pairs: SmallVec<(u8, u64), 1>,
}

impl Model for Runs {
    ghost use Rattle.std.specs.Prelude.{List, ℕ};
    ghost use Rattle.hm_model.specs.Runs.{AreRuns};

    ghost Value = { List (ℕ × ℕ) };

    ghost view = { λ r. r.pairs.items };

    ghost invariant = { λ r. AreRuns r.pairs.items };
}

impl Runs {
    /// The runs of these bytes: neighbours that are equal stand in one.
    pub fn of(alloc: Global, bytes: &[u8]) -> Result<Runs, NoMemory>
        ensures value { IfOk result (λ runs. runs ≡ runs_of bytes.now) }
        ensures bytes { IfOk result (λ runs. expand runs ≡ bytes.now) }
        ensures at_most_one { length (runs_of bytes.now) ≤ 1 → IsOk result }
    {
        let mut pairs = SmallVec::new(alloc);
        let mut start = 0;
        while start < bytes.len() {
            let byte = bytes[start];
            let len = leading(&bytes[start..], byte);
            pairs.push((byte, len as u64))?;
            start += len;
        }
        Ok(Runs { pairs })
    }

    /// The runs of one byte, so many times.
    pub fn same(alloc: Global, byte: u8, len: u64) -> Result<Runs, NoMemory>
        ensures always { IsOk result }
        ensures value { IfOk result (λ runs. runs ≡ same_runs byte len) }
        ensures bytes { IfOk result (λ runs. expand runs ≡ replicate len byte) }
    {
        let mut pairs = SmallVec::new(alloc);
        if len > 0 {
            pairs.push((byte, len))?;
        }
        Ok(Runs { pairs })
    }

    /// No runs. It takes no memory.
    pub fn new(alloc: Global) -> Runs
        ensures { result ≡ [] }
    {
        Runs {
            pairs: SmallVec::new(alloc),
        }
    }

    /// Appends bytes: the last run goes on where they begin with its byte. Where memory lacks, some of them, at their
    /// front, are appended.
    pub fn append(&mut self, bytes: &[u8]) -> Result<(), NoMemory>
        requires { total self.old + length bytes.now < 2 ^ 64 }
        ensures appended { OnOk result (expand self.new ≡ expand self.old ++ bytes.now) }
        ensures count { OnOk result (total self.new ≡ total self.old + length bytes.now) }
        ensures some { OnErr result ((n : ℕ) × (expand self.new ≡ expand self.old ++ take n bytes.now)) }
    {
        let mut start = 0;
        while start < bytes.len() {
            let byte = bytes[start];
            let len = leading(&bytes[start..], byte);
            append_run(&mut self.pairs, byte, len as u64)?;
            start += len;
        }
        Ok(())
    }

    /// Appends one byte, so many times: the last run goes on where it is of that byte.
    pub fn append_same(&mut self, byte: u8, len: u64) -> Result<(), NoMemory>
        requires { total self.old + len < 2 ^ 64 }
        ensures appended { OnOk result (expand self.new ≡ expand self.old ++ replicate len byte) }
        ensures count { OnOk result (total self.new ≡ total self.old + len) }
        ensures unchanged { OnErr result (self.new ≡ self.old) }
    {
        if len == 0 {
            return Ok(());
        }
        append_run(&mut self.pairs, byte, len)?;
        Ok(())
    }

    /// The same runs once more.
    pub fn copy(&self) -> Result<Runs, NoMemory>
        ensures value { IfOk result (λ runs. runs ≡ self.now) }
        ensures at_most_one { length self.now ≤ 1 → IsOk result }
    {
        let pairs = SmallVec::from_slice(*self.pairs.allocator(), self.pairs())?;
        Ok(Runs { pairs })
    }

    /// The bytes that they stand for.
    pub fn to_vec(&self, alloc: Global) -> Result<Vec<u8>, NoMemory>
        ensures { IfOk result (λ bytes. bytes.items ≡ expand self.now) }
    {
        let mut bytes = Vec::with_capacity(alloc, self.len() as usize)?;
        for (byte, len) in self.pairs.as_slice() {
            bytes.resize(bytes.len() + *len as usize, *byte)?;
        }
        Ok(bytes)
    }

    /// How many bytes they stand for.
    pub fn len(&self) -> u64
        ensures value { result ≡ total self.now }
        ensures bytes { result ≡ length (expand self.now) }
    {
        let mut bytes = 0;
        for (_, len) in self.pairs.as_slice() {
            bytes += *len;
        }
        bytes
    }

    /// The runs that are these pairs, unless they break a rule of runs: none is of length 0, neighbours have different
    /// bytes, and the lengths sum to a `u64`.
    pub fn from_pairs(pairs: Vec<(u8, u64)>) -> Option<Runs>
        ensures some { IsSome result ↔ AreRuns pairs.items }
        ensures value { IfSome result (λ runs. runs ≡ pairs.items) }
    {
        if are_apart(&pairs) && total(&pairs).is_some() {
            Some(Runs {
                pairs: SmallVec::from_vec(pairs),
            })
        } else {
            None
        }
    }

    /// They keep the rules of runs. It does nothing.
    pub fn are_runs(&self)
        ensures { AreRuns self.now }
    {
        let _ = &self.pairs;
    }

    /// The pairs, in order.
    pub fn pairs(&self) -> &[(u8, u64)]
        ensures { result.now ≡ self.now }
    {
        &self.pairs
    }
}

/// How many equal bytes stand in front.
fn leading(bytes: &[u8], byte: u8) -> usize
    ensures count { result ≡ prefix_len (λ b. b == byte) bytes.now }
    ensures within { result ≤ length bytes.now }
{
    bytes.iter().take_while(|b| **b == byte).count()
}

/// Appends one byte, so many times: the last run goes on where it is of that byte.
fn append_run(pairs: &mut SmallVec<(u8, u64), 1>, byte: u8, len: u64) -> Result<(), NoMemory>
    requires runs { AreRuns pairs.old.items }
    requires some { 1 ≤ len }
    requires below { total pairs.old.items + len < 2 ^ 64 }
    ensures runs { AreRuns pairs.new.items }
    ensures appended { OnOk result (expand pairs.new.items ≡ expand pairs.old.items ++ replicate len byte) }
    ensures unchanged { OnErr result (pairs.new.items ≡ pairs.old.items) }
{
    let count = pairs.len();
    if count > 0 && pairs[count - 1].0 == byte {
        pairs[count - 1].1 += len;
    } else {
        pairs.push((byte, len))?;
    }
    Ok(())
}

/// Whether no run is empty, and neighbouring bytes are different.
fn are_apart(pairs: &[(u8, u64)]) -> bool
    ensures { IsTrue result ↔ AreApart pairs.now }
{
    let mut last = None;
    for (byte, len) in pairs {
        if *len == 0 || last == Some(*byte) {
            return false;
        }
        last = Some(*byte);
    }
    true
}

/// How many bytes the runs stand for, if a `u64` can say it.
fn total(pairs: &[(u8, u64)]) -> Option<u64>
    ensures some { IsSome result ↔ (total pairs.now < 2 ^ 64) }
    ensures value { IfSome result (λ bytes. bytes ≡ total pairs.now) }
{
    let mut bytes: u64 = 0;
    for (_, len) in pairs {
        bytes = bytes.checked_add(*len)?;
    }
    Some(bytes)
}

#[cfg(test)]
mod tests {
    use super::*;
    use std::test::Fail;

    #[test]
    fn runs_of_pairs(rt: HostRuntime) -> Result<(), Fail> {
        let cases: [(&[(u8, u64)], bool); 8] = [
            (&[], true),
            (&[(7, 1)], true),
            (&[(0, 3), (1, 1), (0, 2)], true),
            (&[(255, u64::MAX)], true),
            (&[(7, 0)], false),
            (&[(0, 3), (5, 1), (5, 2)], false),
            (&[(0, 3), (1, 0), (0, 2)], false),
            (&[(5, u64::MAX), (6, 1)], false),
        ];
        for (pairs, are_runs) in cases {
            match Runs::from_pairs(pairs.to_vec(rt.alloc())?) {
                Some(runs) => {
                    assert!(rt; are_runs, "{pairs:?}");
                    assert_eq!(rt; runs.pairs(), pairs);
                }
                None => assert!(rt; !are_runs, "{pairs:?}"),
            }
        }
        Ok(())
    }

    #[test]
    fn runs_of_bytes(rt: HostRuntime) -> Result<(), Fail> {
        let cases: [(&[u8], &[(u8, u64)]); 5] = [
            (&[], &[]),
            (&[7], &[(7, 1)]),
            (&[0, 0, 0], &[(0, 3)]),
            (&[1, 2, 1], &[(1, 1), (2, 1), (1, 1)]),
            (&[0, 0, 5, 5, 5, 0], &[(0, 2), (5, 3), (0, 1)]),
        ];
        for (bytes, pairs) in cases {
            let runs = Runs::of(rt.alloc(), bytes)?;
            assert_eq!(rt; runs.pairs(), pairs);
            assert_eq!(rt; runs.copy()?.pairs(), pairs);
            assert_eq!(rt; runs.to_vec(rt.alloc())?.as_slice(), bytes);
            assert_eq!(rt; runs.len(), bytes.len() as u64);
        }
        Ok(())
    }

    #[test]
    fn bytes_after_bytes(rt: HostRuntime) -> Result<(), Fail> {
        let mut runs = Runs::new(rt.alloc());
        runs.append(b"aab")?;
        runs.append(b"")?;
        runs.append(b"bb")?;
        runs.append(b"ca")?;
        let pairs = [(b'a', 2), (b'b', 3), (b'c', 1), (b'a', 1)];
        assert_eq!(rt; runs.pairs(), pairs.as_slice());
        Ok(())
    }

    #[test]
    fn one_byte_after_bytes(rt: HostRuntime) -> Result<(), Fail> {
        let mut runs = Runs::new(rt.alloc());
        runs.append_same(b'a', 3)?;
        runs.append(b"ab")?;
        runs.append_same(b'b', 4294967296)?;
        runs.append_same(b'c', 0)?;
        let pairs = [(b'a', 4), (b'b', 4294967297)];
        assert_eq!(rt; runs.pairs(), pairs.as_slice());
        Ok(())
    }

    #[test]
    fn runs_of_one_byte(rt: HostRuntime) -> Result<(), Fail> {
        let none = Runs::same(rt.alloc(), 7, 0)?;
        assert!(rt; none.pairs().is_empty());
        assert!(rt; none.to_vec(rt.alloc())?.is_empty());
        let longest = Runs::same(rt.alloc(), 7, u64::MAX)?;
        assert_eq!(rt; longest.pairs(), [(7, u64::MAX)].as_slice());
        assert_eq!(rt; longest.len(), u64::MAX);
        Ok(())
    }
}
