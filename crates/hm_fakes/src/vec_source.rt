//! A source in memory, some of whose calls fail. It tells what it has left.
ghost use Rattle.std.specs.Prelude.{Some, ◌≡◌, ◌≤◌, ◌-◌, ◌++◌, vec_len, length, min, take, drop, IfOk, OnErr, is_err};
ghost use Rattle.hm_outside.specs.Streams.{Takes};
ghost use Rattle.hm_outside.specs.Causes.{HasCause, LeavesCount};
ghost use Rattle.hm_outside.specs.Counts.{raised, raised_if};
ghost use Rattle.hm_fakes.specs.Numbered.{is_named};
ghost use Rattle.hm_fakes.specs.Fakes.{moved_count};

use crate::numbered::number_call;
use hm_outside::{Source, SourceFault, raise};

/// What is left are the bytes from `at` on. A call moves at most `piece` bytes, and a `piece` of 0
/// counts as 1. The calls are numbered from 1, and those that `fail_calls` names fail; no call past
/// number 2^64 - 2 does.
#[derive(Debug, Drop)]
pub struct VecSource {
    pub bytes: Vec<u8>,
    pub piece: usize,
    pub fail_calls: Vec<u64>,
    pub calls: u64,
    pub faults: u64,
    pub at: usize,
    ghost within: { at ≤ vec_len bytes },
}

impl Source for VecSource {
    ghost left = { λ s. Some (drop s.at s.bytes.items) };

    ghost faults = { λ s. s.faults };

    fn take(&mut self, into: &mut [u8]) -> Result<usize, SourceFault>
        ensures bytes { Takes (Some (drop self.old.at self.old.bytes.items))
            (Some (drop self.new.at self.new.bytes.items)) result into.new }
        ensures cause { HasCause self.old.faults self.new.faults result }
        ensures exact { LeavesCount self.old.faults self.new.faults result }
        ensures number { self.new.calls ≡ raised self.old.calls }
        ensures fails { is_err result ≡ is_named self.old.fail_calls.items self.new.calls }
        ensures count { IfOk result (λ n. n
            ≡ moved_count (vec_len self.old.bytes - self.old.at) (length into.old) self.old.piece) }
        ensures rest { IfOk result (λ n. drop n into.new ≡ drop n into.old) }
        ensures nothing { OnErr result (into.new ≡ into.old) }
        ensures faults { self.new.faults ≡ raised_if (is_err result) self.old.faults }
        ensures same_bytes { self.new.bytes ≡ self.old.bytes }
        ensures same_piece { self.new.piece ≡ self.old.piece }
        ensures same_list { self.new.fail_calls ≡ self.old.fail_calls }
    {
        if number_call(&self.fail_calls, &mut self.calls) {
            raise(&mut self.faults);
            return Err(SourceFault);
        }
        let count = move_front(&self.bytes[self.at..], into, self.piece.max(1));
        self.at += count;
        Ok(count)
    }
}

// Copies at most `most` bytes to the front, and says how many.
fn move_front(rest: &[u8], into: &mut [u8], most: usize) -> usize
    ensures moved { into.new ≡ take result rest.now ++ drop result into.old }
    ensures count { result ≡ min (min (length rest.now) (length into.old)) most }
{
    let count = rest.len().min(into.len()).min(most);
    into[..count].copy_from_slice(&rest[..count]);
    count
}

#[cfg(test)]
mod tests {
    use super::*;
    use std::test::Fail;

    struct Row {
        name: &'static str,
        bytes: &'static [u8],
        piece: usize,
        fail_calls: &'static [u64],
        calls: u64,
        buffer: usize,
        // how many calls are made, and what they move, with ';' after each and '!' for a fault
        turns: usize,
        moved: &'static [u8],
        faults: u64,
    }

    const ROWS: [Row; 6] = [
        Row {
            name: "at most a piece",
            bytes: b"abcde",
            piece: 2,
            fail_calls: &[],
            calls: 0,
            buffer: 4,
            turns: 5,
            moved: b"ab;cd;e;;;",
            faults: 0,
        },
        Row {
            name: "a piece of 0 counts as 1",
            bytes: b"ab",
            piece: 0,
            fail_calls: &[],
            calls: 0,
            buffer: 4,
            turns: 3,
            moved: b"a;b;;",
            faults: 0,
        },
        Row {
            name: "at most the buffer",
            bytes: b"abcde",
            piece: 9,
            fail_calls: &[],
            calls: 0,
            buffer: 3,
            turns: 3,
            moved: b"abc;de;;",
            faults: 0,
        },
        Row {
            name: "an empty buffer",
            bytes: b"ab",
            piece: 9,
            fail_calls: &[],
            calls: 0,
            buffer: 0,
            turns: 2,
            moved: b";;",
            faults: 0,
        },
        Row {
            name: "calls are numbered from 1",
            bytes: b"abc",
            piece: 2,
            fail_calls: &[0, 2, 4],
            calls: 0,
            buffer: 4,
            turns: 5,
            moved: b"ab;!;c;!;;",
            faults: 2,
        },
        Row {
            name: "no call past 2^64 - 2 fails",
            bytes: b"abc",
            piece: 1,
            fail_calls: &[18446744073709551614, 18446744073709551615],
            calls: 18446744073709551613,
            buffer: 4,
            turns: 3,
            moved: b"!;a;b;",
            faults: 1,
        },
    ];

    #[test]
    fn sources(rt: HostRuntime) -> Result<(), Fail> {
        let alloc = rt.alloc();
        for row in &ROWS {
            let mut source = VecSource {
                bytes: Vec::from_slice(alloc, row.bytes)?,
                piece: row.piece,
                fail_calls: Vec::from_slice(alloc, row.fail_calls)?,
                calls: row.calls,
                faults: 0,
                at: 0,
            };
            let mut buffer = vec![in alloc; 0; row.buffer]?;
            let mut moved = Vec::new(alloc);
            for _ in 0..row.turns {
                match source.take(&mut buffer) {
                    Ok(count) => moved.extend_from_slice(&buffer[..count])?,
                    Err(SourceFault) => moved.push(b'!')?,
                }
                moved.push(b';')?;
            }
            assert_eq!(rt; moved.as_slice(), row.moved, "{}", row.name);
            assert_eq!(rt; source.faults, row.faults, "{}", row.name);
        }
        Ok(())
    }
}
