//! A sink in memory with a fixed room, some of whose calls fail. It tells what it holds.
ghost use Rattle.std.specs.Prelude.{Some, ◌≡◌, ◌≤◌, ◌||◌, [], vec_len, vec_capacity, IfOk, length, is_err};
ghost use Rattle.hm_outside.specs.Streams.{Puts};
ghost use Rattle.hm_outside.specs.Causes.{HasCause, ZeroHasCause, PutLeavesCount};
ghost use Rattle.hm_outside.specs.Counts.{raised, raised_if, is_refused};
ghost use Rattle.hm_fakes.specs.Numbered.{is_named};
ghost use Rattle.hm_fakes.specs.Fakes.{is_full, put_count};

use crate::numbered::number_call;
use hm_base::NoMemory;
use hm_outside::{Sink, SinkFault, raise};
use std::alloc::Global;

/// It holds at most `room` bytes and takes at most `piece` bytes in one call. The calls are numbered
/// from 1, and those that `fail_calls` names fail; no call past number 2^64 - 2 does for its number.
#[derive(Debug, Drop)]
pub struct VecSink {
    pub held: Vec<u8>,
    pub room: usize,
    pub piece: usize,
    pub fail_calls: Vec<u64>,
    pub calls: u64,
    pub faults: u64,
    ghost has_room: { room ≤ vec_capacity held },
}

impl VecSink {
    /// An empty sink with the memory for `room` bytes, so that its `put` takes none.
    pub fn build(
        alloc: Global,
        room: usize,
        piece: usize,
        fail_calls: Vec<u64>,
    ) -> Result<VecSink, NoMemory>
        ensures empty { IfOk result (λ s. s.held.items ≡ []) }
        ensures room { IfOk result (λ s. s.room ≡ room) }
        ensures piece { IfOk result (λ s. s.piece ≡ piece) }
        ensures list { IfOk result (λ s. s.fail_calls ≡ fail_calls) }
        ensures calls { IfOk result (λ s. s.calls ≡ 0) }
        ensures faults { IfOk result (λ s. s.faults ≡ 0) }
    {
        let held = Vec::with_capacity(alloc, room)?;
        Ok(VecSink {
            held,
            room,
            piece,
            fail_calls,
            calls: 0,
            faults: 0,
        })
    }
}

impl Sink for VecSink {
    ghost held = { λ s. Some s.held.items };

    ghost faults = { λ s. s.faults };

    fn put(&mut self, piece: &[u8]) -> Result<usize, SinkFault>
        ensures bytes { Puts (Some self.old.held.items) (Some self.new.held.items) result piece.now }
        ensures cause { HasCause self.old.faults self.new.faults result }
        ensures zero { ZeroHasCause self.old.faults self.new.faults result (length piece.now) }
        ensures exact { PutLeavesCount self.old.faults self.new.faults result (length piece.now) }
        ensures number { self.new.calls ≡ raised self.old.calls }
        ensures fails { is_err result ≡ (is_named self.old.fail_calls.items self.new.calls
            || is_full (vec_len self.old.held) self.old.room (length piece.now)) }
        ensures count { IfOk result (λ n. n
            ≡ put_count (vec_len self.old.held) self.old.room (length piece.now) self.old.piece) }
        ensures faults { self.new.faults
            ≡ raised_if (is_err result || is_refused result (length piece.now)) self.old.faults }
        ensures same_room { self.new.room ≡ self.old.room }
        ensures same_piece { self.new.piece ≡ self.old.piece }
        ensures same_list { self.new.fail_calls ≡ self.old.fail_calls }
    {
        let named = number_call(&self.fail_calls, &mut self.calls);
        let full = self.room <= self.held.len() && !piece.is_empty();
        if named || full {
            raise(&mut self.faults);
            return Err(SinkFault);
        }
        let free = self.room.saturating_sub(self.held.len());
        let count = piece.len().min(self.piece).min(free);
        if count == 0 && !piece.is_empty() {
            raise(&mut self.faults);
        }
        self.held.extend_from_slice(&piece[..count]).unwrap();
        Ok(count)
    }
}

#[cfg(test)]
mod tests {
    use super::*;
    use std::fmt::Write;
    use std::test::Fail;

    struct Row {
        name: &'static str,
        room: usize,
        piece: usize,
        fail_calls: &'static [u64],
        puts: &'static [&'static [u8]],
        // how many bytes each call takes, with ';' after each and '!' for a fault
        answers: &'static str,
        held: &'static [u8],
        faults: u64,
    }

    const ROWS: [Row; 6] = [
        Row {
            name: "a room of 5",
            room: 5,
            piece: 5,
            fail_calls: &[],
            puts: &[b"1.1.1 given", b" given", b""],
            answers: "5;!;0;",
            held: b"1.1.1",
            faults: 1,
        },
        Row {
            name: "at most a piece, and at most the room",
            room: 3,
            piece: 2,
            fail_calls: &[],
            puts: &[b"abc", b"cde", b"d"],
            answers: "2;1;!;",
            held: b"abc",
            faults: 1,
        },
        Row {
            name: "a piece of 0",
            room: 3,
            piece: 0,
            fail_calls: &[2],
            puts: &[b"ab", b"ab", b"ab", b""],
            answers: "0;!;0;0;",
            held: b"",
            faults: 3,
        },
        Row {
            name: "no room",
            room: 0,
            piece: 4,
            fail_calls: &[],
            puts: &[b"a", b""],
            answers: "!;0;",
            held: b"",
            faults: 1,
        },
        Row {
            name: "calls are numbered from 1",
            room: 9,
            piece: 4,
            fail_calls: &[0, 1, 3],
            puts: &[b"ab", b"ab", b"cd", b"cd"],
            answers: "!;2;!;2;",
            held: b"abcd",
            faults: 2,
        },
        Row {
            name: "a named call of an empty piece",
            room: 9,
            piece: 4,
            fail_calls: &[1],
            puts: &[b"", b""],
            answers: "!;0;",
            held: b"",
            faults: 1,
        },
    ];

    #[test]
    fn sinks(rt: HostRuntime) -> Result<(), Fail> {
        let alloc = rt.alloc();
        for row in &ROWS {
            let fail_calls = Vec::from_slice(alloc, row.fail_calls)?;
            let mut sink = VecSink::build(alloc, row.room, row.piece, fail_calls)?;
            let mut answers = String::new(alloc);
            for put in row.puts {
                match sink.put(put) {
                    Ok(count) => write!(answers, "{count};")?,
                    Err(SinkFault) => answers.push_str("!;")?,
                }
            }
            assert_eq!(rt; answers.as_str(), row.answers, "{}", row.name);
            assert_eq!(rt; sink.held.as_slice(), row.held, "{}", row.name);
            assert_eq!(rt; sink.faults, row.faults, "{}", row.name);
        }
        Ok(())
    }

    #[test]
    fn no_call_past_the_last_number_fails(rt: HostRuntime) -> Result<(), Fail> {
        let alloc = rt.alloc();
        let fail_calls = Vec::from_slice(alloc, &[u64::MAX - 1, u64::MAX])?;
        let mut sink = VecSink::build(alloc, 9, 9, fail_calls)?;
        sink.calls = u64::MAX - 2;
        sink.faults = u64::MAX;
        assert_eq!(rt; sink.put(b"a"), Err(SinkFault));
        assert_eq!(rt; sink.put(b"a"), Ok(1));
        assert_eq!(rt; sink.put(b"b"), Ok(1));
        assert_eq!(rt; sink.faults, u64::MAX);
        Ok(())
    }
}
