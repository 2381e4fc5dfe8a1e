//! The bytes of live blocks: where a range of addresses lies, whether its bytes are those of some runs, and writing runs
//! over it. Runs are never expanded.
ghost use Rattle.std.specs.Prelude.{◌≡◌, ◌↔◌, ◌+◌, ◌<◌, ◌≤◌, ◌^◌, IsTrue, IfSome, IfNone, None, Some, length, replicate, take, drop};
ghost use Rattle.std.specs.Bool.{MatchBool};
ghost use Rattle.hm_base.specs.Lists.{written};
ghost use Rattle.hm_model.specs.Runs.{expand};
ghost use Rattle.hm_outside.specs.Piece.{bytes_in};
ghost use Rattle.hm_sizes.specs.declared.config.Config.{Config};
ghost use Rattle.hm_large_rules.specs.Bytes.{first_trap, bytes_read, overlaid_blocks, IsLeft};
ghost use Rattle.hm_large_rules.specs.State.{State, AreGuarded};
ghost use Rattle.hm_large_rules.specs.Laws.{IsSound};
ghost use Rattle.hm_large_book.specs.Book.{block_in, blocks_in};
ghost use Rattle.hm_large_book.specs.Bytes.{LiesAt, over_block};

use crate::blocks::{LiveBlock, holder};
use hm_frames::PageRun;
use hm_model::Runs;
use hm_outside::Piece;

// How many bytes a live block has from an address on: 0 where the address is in none.
fn left_at(live: &[(u64, LiveBlock)], addr: u64) -> u64
    ensures { (c : Config) (s : State) → IsSound c s → blocks_in live.now ≡ s.live → IsLeft s.live addr result }
{
    match holder(live, addr) {
        Some(index) => {
            let (start, block) = &live[index];
            block.bytes.len() as u64 - (addr - *start)
        }
        None => 0,
    }
}

// The first of so many addresses that is not accessible.
fn trap_at(live: &[(u64, LiveBlock)], addr: u64, len: u64) -> Option<u64>
    requires some { 1 ≤ len }
    requires low { addr < 2 ^ 47 }
    requires most { len ≤ 2 ^ 30 }
    ensures { (c : Config) (s : State) → IsSound c s → AreGuarded s.live → blocks_in live.now ≡ s.live
        → result ≡ first_trap s.live addr len }
{
    let left = left_at(live, addr);
    if left < len { Some(addr + left) } else { None }
}

/// Whether this is the first of so many addresses that is not accessible.
pub(crate) fn traps_at(live: &[(u64, LiveBlock)], addr: u64, len: u64, trap: u64) -> bool
    requires some { 1 ≤ len }
    requires low { addr < 2 ^ 47 }
    requires most { len ≤ 2 ^ 30 }
    ensures { (c : Config) (s : State) → IsSound c s → AreGuarded s.live → blocks_in live.now ≡ s.live
        → IsTrue result ↔ (first_trap s.live addr len ≡ Some trap) }
{
    match trap_at(live, addr, len) {
        Some(found) => found == trap,
        None => false,
    }
}

/// Which live block has a range of addresses, and how far into it they begin.
#[derive(Clone, Copy)]
pub struct Position {
    pub block: usize,
    pub offset: usize,
}

// Where so many addresses lie, if one live block has them all.
fn find_position(live: &[(u64, LiveBlock)], addr: u64, len: u64) -> Option<Position>
    requires some { 1 ≤ len }
    ensures within { IfSome result (λ position. position.block < length live.now) }
    ensures some { IfSome result (LiesAt live.now addr len) }
    ensures none { IfNone result ((c : Config) (s : State) → IsSound c s → AreGuarded s.live
        → blocks_in live.now ≡ s.live → first_trap s.live addr len ≡ None → ⊥) }
{
    match holder(live, addr) {
        Some(index) => {
            let (start, block) = &live[index];
            let left = block.bytes.len() as u64 - (addr - *start);
            if left < len {
                None
            } else {
                Some(Position {
                    block: index,
                    offset: (addr - *start) as usize,
                })
            }
        }
        None => None,
    }
}

// Whether all bytes are this one.
fn are_all(bytes: &[u8], byte: u8) -> bool
    ensures { IsTrue result ↔ (bytes.now ≡ replicate (length bytes.now) byte) }
{
    for other in bytes {
        if *other != byte {
            return false;
        }
    }
    true
}

// Whether all bytes of a piece are this one.
fn is_all(piece: &Piece<'_>, byte: u8) -> bool
    requires { 0 < length (bytes_in piece.now) }
    ensures { IsTrue result ↔ (bytes_in piece.now ≡ replicate (length (bytes_in piece.now)) byte) }
{
    match piece {
        Piece::Same(other, _) => *other == byte,
        Piece::Bytes(bytes) => are_all(bytes, byte),
    }
}

// Whether so many bytes from an offset on are all this one.
fn is_run(bytes: &PageRun, from: usize, len: usize, byte: u8) -> bool
    requires within { from + len ≤ length bytes.now }
    requires most { len ≤ 2 ^ 30 }
    requires low { from < 2 ^ 63 }
    ensures { IsTrue result ↔ (take len (drop from bytes.now) ≡ replicate len byte) }
{
    let mut done = 0;
    while done < len {
        let piece = bytes.front(from + done, len - done);
        if !is_all(&piece, byte) {
            return false;
        }
        done += piece.len();
    }
    true
}

// Whether the bytes from an offset on are those of runs.
fn are_bytes(bytes: &PageRun, from: usize, pairs: &[(u8, u64)]) -> bool
    requires within { from + length (expand pairs.now) ≤ length bytes.now }
    requires most { length (expand pairs.now) ≤ 2 ^ 30 }
    requires low { from < 2 ^ 62 }
    ensures { IsTrue result ↔ (expand pairs.now ≡ take (length (expand pairs.now)) (drop from bytes.now)) }
{
    let mut at = from;
    for (byte, len) in pairs {
        let end = at + *len as usize;
        if !is_run(bytes, at, *len as usize, *byte) {
            return false;
        }
        at = end;
    }
    true
}

// Writes the bytes of runs from an offset on.
fn write_runs(bytes: &mut PageRun, from: usize, pairs: &[(u8, u64)])
    requires within { from + length (expand pairs.now) ≤ length bytes.old }
    requires most { length (expand pairs.now) ≤ 2 ^ 30 }
    requires low { from < 2 ^ 62 }
    ensures { bytes.new ≡ written bytes.old from (expand pairs.now) }
{
    let mut at = from;
    for (byte, len) in pairs {
        let end = at + *len as usize;
        bytes.fill(at, *len as usize, *byte);
        at = end;
    }
}

// Whether so many bytes from an offset on are those of runs.
fn part_is(bytes: &PageRun, offset: usize, len: usize, runs: &Runs) -> bool
    requires fits { offset + len ≤ length bytes.now }
    requires most { len ≤ 2 ^ 30 }
    requires low { offset < 2 ^ 62 }
    ensures { IsTrue result ↔ ((length (expand runs.now) ≡ len) × (expand runs.now ≡ take len (drop offset bytes.now))) }
{
    if runs.len() != len as u64 {
        return false;
    }
    are_bytes(bytes, offset, runs.pairs())
}

/// Whether the bytes of a range are those of runs.
pub(crate) fn has_bytes(live: &[(u64, LiveBlock)], addr: u64, len: u64, runs: &Runs) -> bool
    requires some { 1 ≤ len }
    requires low { addr < 2 ^ 47 }
    requires most { len ≤ 2 ^ 30 }
    ensures { (c : Config) (s : State) → IsSound c s → AreGuarded s.live → blocks_in live.now ≡ s.live
        → IsTrue result ↔ ((length (expand runs.now) ≡ len) × (first_trap s.live addr len ≡ None)
        × (expand runs.now ≡ bytes_read s.live addr len)) }
{
    match find_position(live, addr, len) {
        Some(position) => part_is(
            &live[position.block].1.bytes,
            position.offset,
            len as usize,
            runs,
        ),
        None => false,
    }
}

// Writes the bytes of runs into a block.
fn write_block(entry: &mut (u64, LiveBlock), offset: usize, runs: &Runs)
    requires fits { offset + length (expand runs.now) ≤ length entry.old.1.bytes }
    requires most { length (expand runs.now) ≤ 2 ^ 30 }
    requires low { offset < 2 ^ 62 }
    ensures { block_in entry.new ≡ over_block offset (expand runs.now) (block_in entry.old) }
{
    write_runs(&mut entry.1.bytes, offset, runs.pairs());
}

// Writes the bytes of runs from an address on, if all the addresses are accessible. Answers whether they are.
fn write(live: &mut [(u64, LiveBlock)], addr: u64, runs: &Runs) -> bool
    requires some { 1 ≤ length (expand runs.now) }
    requires low { addr < 2 ^ 47 }
    requires most { length (expand runs.now) ≤ 2 ^ 30 }
    ensures { (c : Config) (s : State) → IsSound c s → AreGuarded s.live → blocks_in live.old ≡ s.live
        → MatchBool result ((first_trap s.live addr (length (expand runs.now)) ≡ None)
        × (blocks_in live.new ≡ overlaid_blocks addr (expand runs.now) s.live))
        (first_trap s.live addr (length (expand runs.now)) ≡ None → ⊥) }
{
    match find_position(live, addr, runs.len()) {
        Some(position) => {
            write_block(&mut live[position.block], position.offset, runs);
            true
        }
        None => false,
    }
}

/// Writes the bytes of runs from an address on, if all the addresses are accessible. Answers whether they are.
pub(crate) fn write_live(live: &mut Vec<(u64, LiveBlock)>, addr: u64, runs: &Runs) -> bool
    requires some { 1 ≤ length (expand runs.now) }
    requires low { addr < 2 ^ 47 }
    requires most { length (expand runs.now) ≤ 2 ^ 30 }
    ensures { (c : Config) (s : State) → IsSound c s → AreGuarded s.live → blocks_in live.old.items ≡ s.live
        → MatchBool result ((first_trap s.live addr (length (expand runs.now)) ≡ None)
        × (blocks_in live.new.items ≡ overlaid_blocks addr (expand runs.now) s.live))
        (first_trap s.live addr (length (expand runs.now)) ≡ None → ⊥) }
{
    write(live, addr, runs)
}
