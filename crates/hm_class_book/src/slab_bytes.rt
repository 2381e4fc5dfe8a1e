//! The bytes of an open slab. Reading touches no page, and writing zeros none, so that memory is taken by the pages
//! that had other bytes written to them.
ghost use Rattle.std.specs.Prelude.{◌≡◌, ◌≢◌, ◌+◌, ◌%◌, ◌≤◌, ◌<◌, ◌^◌, ℕ, length, take, drop, replicate, get_or, slice_get, IfOk, IfSome, IfNone};
ghost use Rattle.hm_base.specs.Lists.{zeros, written};
ghost use Rattle.hm_outside.specs.Piece.{bytes_in};
ghost use Rattle.hm_class_rules.specs.Bytes.{first_nonzero};

use hm_base::NoMemory;
use hm_frames::PageRun;
use hm_outside::Piece;
use std::alloc::Global;
use std::marker::Model;

/// The bytes of a page.
const PAGE: u64 = 4096;

/// The bytes of an open slab, or none, where slabs have no bytes. Contracts see the list of its bytes.
#[derive(Drop)]
pub struct SlabBytes {
    run: Option<PageRun>,
}

impl Model for SlabBytes {
    ghost use Rattle.std.specs.Prelude.{ℕ, List, [], unwrap_or};
    ghost use Rattle.std.specs.Coded.{coded_ℕ, coded_list};

    ghost Value = { List ℕ };

    ghost coded = { coded_list coded_ℕ };

    ghost view = { λ b. unwrap_or b.run [] };
}

// The first byte of a piece.
fn first_byte(piece: &Piece<'_>) -> u8
    requires { 0 < length (bytes_in piece.now) }
    ensures { result ≡ get_or (bytes_in piece.now) 0 0 }
{
    match piece {
        Piece::Same(byte, _) => *byte,
        Piece::Bytes(bytes) => bytes[0],
    }
}

// One byte of a run.
fn byte_of(run: &PageRun, index: usize) -> Option<u8>
    ensures { result ≡ slice_get run.now index }
{
    if index < run.len() {
        Some(first_byte(&run.front(index, 1)))
    } else {
        None
    }
}

// Which is the first byte that is not zero.
fn nonzero_at(bytes: &[u8]) -> Option<usize>
    ensures found { IfSome result (λ i. (i < length bytes.now) × (get_or bytes.now i 0 ≢ 0)) }
    ensures before { IfSome result (λ i. (k : ℕ) → k < i → get_or bytes.now k 0 ≡ 0) }
    ensures none { IfNone result ((k : ℕ) → k < length bytes.now → get_or bytes.now k 0 ≡ 0) }
{
    for i in 0..bytes.len() {
        if bytes[i] != 0 {
            return Some(i);
        }
    }
    None
}

// The first byte of a piece that is not zero: which it is, and its value. Of a piece of one byte the first is looked at.
fn nonzero_in(piece: &Piece<'_>) -> Option<(usize, u8)>
    requires some { 0 < length (bytes_in piece.now) }
    ensures found { IfSome result (λ r. (r.0 < length (bytes_in piece.now)) × (r.1 ≢ 0)) }
    ensures value { IfSome result (λ r. r.1 ≡ get_or (bytes_in piece.now) r.0 0) }
    ensures before { IfSome result (λ r. (k : ℕ) → k < r.0 → get_or (bytes_in piece.now) k 0 ≡ 0) }
    ensures none { IfNone result ((k : ℕ) → k < length (bytes_in piece.now) → get_or (bytes_in piece.now) k 0 ≡ 0) }
{
    match piece {
        Piece::Same(0, _) => None,
        Piece::Same(byte, _) => Some((0, *byte)),
        Piece::Bytes(bytes) => {
            let index = nonzero_at(bytes)?;
            Some((index, bytes[index]))
        }
    }
}

// The first byte that is not zero among so many from an offset on: how far behind it that stands, and what it is.
fn first_nonzero(run: &PageRun, from: usize, len: usize) -> Option<(u64, u8)>
    requires within { from + len ≤ length run.now }
    requires most { from + len < 2 ^ 64 }
    ensures { result ≡ first_nonzero (take len (drop from run.now)) }
{
    let mut done = 0;
    while done < len {
        let piece = run.front(from + done, len - done);
        if let Some((index, byte)) = nonzero_in(&piece) {
            return Some(((done + index) as u64, byte));
        }
        done += piece.len();
    }
    None
}

// Copies bytes over others.
fn copy_bytes(target: &mut [u8], bytes: &[u8])
    requires { length bytes.now ≡ length target.old }
    ensures { target.new ≡ bytes.now }
{
    target.copy_from_slice(bytes);
}

// Writes bytes from an offset on.
fn write_bytes(run: &mut PageRun, from: usize, bytes: &[u8])
    requires { from + length bytes.now ≤ length run.old }
    ensures { run.new ≡ written run.old from bytes.now }
{
    copy_bytes(run.part_mut(from, bytes.len()), bytes);
}

// Writes one byte over so many from an offset on.
fn fill_bytes(run: &mut PageRun, from: usize, len: usize, byte: u8)
    requires { from + len ≤ length run.old }
    ensures { run.new ≡ written run.old from (replicate len byte) }
{
    run.fill(from, len, byte);
}

impl SlabBytes {
    /// So many zeros, in whole pages.
    pub fn zeroed(alloc: Global, len: u64) -> Result<SlabBytes, NoMemory>
        requires pages { len % 4096 ≡ 0 }
        requires most { len ≤ 2 ^ 30 }
        ensures { IfOk result (λ bytes. bytes ≡ zeros len) }
    {
        let run = if len == 0 {
            None
        } else {
            Some(PageRun::zeroed(alloc, (len / PAGE) as u32)?)
        };
        Ok(SlabBytes { run })
    }

    /// How many bytes there are.
    pub fn len(&self) -> usize
        ensures { result ≡ length self.now }
    {
        match &self.run {
            Some(run) => run.len(),
            None => 0,
        }
    }

    /// One byte.
    pub fn get(&self, index: usize) -> Option<u8>
        ensures { result ≡ slice_get self.now index }
    {
        match &self.run {
            Some(run) => byte_of(run, index),
            None => None,
        }
    }

    /// Bytes from an offset on, at most so many: at least one, where there is one.
    pub fn piece(&self, from: u64, len: u64) -> Piece<'_>
        requires { 1 ≤ len }
        ensures value { bytes_in result ≡ take (length (bytes_in result)) (drop from self.now) }
        ensures most { length (bytes_in result) ≤ len }
        ensures some { from < length self.now → 0 < length (bytes_in result) }
    {
        match &self.run {
            Some(run) => {
                let all = run.len() as u64;
                if from < all {
                    run.front(from as usize, len.min(all - from) as usize)
                } else {
                    Piece::Bytes(&[])
                }
            }
            None => Piece::Bytes(&[]),
        }
    }

    /// The first byte that is not zero among so many from an offset on, or among as many as there are: how far behind
    /// the offset it stands, and what it is.
    pub fn first_nonzero(&self, from: u64, len: u64) -> Option<(u64, u8)>
        ensures { result ≡ first_nonzero (take len (drop from self.now)) }
    {
        match &self.run {
            Some(run) => {
                let all = run.len() as u64;
                let start = from.min(all);
                let count = len.min(all - start);
                first_nonzero(run, start as usize, count as usize)
            }
            None => None,
        }
    }

    /// Writes bytes from an offset on.
    pub fn write(&mut self, from: usize, bytes: &[u8])
        requires { from + length bytes.now ≤ length self.old }
        ensures { self.new ≡ written self.old from bytes.now }
    {
        match &mut self.run {
            Some(run) => write_bytes(run, from, bytes),
            None => {}
        }
    }

    /// Writes one byte over so many from an offset on.
    pub fn fill(&mut self, from: usize, len: usize, byte: u8)
        requires { from + len ≤ length self.old }
        ensures { self.new ≡ written self.old from (replicate len byte) }
    {
        match &mut self.run {
            Some(run) => fill_bytes(run, from, len, byte),
            None => {}
        }
    }
}
