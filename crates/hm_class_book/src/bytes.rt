//! The bytes of open slabs.
ghost use Rattle.std.specs.Prelude.{◌≡◌, ◌+◌, ◌++◌, ◌-◌, ◌<◌, ◌≤◌, ◌^◌, ℕ, None, [], length, take, drop, replicate, slice_get, slice_index, option_map, IfOk, OnOk};
ghost use Rattle.std.specs.Option.{option_map_or};
ghost use Rattle.std.specs.Int.{from_le_bytes};
ghost use mir.Syntax.{w64};
ghost use Rattle.hm_model.specs.Maps.{at};
ghost use Rattle.hm_outside.specs.Piece.{bytes_in};
ghost use Rattle.hm_sizes.specs.Shapes.{IsShape, slab_at, slab_of};
ghost use Rattle.hm_class_rules.specs.Bytes.{byte_at, first_trap, bytes_read, usable_bytes, first_nonzero, kept_canary, found_canary};
ghost use Rattle.hm_class_book.specs.Book.{state_in, slab_in, slabs_in};

use crate::book::{Book, OpenSlab};
use crate::places::slab_of;
use crate::slab_bytes::SlabBytes;
use hm_base::NoMemory;
use hm_outside::Piece;
use hm_sizes::Shape;
use std::alloc::Global;

// The open slab of a number.
fn find_slab(opens: &[(u64, OpenSlab)], slab: u64) -> Option<&OpenSlab>
    ensures { at slab (slabs_in opens.now) ≡ option_map (λ entry. slab_in entry.now) result }
{
    for (number, open) in opens {
        if *number == slab {
            return Some(open);
        }
    }
    None
}

// Bytes of a slab from an offset on, at most so many: at least one, where it is open and has one.
fn piece_of(opens: &[(u64, OpenSlab)], slab: u64, from: u64, len: u64) -> Piece<'_>
    requires { 1 ≤ len }
    ensures value { bytes_in result
        ≡ take (length (bytes_in result)) (drop from (option_map_or (λ b. b.bytes) (at slab (slabs_in opens.now)) [])) }
    ensures most { length (bytes_in result) ≤ len }
    ensures some { from < length (option_map_or (λ b. b.bytes) (at slab (slabs_in opens.now)) [])
        → 0 < length (bytes_in result) }
{
    match find_slab(opens, slab) {
        Some(entry) => entry.bytes.piece(from, len),
        None => Piece::Bytes(&[]),
    }
}

// Adds the first bytes of a piece, as many as there are up to so many, and says how many.
fn add_front(bytes: &mut Vec<u8>, piece: &Piece<'_>, most: u64) -> Result<u64, NoMemory>
    ensures added { IfOk result (λ n. bytes.new.items ≡ bytes.old.items ++ take most (bytes_in piece.now)) }
    ensures count { IfOk result (λ n. n ≡ length (take most (bytes_in piece.now))) }
{
    match piece {
        Piece::Same(byte, len) => {
            let count = most.min(*len as u64);
            add_same(bytes, *byte, count)?;
            Ok(count)
        }
        Piece::Bytes(slice) => {
            let front = &slice[..most.min(slice.len() as u64) as usize];
            bytes.extend_from_slice(front)?;
            Ok(front.len() as u64)
        }
    }
}

// Adds one byte, so many times.
fn add_same(bytes: &mut Vec<u8>, byte: u8, count: u64) -> Result<(), NoMemory>
    ensures { OnOk result (bytes.new.items ≡ bytes.old.items ++ replicate count byte) }
{
    for _ in 0..count {
        bytes.push(byte)?;
    }
    Ok(())
}

// One of the eight bytes from an offset on, or 0 past the last.
fn byte(bytes: &SlabBytes, offset: usize, index: usize) -> u8
    requires low { offset < 2 ^ 32 }
    requires index { index < 8 }
    ensures { result ≡ slice_index (take 8 (drop offset bytes.now)) index }
{
    bytes.get(offset + index).unwrap_or(0)
}

// The number whose bytes stand from an offset on, lowest first.
fn number_at(bytes: &SlabBytes, offset: usize) -> u64
    requires { offset < 2 ^ 32 }
    ensures { result ≡ from_le_bytes w64 (take 8 (drop offset bytes.now)) }
{
    u64::from_le_bytes([
        byte(bytes, offset, 0),
        byte(bytes, offset, 1),
        byte(bytes, offset, 2),
        byte(bytes, offset, 3),
        byte(bytes, offset, 4),
        byte(bytes, offset, 5),
        byte(bytes, offset, 6),
        byte(bytes, offset, 7),
    ])
}

// How far an address lies past the beginning of its slab.
#[tactic(auto, using(crate::proofs::Addresses::slab_some, crate::proofs::Addresses::offset_is))]
fn offset_of(shape: &Shape, addr: u64) -> u64
    requires { IsShape shape.now }
    ensures value { result ≡ addr - slab_at shape.now (slab_of shape.now addr) }
    ensures low { result < 131072 }
{
    addr.saturating_sub(shape.first) % shape.slab
}

impl Book {
    // The slab of an address, if it is open.
    fn slab_with(&self, shape: &Shape, addr: u64) -> Option<&OpenSlab>
        requires { IsShape shape.now }
        ensures { at (slab_of shape.now addr) (state_in self.now).opens ≡ option_map (λ entry. slab_in entry.now) result }
    {
        find_slab(&self.opens, slab_of(shape, addr))
    }

    /// The first usable byte of a slot that is not zero.
    pub fn stain(&self, shape: &Shape, addr: u64) -> Option<(u64, u8)>
        requires { IsShape shape.now }
        ensures { result ≡ first_nonzero (usable_bytes shape.now (state_in self.now) addr) }
    {
        match self.slab_with(shape, addr) {
            Some(slab) => slab
                .bytes
                .first_nonzero(offset_of(shape, addr), shape.usable()),
            None => None,
        }
    }

    /// The canary of the slab of an address.
    pub fn kept_canary(&self, shape: &Shape, addr: u64) -> u64
        requires { IsShape shape.now }
        ensures { result ≡ kept_canary shape.now (state_in self.now) addr }
    {
        match self.slab_with(shape, addr) {
            Some(slab) => slab.canary,
            None => 0,
        }
    }

    /// The last 8 bytes of a slot, as a number.
    pub fn found_canary(&self, shape: &Shape, addr: u64) -> u64
        requires shape { IsShape shape.now }
        requires below { addr + 131072 < 2 ^ 64 }
        ensures { result ≡ found_canary shape.now (state_in self.now) addr }
    {
        let end = addr + shape.usable();
        match self.slab_with(shape, end) {
            Some(slab) => number_at(&slab.bytes, offset_of(shape, end) as usize),
            None => 0,
        }
    }

    // Bytes of a slab from an address on: at least one, where it is accessible.
    #[tactic(auto, using(crate::proofs::Addresses::slab_some))]
    fn rest(&self, shape: &Shape, addr: u64) -> Piece<'_>
        requires { IsShape shape.now }
        ensures bytes { (k : ℕ) → k < length (bytes_in result)
            → byte_at shape.now (state_in self.now) (addr + k) ≡ slice_get (bytes_in result) k }
        ensures none { length (bytes_in result) ≡ 0 → byte_at shape.now (state_in self.now) addr ≡ None }
    {
        match addr.checked_sub(shape.first) {
            Some(offset) => {
                let from = offset % shape.slab;
                piece_of(&self.opens, offset / shape.slab, from, shape.slab - from)
            }
            None => Piece::Bytes(&[]),
        }
    }

    /// The first address of a range that is not accessible.
    pub fn first_trap(&self, shape: &Shape, addr: u64, len: u64) -> Option<u64>
        requires shape { IsShape shape.now }
        requires range { addr + len < 2 ^ 64 }
        ensures { result ≡ first_trap shape.now (state_in self.now) addr len }
    {
        let end = addr + len;
        let mut at = addr;
        while at < end {
            let left = self.rest(shape, at).len() as u64;
            if left == 0 {
                return Some(at);
            }
            at = end.min(at.saturating_add(left));
        }
        None
    }

    // Adds the bytes from an address on, at most so many and no more than its slab has, or a zero where it is not
    // accessible. It says how many.
    fn add_rest(
        &self,
        shape: &Shape,
        addr: u64,
        most: u64,
        bytes: &mut Vec<u8>,
    ) -> Result<u64, NoMemory>
        requires shape { IsShape shape.now }
        requires some { 1 ≤ most }
        ensures added { IfOk result (λ n. bytes.new.items
            ≡ bytes.old.items ++ bytes_read shape.now (state_in self.now) addr n) }
        ensures some { IfOk result (λ n. 1 ≤ n) }
        ensures few { IfOk result (λ n. n ≤ most) }
    {
        let rest = self.rest(shape, addr);
        if rest.len() == 0 {
            bytes.push(0)?;
            return Ok(1);
        }
        let count = add_front(bytes, &rest, most)?;
        Ok(count)
    }

    /// The bytes of a range, of which those that are not accessible count as zero.
    pub fn bytes_read(
        &self,
        alloc: Global,
        shape: &Shape,
        addr: u64,
        len: u64,
    ) -> Result<Vec<u8>, NoMemory>
        requires shape { IsShape shape.now }
        requires range { addr + len < 2 ^ 64 }
        ensures { IfOk result (λ bytes. bytes.items ≡ bytes_read shape.now (state_in self.now) addr len) }
    {
        let end = addr + len;
        let mut bytes = Vec::new(alloc);
        let mut at = addr;
        while at < end {
            at += self.add_rest(shape, at, end - at, &mut bytes)?;
        }
        Ok(bytes)
    }
}
