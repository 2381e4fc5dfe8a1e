//! Writing over the bytes of open slabs.
ghost use Rattle.std.specs.Prelude.{◌≡◌, ◌+◌, ◌<◌, ◌^◌, length, replicate};
ghost use Rattle.hm_model.specs.Runs.{expand};
ghost use Rattle.hm_class_rules.specs.Bytes.{overlaid_slabs};
ghost use Rattle.hm_class_book.specs.Book.{slab_pair, slabs_in, overlaid_slab};

use crate::book::OpenSlab;
use crate::overlay::{overlay, overlay_byte};
use crate::places::slab_start;
use hm_sizes::Shape;

// Writes over one slab. One that would begin past all addresses has none of the range.
fn write_slab(entry: &mut (u64, OpenSlab), shape: &Shape, addr: u64, written: &[u8])
    requires { addr + length written.now < 2 ^ 64 }
    ensures { slab_pair entry.new ≡ overlaid_slab shape.now addr written.now (slab_pair entry.old) }
{
    match slab_start(shape, entry.0) {
        Some(at) => overlay(&mut entry.1.bytes, at, addr, written),
        None => {}
    }
}

/// Writes bytes from an address on, where there are any.
pub(crate) fn write_slabs(opens: &mut [(u64, OpenSlab)], shape: &Shape, addr: u64, written: &[u8])
    requires { addr + length written.now < 2 ^ 64 }
    ensures { slabs_in opens.new ≡ overlaid_slabs shape.now addr written.now (slabs_in opens.old) }
{
    for entry in opens.iter_mut() {
        write_slab(entry, shape, addr, written);
    }
}

// Writes one byte over what lies in a slab. One that would begin past all addresses has none of the range.
fn fill_slab(entry: &mut (u64, OpenSlab), shape: &Shape, addr: u64, byte: u8, len: u64)
    requires { addr + len < 2 ^ 64 }
    ensures { slab_pair entry.new ≡ overlaid_slab shape.now addr (replicate len byte) (slab_pair entry.old) }
{
    match slab_start(shape, entry.0) {
        Some(at) => overlay_byte(&mut entry.1.bytes, at, addr, byte, len),
        None => {}
    }
}

/// Writes one byte so many times from an address on, where there are bytes.
pub(crate) fn fill_slabs(
    opens: &mut [(u64, OpenSlab)],
    shape: &Shape,
    addr: u64,
    byte: u8,
    len: u64,
)
    requires { addr + len < 2 ^ 64 }
    ensures { slabs_in opens.new ≡ overlaid_slabs shape.now addr (replicate len byte) (slabs_in opens.old) }
{
    for entry in opens.iter_mut() {
        fill_slab(entry, shape, addr, byte, len);
    }
}

/// Writes the bytes of runs from an address on, where there are any.
pub(crate) fn write_runs(
    opens: &mut [(u64, OpenSlab)],
    shape: &Shape,
    addr: u64,
    pairs: &[(u8, u64)],
)
    requires { addr + length (expand pairs.now) < 2 ^ 64 }
    ensures { slabs_in opens.new ≡ overlaid_slabs shape.now addr (expand pairs.now) (slabs_in opens.old) }
{
    let mut at = addr;
    for (byte, len) in pairs {
        fill_slabs(opens, shape, at, *byte, *len);
        at += *len;
    }
}
