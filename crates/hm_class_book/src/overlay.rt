//! Writing bytes over others that stand at an address.
ghost use Rattle.std.specs.Prelude.{◌≡◌, ◌+◌, ◌<◌, ◌^◌, length, replicate};
ghost use Rattle.hm_model.specs.Overlaid.{overlaid};

use crate::slab_bytes::SlabBytes;

/// Writes what lies in the range of these bytes, of which the first stands at `at`.
pub(crate) fn overlay(bytes: &mut SlabBytes, at: u64, addr: u64, written: &[u8])
    requires { addr + length written.now < 2 ^ 64 }
    ensures { bytes.new ≡ overlaid addr written.now at bytes.old }
{
    let end = addr + written.len() as u64;
    let from = addr.max(at);
    let to = end.min(at.saturating_add(bytes.len() as u64));
    if from < to {
        let part = &written[(from - addr) as usize..(to - addr) as usize];
        bytes.write((from - at) as usize, part);
    }
}

/// The same where one byte is written so many times.
pub(crate) fn overlay_byte(bytes: &mut SlabBytes, at: u64, addr: u64, byte: u8, len: u64)
    requires { addr + len < 2 ^ 64 }
    ensures { bytes.new ≡ overlaid addr (replicate len byte) at bytes.old }
{
    let end = addr + len;
    let from = addr.max(at);
    let to = end.min(at.saturating_add(bytes.len() as u64));
    if from < to {
        bytes.fill((from - at) as usize, (to - from) as usize, byte);
    }
}
