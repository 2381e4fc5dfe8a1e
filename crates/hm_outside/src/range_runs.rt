//! The runs of whole ranges of bytes, which pages lend piece by piece.
ghost use Rattle.std.specs.Prelude.{◌≡◌, ◌+◌, ◌++◌, ◌<◌, ◌^◌, IsTrue, IfOk, OnOk, List, ℕ, length};
ghost use Rattle.hm_model.specs.Runs.{expand, total};
ghost use Rattle.hm_outside.specs.PageRuns.{IsHeld, Reads};
ghost use Rattle.hm_outside.specs.Piece.{bytes_in};

use crate::{Pages, Piece};
use hm_base::NoMemory;
use hm_model::Runs;

// Appends the bytes of a piece. A piece of one byte is appended as one run.
fn append_piece(runs: &mut Runs, piece: &Piece<'_>) -> Result<(), NoMemory>
    requires { total runs.old + length (bytes_in piece.now) < 2 ^ 64 }
    ensures appended { OnOk result (expand runs.new ≡ expand runs.old ++ bytes_in piece.now) }
{
    match piece {
        Piece::Same(byte, len) => runs.append_same(*byte, *len as u64),
        Piece::Bytes(bytes) => runs.append(bytes),
    }
}

/// Appends the bytes of a range, and says whether the pages lend them. Equal bytes take one run, however many they are,
/// and no vector: so do pages that nobody wrote.
pub fn append_range<P: Pages>(
    pages: &P,
    addr: u64,
    len: usize,
    runs: &mut Runs,
) -> Result<bool, NoMemory>
    requires { total runs.old + len < 2 ^ 64 }
    ensures count { IfOk result (λ lent. IsTrue lent → total runs.new ≡ total runs.old + len) }
    ensures held { IsTrue (P.told pages.now) → 0 < len
        → IfOk result (λ lent. IsTrue lent → IsHeld (P.runs pages.now) addr len) }
    ensures value { IsTrue (P.told pages.now) → IsHeld (P.runs pages.now) addr len → IfOk result (λ lent.
        IsTrue lent × (w : List ℕ) × Reads (P.runs pages.now) addr len w × (expand runs.new ≡ expand runs.old ++ w)) }
{
    let mut done = 0;
    while done < len {
        let Some(piece) = pages.piece(addr, len, done) else {
            return Ok(false);
        };
        append_piece(runs, &piece)?;
        done += piece.len();
    }
    Ok(true)
}
