//! Writing words: `-` for None, and runs of bytes.
ghost use Rattle.std.specs.Prelude.{◌≡◌, ◌++◌, ◌∷◌, [], OnOk, string_bytes};
ghost use Rattle.std.specs.List.{flat_map};
ghost use Rattle.hm_base.specs.Bytes.{run_word};
ghost use Rattle.hm_journal.specs.Words.{option_word, runs_word, spaced};

use std::alloc::AllocError;
use std::fmt::Write;

/// Adds a space and the number, or `-`.
pub(crate) fn push_option(out: &mut String, number: Option<u64>) -> Result<(), AllocError>
    ensures { OnOk result (string_bytes out.new ≡ string_bytes out.old ++ spaced (option_word number ∷ [])) }
{
    match number {
        Some(number) => write!(out, " {number}"),
        None => out.push_str(" -"),
    }
}

#[tactic(auto, using(std::proofs::lemmas::Fmt::hex_byte))]
fn push_run(out: &mut String, byte: u8, len: u64) -> Result<(), AllocError>
    ensures { OnOk result (string_bytes out.new ≡ string_bytes out.old ++ run_word (byte, len)) }
{
    write!(out, "{byte:02x}*{len}")
}

// Adds each run behind a comma.
fn push_more_runs(out: &mut String, runs: &[(u8, u64)]) -> Result<(), AllocError>
    ensures { OnOk result
        (string_bytes out.new ≡ string_bytes out.old ++ flat_map (λ run. 44 ∷ run_word run) runs.now) }
{
    for (byte, len) in runs {
        out.push_str(",")?;
        push_run(out, *byte, *len)?;
    }
    Ok(())
}

/// Adds a space and the runs.
pub(crate) fn push_runs(out: &mut String, runs: &[(u8, u64)]) -> Result<(), AllocError>
    ensures { OnOk result (string_bytes out.new ≡ string_bytes out.old ++ spaced (runs_word runs.now ∷ [])) }
{
    match runs.split_first() {
        Some(((byte, len), more)) => {
            out.push_str(" ")?;
            push_run(out, *byte, *len)?;
            push_more_runs(out, more)
        }
        None => out.push_str(" -"),
    }
}
