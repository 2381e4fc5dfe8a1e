//! The text of the sums of the sizes of large blocks: one line for each round.
ghost use Rattle.std.specs.Prelude.{◌≡◌, ◌++◌, OnOk, IfOk, string_bytes};
ghost use Rattle.hm_report.specs.Totals.{total_line, totals_text};

use hm_base::NoMemory;
use std::alloc::{AllocError, Global};
use std::fmt::Write;

/// The text of the sums after each round, the first round first.
pub fn write_totals(alloc: Global, totals: &[u128]) -> Result<Vec<u8>, NoMemory>
    ensures { IfOk result (λ text. text.items ≡ totals_text totals.now) }
{
    let mut out = String::new(alloc);
    for (i, total) in totals.iter().enumerate() {
        push_total(&mut out, i + 1, *total)?;
    }
    Ok(out.into_bytes())
}

fn push_total(out: &mut String, round: usize, total: u128) -> Result<(), AllocError>
    ensures { OnOk result (string_bytes out.new ≡ string_bytes out.old ++ total_line round total) }
{
    write!(out, "round {round} large {total}\n")
}
