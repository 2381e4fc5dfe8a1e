//! The first line of a text.
ghost use Rattle.std.specs.Prelude.{◌≡◌, ◌==◌, ◌<◌, ℕ, List, [], ◌∷◌, ◌++◌, length, position, IfSome, MatchOption};
ghost use Rattle.hm_check.specs.Verdicts.{lines_in};

// Where the first line feed stands.
fn line_end(bytes: &[u8]) -> Option<usize>
    ensures { result ≡ position (λ b. b == 10) bytes.now }
{
    bytes.iter().position(|b| *b == b'\n')
}

/// The first line with its line feed, and what stands behind it; `None` where no line ends.
pub(crate) fn first_line(bytes: &[u8]) -> Option<(&[u8], &[u8])>
    ensures cut { MatchOption result (lines_in bytes.now ≡ bytes.now ∷ []) (λ (line, rest).
        (piece : List ℕ) × (line.now ≡ piece ++ 10 ∷ []) × (lines_in bytes.now ≡ piece ∷ lines_in rest.now)) }
    ensures shorter { IfSome result (λ (line, rest). length rest.now < length bytes.now) }
{
    let end = line_end(bytes)?;
    Some((&bytes[..end + 1], &bytes[end + 1..]))
}
