//! Names of at most 32 bytes, each kept in itself, in the order of their bytes.
ghost use Rattle.std.specs.Prelude.{◌≡◌, ◌≤◌, ◌+◌, ◌-◌, ◌++◌, length, take, drop, replicate, true, false, nat_eq, IfSome, IfNone};
ghost use Rattle.std.specs.List.{list_all};
ghost use Rattle.hm_trace.specs.Names.{is_name, is_name_byte};
ghost use Rattle.std.proofs.Common.{rules};
ghost use Rattle.std.specs.Cmp.{partial_order_from_own_ties, partial_equiv_from_equiv};
ghost use Rattle.std.specs.Cmp.Lexicographic.{pointwise, slice_cmp, on_texts, on_texts_equal};
ghost use Rattle.std.specs.Cmp.Rules.{comparing};
ghost use Rattle.std.specs.Ordering.{nat_cmp, on, as_partial_cmp};
ghost use Rattle.std.specs.Slice.Scan.{big_endian};

use std::cmp::Ordering;

/// A name of a block: a letter from `a` to `z`, then at most 31 such letters, digits or `_`, and not `null`.
#[derive(Clone, Copy, Debug)]
pub struct Name {
    len: u8,
    bytes: [u8; 32],
    ghost within: { len ≤ 32 },
    ghost zeros: { bytes ≡ take len bytes ++ replicate (32 - len) 0 },
}

impl PartialEq for Name {
    ghost eq = { on (λ n. take n.len n.bytes) (pointwise nat_eq) };

    ghost laws = { partial_equiv_from_equiv (on_texts_equal (λ n. take n.len n.bytes)) };

    fn eq(&self, other: &Name) -> bool {
        self.bytes() == other.bytes()
    }
}

impl Eq for Name {
    ghost laws = { on_texts_equal (λ n. take n.len n.bytes) };
}

impl PartialOrd for Name {
    ghost partial_cmp = { as_partial_cmp (on (λ n. take n.len n.bytes) (slice_cmp nat_cmp)) };

    ghost laws = { partial_order_from_own_ties (Prim.search (comparing, rules)) (Prim.search (comparing, rules)) };

    fn partial_cmp(&self, other: &Name) -> Option<Ordering> {
        Some(self.cmp(other))
    }
}

impl Ord for Name {
    ghost cmp = { on (λ n. take n.len n.bytes) (slice_cmp nat_cmp) };

    ghost total = { on_texts (λ n. take n.len n.bytes) };

    ghost matches_partial_cmp = { Prim.search (comparing, rules) };

    ghost matches_eq = { Prim.search (comparing, rules) };

    // Zeros stand behind a name, so whole words tell which name is less. Where all are equal, the shorter name is.
    fn cmp(&self, other: &Name) -> Ordering {
        match order_of(&self.bytes, &other.bytes) {
            Ordering::Equal => self.len.cmp(&other.len),
            found => found,
        }
    }
}

impl Name {
    ghost use Rattle.hm_trace.specs.Views.{name_view};

    /// The name that a word is, if it is one.
    #[tactic(auto, unfolding(crate::specs::Names::is_name))]
    pub fn of(word: &[u8]) -> Option<Name>
        ensures some { IfSome result (λ name. (name_view name ≡ word.now) × (is_name word.now ≡ true)) }
        ensures none { IfNone result (is_name word.now ≡ false) }
    {
        match word {
            [first, rest @ ..] => {
                if first.is_ascii_lowercase()
                    && are_name_bytes(rest)
                    && rest.len() <= 31
                    && word != b"null".as_slice()
                {
                    Some(Name::kept(word))
                } else {
                    None
                }
            }
            [] => None,
        }
    }

    /// The name that a word is, where it is known to be one.
    #[tactic(auto, unfolding(crate::specs::Names::is_name))]
    pub(crate) fn of_name(word: &[u8]) -> Name
        requires { is_name word.now ≡ true }
        ensures { name_view result ≡ word.now }
    {
        Name::kept(word)
    }

    /// Its bytes.
    pub fn bytes(&self) -> &[u8]
        ensures { result.now ≡ name_view self.now }
    {
        &self.bytes[..self.len as usize]
    }

    // A text of at most 32 bytes, followed by zeros.
    fn kept(word: &[u8]) -> Name
        requires { length word.now ≤ 32 }
        ensures { name_view result ≡ word.now }
    {
        let mut bytes = [0; 32];
        bytes[..word.len()].copy_from_slice(word);
        Name {
            len: word.len() as u8,
            bytes,
        }
    }
}

// The order of bytes, eight of which are compared at once, as a number.
fn order_of(bytes: &[u8; 32], others: &[u8; 32]) -> Ordering
    ensures { result ≡ slice_cmp nat_cmp bytes.now others.now }
{
    let mut at = 0;
    while at < 32 {
        let word = word_at(bytes, at);
        let other = word_at(others, at);
        if word != other {
            return word.cmp(&other);
        }
        at += 8;
    }
    Ordering::Equal
}

// The number that eight bytes spell, the greatest first.
fn word_at(bytes: &[u8; 32], at: usize) -> u64
    requires { at + 8 ≤ 32 }
    ensures { result ≡ big_endian 0 (take 8 (drop at bytes.now)) }
{
    u64::from_be_bytes([
        bytes[at],
        bytes[at + 1],
        bytes[at + 2],
        bytes[at + 3],
        bytes[at + 4],
        bytes[at + 5],
        bytes[at + 6],
        bytes[at + 7],
    ])
}

fn are_name_bytes(bytes: &[u8]) -> bool
    ensures { result ≡ list_all is_name_byte bytes.now }
{
    bytes.iter().all(|c| c.is_ascii_lowercase() || c.is_ascii_digit() || *c == b'_')
}
