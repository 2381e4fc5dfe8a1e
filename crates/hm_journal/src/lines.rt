//! Reading the lines of a journal that are no entries. Each is written from what its words would say, and compared.
ghost use Rattle.std.specs.Prelude.{◌≡◌, ◌↔◌, ℕ, [], ◌∷◌, ◌++◌, map, string_bytes, IfOk, IfSome, IsTrue, OnOk};
ghost use Rattle.std.specs.Fmt.{decimal};
ghost use Rattle.hm_sizes.specs.declared.config.Config.{Config};
ghost use Rattle.hm_sizes.specs.Configs.{IsValid};
ghost use Rattle.hm_journal.specs.declared.lines.RegionLine.{RegionLine};
ghost use Rattle.hm_journal.specs.Journals.{config_words};
ghost use Rattle.hm_journal.specs.Lines.{header_line, seed_line, region_line, closed_line, end_line};
ghost use Rattle.hm_model.specs.Typed.{Fits32, Fits64};
ghost use Rattle.hm_journal.specs.Reading.{words_at, word_at, number_at, config_at, region_at};
ghost use Rattle.hm_journal.specs.Words.{line_text};

use crate::reading::{flag_in, number_in, number32_in, word_in, words_in};
use crate::writing::push_config;
use hm_base::{NoMemory, RegionId};
use hm_sizes::Config;
use std::alloc::{AllocError, Global};
use std::fmt::Write;

/// What the line says that stands before a region's entries: the region, the address at which it begins, and how many
/// entries it has.
#[derive(Clone, Copy, Debug, PartialEq, Eq, Drop)]
pub struct RegionLine {
    pub region: RegionId,
    pub first: u64,
    pub entries: u64,
}

/// Whether this is the first line of a journal. A line has its line feed, here and below.
pub fn is_header(line: &[u8]) -> bool
    ensures { IsTrue result ↔ (line.now ≡ line_text header_line) }
{
    line == b"hmjournal 1\n".as_slice()
}

/// Whether this is the last line of a journal.
pub fn is_end(line: &[u8]) -> bool
    ensures { IsTrue result ↔ (line.now ≡ line_text end_line) }
{
    line == b"end\n".as_slice()
}

#[tactic(auto, unfolding(crate::specs::Reading::config_at))]
fn config_of(words: &[&[u8]]) -> Config
    ensures { result ≡ config_at (map (λ w. w.now) words.now) }
{
    Config {
        arenas: number32_in(word_in(words, 1)),
        class_region: number_in(word_in(words, 2)),
        large_space: number_in(word_in(words, 3)),
        guard_interval: number32_in(word_in(words, 4)),
        array_base: number32_in(word_in(words, 5)),
        ring_base: number32_in(word_in(words, 6)),
        park_length: number32_in(word_in(words, 7)),
        check_reuse: flag_in(word_in(words, 8)),
        random_slots: flag_in(word_in(words, 9)),
    }
}

fn is_config_line(alloc: Global, config: &Config, line: &[u8]) -> Result<bool, NoMemory>
    ensures { IfOk result (λ same. IsTrue same ↔ (line.now ≡ line_text (config_words config.now))) }
{
    let mut text = String::new(alloc);
    push_config(&mut text, config)?;
    Ok(text.as_bytes() == line)
}

/// The valid configuration that has this line.
#[tactic(auto, using(crate::proofs::LineBack::config_read))]
pub fn config_in(alloc: Global, line: &[u8]) -> Result<Option<Config>, NoMemory>
    ensures found { IfOk result (λ o. IfSome o (λ c. IsValid c × (line.now ≡ line_text (config_words c)))) }
    ensures only { (c : Config) → IsValid c → line.now ≡ line_text (config_words c) → IfOk result (λ o. o ≡ Some c) }
{
    let words = words_in(alloc, line)?;
    let config = config_of(&words);
    if config.is_valid() & is_config_line(alloc, &config, line)? {
        Ok(Some(config))
    } else {
        Ok(None)
    }
}

fn push_number_line(out: &mut String, name: &str, number: u64) -> Result<(), AllocError>
    ensures { OnOk result (string_bytes out.new ≡ string_bytes out.old ++ line_text (name.now ∷ decimal number ∷ [])) }
{
    writeln!(out, "{name} {number}")
}

fn is_number_line(alloc: Global, name: &str, number: u64, line: &[u8]) -> Result<bool, NoMemory>
    ensures { IfOk result (λ same. IsTrue same ↔ (line.now ≡ line_text (name.now ∷ decimal number ∷ []))) }
{
    let mut text = String::new(alloc);
    push_number_line(&mut text, name, number)?;
    Ok(text.as_bytes() == line)
}

// The number that is the second word of a line.
fn second_in(alloc: Global, line: &[u8]) -> Result<u64, NoMemory>
    ensures { IfOk result (λ n. n ≡ number_at (word_at (words_at line.now) 1)) }
{
    let words = words_in(alloc, line)?;
    Ok(number_in(word_in(&words, 1)))
}

/// The seed, where this is a line that says one.
#[tactic(auto, using(crate::proofs::LineBack::seed_read))]
pub fn seed_in(alloc: Global, line: &[u8]) -> Result<Option<u64>, NoMemory>
    ensures found { IfOk result (λ o. IfSome o (λ n. line.now ≡ line_text (seed_line n))) }
    ensures only { (n : ℕ) → Fits64 n → line.now ≡ line_text (seed_line n) → IfOk result (λ o. o ≡ Some n) }
{
    let seed = second_in(alloc, line)?;
    if is_number_line(alloc, "seed", seed, line)? {
        Ok(Some(seed))
    } else {
        Ok(None)
    }
}

/// The last count of a region's page faults, where this is a line that closes one.
#[tactic(auto, using(crate::proofs::LineBack::closed_read))]
pub fn closed_in(alloc: Global, line: &[u8]) -> Result<Option<u64>, NoMemory>
    ensures found { IfOk result (λ o. IfSome o (λ n. line.now ≡ line_text (closed_line n))) }
    ensures only { (n : ℕ) → Fits64 n → line.now ≡ line_text (closed_line n) → IfOk result (λ o. o ≡ Some n) }
{
    let faults = second_in(alloc, line)?;
    if is_number_line(alloc, "closed", faults, line)? {
        Ok(Some(faults))
    } else {
        Ok(None)
    }
}

#[tactic(auto, unfolding(crate::specs::Reading::region_at))]
fn region_of(words: &[&[u8]]) -> RegionLine
    ensures { result ≡ region_at (map (λ w. w.now) words.now) }
{
    RegionLine {
        region: RegionId(number32_in(word_in(words, 1))),
        first: number_in(word_in(words, 2)),
        entries: number_in(word_in(words, 3)),
    }
}

fn push_region(out: &mut String, said: &RegionLine) -> Result<(), AllocError>
    ensures { let r = said.now in OnOk result
        (string_bytes out.new ≡ string_bytes out.old ++ line_text (region_line r.region.0 r.first r.entries)) }
{
    let RegionLine {
        region,
        first,
        entries,
    } = said;
    writeln!(out, "region {} {first} {entries}", region.0)
}

fn is_region_line(alloc: Global, said: &RegionLine, line: &[u8]) -> Result<bool, NoMemory>
    ensures { let r = said.now in
        IfOk result (λ same. IsTrue same ↔ (line.now ≡ line_text (region_line r.region.0 r.first r.entries))) }
{
    let mut text = String::new(alloc);
    push_region(&mut text, said)?;
    Ok(text.as_bytes() == line)
}

/// What the line of a region says, where this is one.
#[tactic(auto, using(crate::proofs::LineBack::region_said))]
pub fn region_in(alloc: Global, line: &[u8]) -> Result<Option<RegionLine>, NoMemory>
    ensures found { IfOk result (λ o. IfSome o (λ r. line.now ≡ line_text (region_line r.region.0 r.first r.entries))) }
    ensures only { (r : RegionLine) → Fits32 r.region.0 → Fits64 r.first → Fits64 r.entries
        → line.now ≡ line_text (region_line r.region.0 r.first r.entries) → IfOk result (λ o. o ≡ Some r) }
{
    let words = words_in(alloc, line)?;
    let said = region_of(&words);
    if is_region_line(alloc, &said, line)? {
        Ok(Some(said))
    } else {
        Ok(None)
    }
}
