//! Reading the line of an entry: its words are taken for an entry, which is written and compared with the line.
ghost use Rattle.std.specs.Prelude.{◌≡◌, ◌↔◌, map, drop, IfOk, IfSome, IsTrue};
ghost use Rattle.hm_model.specs.declared.entry.Call.{Call};
ghost use Rattle.hm_model.specs.declared.entry.Entry.{Entry};
ghost use Rattle.hm_model.specs.declared.entry.Reply.{Reply};
ghost use Rattle.hm_model.specs.Calls.{CallRuns};
ghost use Rattle.hm_model.specs.Replies.{HasRuns};
ghost use Rattle.hm_model.specs.Typed.{EntryFits, EntryRuns};
ghost use Rattle.hm_journal.specs.Entries.{entry_words};
ghost use Rattle.hm_journal.specs.Reading.{call_at, reply_at, answer_at, entry_of};
ghost use Rattle.hm_journal.specs.Words.{line_text};

use crate::entries::push_entry;
use crate::entry_words::{call_in, call_length, choices_in, draws_in, reply_in, who_in};
use crate::reading::{number_in, word_in, words_in};
use hm_base::NoMemory;
use hm_model::Entry;
use std::alloc::Global;

// The words from an index on.
fn words_from<'a, 'b>(words: &'b [&'a [u8]], index: usize) -> &'b [&'a [u8]]
    ensures { map (λ w. w.now) result.now ≡ drop index (map (λ w. w.now) words.now) }
{
    let start = index.min(words.len());
    &words[start..]
}

// The entry that these words would say; none where its runs break a rule of runs.
fn entry_of(alloc: Global, words: &[&[u8]]) -> Result<Option<Entry>, NoMemory>
    ensures value { let said = map (λ w. w.now) words.now in (call : Call) (reply : Reply)
        → call_at (drop 18 said) ≡ Some call → reply_at (answer_at said) ≡ Some reply → CallRuns call → HasRuns reply
        → IfOk result (λ o. o ≡ Some (entry_of said call reply)) }
{
    let calling = words_from(words, 18);
    let answer = words_from(words_from(calling, call_length(word_in(words, 18))), 1);
    let Some(call) = call_in(alloc, calling)? else {
        return Ok(None);
    };
    let Some(reply) = reply_in(alloc, answer)? else {
        return Ok(None);
    };
    Ok(Some(Entry {
        who: who_in(words),
        call,
        reply,
        choices: choices_in(words),
        draws: draws_in(words),
        faults_before: number_in(word_in(words, 5)),
        faults_after: number_in(word_in(words, 6)),
    }))
}

// The entry that a line would be of.
fn guess_entry(alloc: Global, line: &[u8]) -> Result<Option<Entry>, NoMemory>
    ensures only { (e : Entry) → EntryFits e → EntryRuns e → line.now ≡ line_text (entry_words e)
        → IfOk result (λ o. o ≡ Some e) }
{
    let words = words_in(alloc, line)?;
    entry_of(alloc, &words)
}

fn has_line(alloc: Global, entry: &Entry, line: &[u8]) -> Result<bool, NoMemory>
    ensures { IfOk result (λ same. IsTrue same ↔ (line.now ≡ line_text (entry_words entry.now))) }
{
    let mut text = String::new(alloc);
    push_entry(&mut text, entry)?;
    Ok(text.as_bytes() == line)
}

/// The entry that has this line, with the line feed behind it.
pub fn entry_in(alloc: Global, line: &[u8]) -> Result<Option<Entry>, NoMemory>
    ensures found { IfOk result (λ o. IfSome o (λ e.
        EntryFits e × EntryRuns e × (line.now ≡ line_text (entry_words e)))) }
    ensures only { (e : Entry) → EntryFits e → EntryRuns e → line.now ≡ line_text (entry_words e)
        → IfOk result (λ o. o ≡ Some e) }
{
    let Some(entry) = guess_entry(alloc, line)? else {
        return Ok(None);
    };
    if !has_line(alloc, &entry, line)? {
        return Ok(None);
    }
    entry.typed();
    Ok(Some(entry))
}
