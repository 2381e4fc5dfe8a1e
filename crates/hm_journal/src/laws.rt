//! What a journal says: its text determines the configuration, the seed and the histories.
ghost use Rattle.std.specs.Prelude.{◌≡◌, ℕ, List};
ghost use Rattle.hm_sizes.specs.declared.config.Config.{Config};
ghost use Rattle.hm_sizes.specs.Configs.{IsValid};
ghost use Rattle.hm_model.specs.declared.entry.Entry.{Entry};
ghost use Rattle.hm_heap.specs.declared.close.History.{History};
ghost use Rattle.hm_journal.specs.Entries.{entry_words};
ghost use Rattle.hm_journal.specs.Journals.{config_words, journal_text};
ghost use Rattle.hm_journal.specs.Lines.{seed_line, region_line, closed_line};
ghost use Rattle.hm_model.specs.Typed.{EntryFits, Fits32, Fits64};
ghost use Rattle.hm_journal.specs.Ranges.{JournalFits};
ghost use Rattle.hm_journal.specs.Words.{line_text};

/// Two journals of one text are one journal.
pub fn journals_differ()
    ensures { (c d : Config) (n m : ℕ) (hs ks : List History) → JournalFits c n hs → JournalFits d m ks
        → journal_text c n hs ≡ journal_text d m ks → (c ≡ d) × (n ≡ m) × (hs ≡ ks) }
{}

/// A line says one thing.
pub fn lines_differ()
    ensures entries { (e f : Entry) → EntryFits e → EntryFits f → line_text (entry_words e) ≡ line_text (entry_words f)
        → e ≡ f }
    ensures configs { (c d : Config) → IsValid c → IsValid d → line_text (config_words c) ≡ line_text (config_words d)
        → c ≡ d }
    ensures seeds { (n m : ℕ) → Fits64 n → Fits64 m → line_text (seed_line n) ≡ line_text (seed_line m) → n ≡ m }
    ensures regions { (r q a b n m : ℕ) → Fits32 r → Fits32 q → Fits64 a → Fits64 b → Fits64 n → Fits64 m
        → line_text (region_line r a n) ≡ line_text (region_line q b m) → (r ≡ q) × (a ≡ b) × (n ≡ m) }
    ensures closed { (n m : ℕ) → Fits64 n → Fits64 m → line_text (closed_line n) ≡ line_text (closed_line m) → n ≡ m }
{}
