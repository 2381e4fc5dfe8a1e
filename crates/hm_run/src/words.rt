//! The words after the program's name: a command and its options.
ghost use Rattle.std.specs.Prelude.{◌≡◌, IfSome};
ghost use Rattle.std.specs.Option.{option_copied};
ghost use Rattle.hm_sizes.specs.Configs.{IsValid};
ghost use Rattle.hm_run.specs.Words.{are_digits, is_numeral, number_in, is_space, is_number, value_of, template_in, is_value, names, behind, is_given, is_option, are_options, template_of, number_of, options_in};
ghost use Rattle.hm_run.specs.Words.{with_options, stress_in, check_in, output_in, asked_in, named, config_of, is_watched};

use hm_sizes::{Config, LEAST_SPACE, MOST_CLASS_REGION, MOST_LARGE_SPACE, PAGE};

/// An option, which has a value behind it.
#[derive(Clone, Copy, Debug, PartialEq, Eq)]
pub enum OptionName {
    /// `--config`, the name of the configuration.
    Config,
    /// `--seed`, from which all random words follow.
    Seed,
    /// `--class-region`, the bytes of a class region.
    ClassRegion,
    /// `--large-space`, the bytes of the large space.
    LargeSpace,
}

/// A configuration that has a name.
#[derive(Clone, Copy, Debug, PartialEq, Eq, Drop)]
pub enum Template {
    /// `standard`, that of `Config::standard`.
    Standard,
    /// `light`, that of `Config::light`.
    Light,
}

/// What is written of a trace that was read.
#[derive(Clone, Copy, Debug, PartialEq, Eq, Drop)]
pub enum Output {
    /// The replies of its steps, a line each.
    Report,
    /// Every history.
    Journal,
    /// What the histories come to: all entries, those of each thread, and those of each region.
    Stats,
    /// The sum of the sizes of live large blocks after each round.
    Watch,
}

/// What is done.
#[derive(Clone, Copy, Debug, PartialEq, Eq, Drop)]
pub enum Command {
    /// A trace from the source, of which `output` is written.
    Run { output: Output },
    /// A journal from the source, of which the verdict is written.
    Check,
    /// The stress trace of the seed.
    Stress { seed: u64 },
}

/// What the options say.
#[derive(Clone, Copy, Debug, PartialEq, Eq, Drop)]
pub struct Options {
    /// The configuration, whose sizes of the address space are those below.
    pub template: Template,
    /// The seed, which decides every random choice.
    pub seed: u64,
    /// The bytes of a class region.
    pub class_region: u64,
    /// The bytes of the large space.
    pub large_space: u64,
}

/// What the words ask for.
#[derive(Clone, Copy, Debug, PartialEq, Eq, Drop)]
pub struct Asked {
    /// What is done.
    pub command: Command,
    /// The values of the options, also of those that are not given.
    pub options: Options,
}

impl Output {
    /// Whether the rounds are watched for it.
    pub(crate) fn is_watched(self) -> bool
        ensures { result ≡ is_watched self }
    {
        matches!(self, Output::Watch)
    }
}

impl Template {
    /// The configuration of this name.
    fn config(self) -> Config
        ensures { result ≡ named self }
    {
        match self {
            Template::Standard => Config::standard(),
            Template::Light => Config::light(),
        }
    }
}

impl Options {
    /// The configuration of the heap.
    pub fn config(&self) -> Config
        ensures { result ≡ config_of self.now }
    {
        Config {
            class_region: self.class_region,
            large_space: self.large_space,
            ..self.template.config()
        }
    }
}

fn are_digits(bytes: &[u8]) -> bool
    ensures { result ≡ are_digits bytes.now }
{
    bytes.iter().all(u8::is_ascii_digit)
}

// Whether a word is 1 to 20 digits.
fn is_numeral(word: &str) -> bool
    ensures { result ≡ is_numeral word.now }
{
    (1..=20).contains(&word.len()) && are_digits(word.as_bytes())
}

// The value of such a word, up to 2^64 - 1.
fn number(word: &str) -> Option<u64>
    ensures { result ≡ number_in word.now }
{
    if is_numeral(word) {
        u64::from_str_radix(word, 10).ok()
    } else {
        None
    }
}

// Whether these are whole pages, from 1 MiB to so many bytes.
fn is_space(most: u64, number: u64) -> bool
    ensures { result ≡ is_space most number }
{
    number % PAGE == 0 && (LEAST_SPACE..=most).contains(&number)
}

// Whether an option may have this number as its value.
fn is_number(option: OptionName, number: u64) -> bool
    ensures { result ≡ is_number option number }
{
    match option {
        OptionName::Config => false,
        OptionName::Seed => true,
        OptionName::ClassRegion => is_space(MOST_CLASS_REGION, number),
        OptionName::LargeSpace => is_space(MOST_LARGE_SPACE, number),
    }
}

// The number that a word gives to an option, if it may.
fn value_of(option: OptionName, word: &str) -> Option<u64>
    ensures { result ≡ value_of option word.now }
{
    let number = number(word)?;
    if is_number(option, number) {
        Some(number)
    } else {
        None
    }
}

// The configuration of which the word is the name.
fn template_in(word: &str) -> Option<Template>
    ensures { result ≡ template_in word.now }
{
    match word {
        "standard" => Some(Template::Standard),
        "light" => Some(Template::Light),
        _ => None,
    }
}

// Whether the word may be the option's value.
fn is_value(option: OptionName, word: &str) -> bool
    ensures { result ≡ is_value option word.now }
{
    match option {
        OptionName::Config => template_in(word).is_some(),
        _ => value_of(option, word).is_some(),
    }
}

// Whether a word is this option.
fn names(option: OptionName, word: &str) -> bool
    ensures { result ≡ names option word.now }
{
    let text: &[u8] = match option {
        OptionName::Config => b"--config",
        OptionName::Seed => b"--seed",
        OptionName::ClassRegion => b"--class-region",
        OptionName::LargeSpace => b"--large-space",
    };
    word.as_bytes() == text
}

// Whether the option stands among pairs of an option and its value.
fn is_given(option: OptionName, words: &[String]) -> bool
    ensures { result ≡ is_given option words.now }
{
    let mut rest = words;
    'pairs: while let [word, _, after @ ..] = rest {
        if names(option, word) {
            return true;
        }
        rest = after;
    }
    false
}

// The word behind an option.
fn behind(option: OptionName, words: &[String]) -> Option<&str>
    ensures { option_copied result ≡ behind option words.now }
{
    let mut rest = words;
    'pairs: while let [word, value, after @ ..] = rest {
        if names(option, word) {
            return Some(value);
        }
        rest = after;
    }
    None
}

// The configuration named behind `--config`, or the standard one.
fn template_of(words: &[String]) -> Template
    ensures { result ≡ template_of words.now }
{
    match behind(OptionName::Config, words) {
        Some(word) => template_in(word).unwrap_or(Template::Standard),
        None => Template::Standard,
    }
}

// The number behind an option, or what stands where there is none.
fn number_of(option: OptionName, words: &[String], other: u64) -> u64
    ensures { result ≡ number_of option words.now other }
{
    match behind(option, words) {
        Some(word) => value_of(option, word).unwrap_or(other),
        None => other,
    }
}

// Whether a word is this option, its value may be the option's, and the option does not come again.
fn is_option(option: OptionName, word: &str, value: &str, after: &[String]) -> bool
    ensures { result ≡ is_option option word.now value.now after.now }
{
    names(option, word) && is_value(option, value) && !is_given(option, after)
}

// Whether the words are pairs of an option and its value, each option at most once.
fn are_options(words: &[String]) -> bool
    ensures { result ≡ are_options words.now }
{
    let mut rest = words;
    'pairs: while let [word, value, after @ ..] = rest {
        let is_known = is_option(OptionName::Config, word, value, after)
            || is_option(OptionName::Seed, word, value, after)
            || is_option(OptionName::ClassRegion, word, value, after)
            || is_option(OptionName::LargeSpace, word, value, after);
        if !is_known {
            return false;
        }
        rest = after;
    }
    rest.is_empty()
}

// The values of options, and those that stand where an option is not given.
fn options_in(words: &[String]) -> Options
    ensures exact { result ≡ options_in words.now }
    ensures valid { IsValid (config_of result) }
{
    Options {
        template: template_of(words),
        seed: number_of(OptionName::Seed, words, 0),
        class_region: number_of(OptionName::ClassRegion, words, MOST_CLASS_REGION),
        large_space: number_of(OptionName::LargeSpace, words, MOST_LARGE_SPACE),
    }
}

// A command with its options.
fn with_options(command: Command, words: &[String]) -> Option<Asked>
    ensures exact { result ≡ with_options command words.now }
    ensures valid { IfSome result (λ asked. IsValid (config_of asked.options)) }
{
    if are_options(words) {
        Some(Asked {
            command,
            options: options_in(words),
        })
    } else {
        None
    }
}

// The words behind `stress`: a seed, and options.
fn stress_in(words: &[String]) -> Option<Asked>
    ensures exact { result ≡ stress_in words.now }
    ensures valid { IfSome result (λ asked. IsValid (config_of asked.options)) }
{
    match words {
        [word, options @ ..] => {
            let seed = number(word)?;
            with_options(Command::Stress { seed }, options)
        }
        _ => None,
    }
}

// The words behind `check`: none.
fn check_in(words: &[String]) -> Option<Asked>
    ensures exact { result ≡ check_in words.now }
    ensures valid { IfSome result (λ asked. IsValid (config_of asked.options)) }
{
    if words.is_empty() {
        with_options(Command::Check, words)
    } else {
        None
    }
}

// What is written of a source's trace, as the first word asks.
fn output_in(word: &str) -> Option<Output>
    ensures { result ≡ output_in word.now }
{
    match word {
        "run" => Some(Output::Report),
        "journal" => Some(Output::Journal),
        "stats" => Some(Output::Stats),
        "watch" => Some(Output::Watch),
        _ => None,
    }
}

/// What the words ask for, or None where they are not accepted.
pub fn read_words(words: &[String]) -> Option<Asked>
    ensures exact { result ≡ asked_in words.now }
    ensures valid { IfSome result (λ asked. IsValid (config_of asked.options)) }
{
    match words {
        [word, options @ ..] => {
            if word.as_bytes() == b"stress".as_slice() {
                stress_in(options)
            } else if word.as_bytes() == b"check".as_slice() {
                check_in(options)
            } else {
                let output = output_in(word)?;
                with_options(Command::Run { output }, options)
            }
        }
        _ => None,
    }
}
