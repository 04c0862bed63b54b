ghost use Rattle.std.specs.Prelude.{◌≡◌, drop};
ghost use Rattle.std.specs.Option.{option_copied, option_map};
ghost use Rattle.ris_words.specs.Tokens.{accepts, fits, has, is_complete, is_count, is_of, joined_by, name_of, named, none_seen, passes, token_behind, token_of, with_name};

use crate::analyses::{cut, is_analysis_list};
use ris_base::{Words, read_number};

/// The greatest number of workers.
const GREATEST_WORKERS: u64 = 64;

/// The greatest size of a made script.
const GREATEST_SIZE: u64 = 1_000_000;

/// The commands.
#[derive(Clone, Copy)]
pub enum Verb {
    Replay,
    Demo,
}

/// The options.
#[derive(Clone, Copy)]
pub enum Name {
    Threads,
    Workers,
    Size,
    Analyses,
}

/// Which options were told.
#[derive(Clone, Copy)]
struct Seen {
    threads: bool,
    workers: bool,
    size: bool,
    analyses: bool,
}

impl Seen {
    /// No options.
    fn none() -> Seen
        ensures { result ≡ none_seen }
    {
        Seen {
            threads: false,
            workers: false,
            size: false,
            analyses: false,
        }
    }

    /// Whether an option was told.
    fn has(self, name: Name) -> bool
        ensures { result ≡ has name self }
    {
        match name {
            Name::Threads => self.threads,
            Name::Workers => self.workers,
            Name::Size => self.size,
            Name::Analyses => self.analyses,
        }
    }

    /// The options with one more.
    fn with(mut self, name: Name) -> Seen
        ensures { result ≡ with_name name self }
    {
        match name {
            Name::Threads => self.threads = true,
            Name::Workers => self.workers = true,
            Name::Size => self.size = true,
            Name::Analyses => self.analyses = true,
        }
        self
    }

    /// Whether no option is missing.
    fn is_complete(self, verb: Verb) -> bool
        ensures { result ≡ is_complete verb self }
    {
        match verb {
            Verb::Replay => self.analyses,
            Verb::Demo => true,
        }
    }
}

/// Whether the words from number `first` on are options of a command, in any order and each at most once, with none missing:
/// `--threads` alone, or the name of an option with its value in the next word or behind a `=`.
pub fn are_options(verb: Verb, words: &Words, first: u64) -> bool
    ensures { result ≡ accepts verb none_seen None (drop first words.now) }
{
    let mut seen = Seen::none();
    let mut waiting = None;
    for k in first..words.len() {
        let Some(word) = words.get(k) else {
            return false;
        };
        let Some((name, value)) = token_behind(waiting, word.as_bytes()) else {
            return false;
        };
        match value {
            None => waiting = Some(name),
            Some(value) => {
                if !fits(verb, seen, name, value) {
                    return false;
                }
                seen = seen.with(name);
                waiting = None;
            }
        }
    }
    waiting.is_none() && seen.is_complete(verb)
}

/// What a word says: the value of the option that waits for one, or else the begin of an option.
fn token_behind<'a>(waiting: Option<Name>, word: &'a [u8]) -> Option<(Name, Option<&'a [u8]>)>
    ensures { option_map (λ t. (t.0, option_copied t.1)) result ≡ token_behind waiting word.entry.now }
{
    match waiting {
        Some(name) => Some((name, Some(word))),
        None => token_of(word),
    }
}

/// What a word says that begins an option: its name, and its value where the word has it.
#[tactic(auto, unfolding(crate::specs::Tokens::token_of))]
fn token_of(word: &[u8]) -> Option<(Name, Option<&[u8]>)>
    ensures { option_map (λ t. (t.0, option_copied t.1)) result ≡ token_of word.now }
{
    match name_of(word) {
        Some(name) => Some(named(name)),
        None => match cut(word, b'=') {
            Some((name, value)) => joined(name_of(name), value),
            None => None,
        },
    }
}

/// What a name alone says. The value of `--threads` is nothing, and that of any other option is the next word.
fn named(name: Name) -> (Name, Option<&'static [u8]>)
    ensures name { result.0 ≡ (named name).0 }
    ensures value { option_copied result.1 ≡ (named name).1 }
{
    match name {
        Name::Threads => (Name::Threads, Some(&[])),
        name => (name, None),
    }
}

/// What a name, a `=` and a value say.
fn joined(name: Option<Name>, value: &[u8]) -> Option<(Name, Option<&[u8]>)>
    ensures { option_map (λ t. (t.0, option_copied t.1)) result ≡ joined_by name value.now }
{
    match name {
        Some(Name::Threads) | None => None,
        Some(name) => Some((name, Some(value))),
    }
}

/// The option that a word names.
#[tactic(auto, unfolding(crate::specs::Tokens::name_of))]
fn name_of(word: &[u8]) -> Option<Name>
    ensures { result ≡ name_of word.now }
{
    if word == b"--threads".as_slice() {
        Some(Name::Threads)
    } else if word == b"--workers".as_slice() {
        Some(Name::Workers)
    } else if word == b"--size".as_slice() {
        Some(Name::Size)
    } else if word == b"--analyses".as_slice() {
        Some(Name::Analyses)
    } else {
        None
    }
}

/// Whether an option with this value may be told behind these options.
fn fits(verb: Verb, seen: Seen, name: Name, value: &[u8]) -> bool
    ensures { result ≡ fits verb seen name value.now }
{
    is_of(verb, name) && !seen.has(name) && passes(name, value)
}

/// Whether an option is one of a command.
fn is_of(verb: Verb, name: Name) -> bool
    ensures { result ≡ is_of verb name }
{
    match (verb, name) {
        (Verb::Replay, Name::Size) => false,
        (Verb::Replay, _) => true,
        (Verb::Demo, Name::Workers | Name::Size) => true,
        (Verb::Demo, Name::Threads | Name::Analyses) => false,
    }
}

/// Whether an option may have a value.
fn passes(name: Name, value: &[u8]) -> bool
    ensures { result ≡ passes name value.now }
{
    match name {
        Name::Threads => true,
        Name::Workers => is_count(value, GREATEST_WORKERS),
        Name::Size => is_count(value, GREATEST_SIZE),
        Name::Analyses => is_analysis_list(value),
    }
}

/// Whether a value spells a number from 1 to the greatest one.
fn is_count(value: &[u8], greatest: u64) -> bool
    ensures { result ≡ is_count greatest value.now }
{
    match read_number(value) {
        Some(n) => 1 <= n && n <= greatest,
        None => false,
    }
}
