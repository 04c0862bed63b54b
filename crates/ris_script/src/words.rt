ghost use Rattle.std.specs.Prelude.{◌≡◌, ◌≢◌, length};
ghost use Rattle.std.specs.Option.{option_map};
ghost use Rattle.ris_base.specs.Script as script;
ghost use Rattle.ris_script.specs.Sayings.{word_meaning};

use ris_base::Format;

/// The words of updates.
#[derive(Clone, Copy)]
pub(crate) enum UpdateWord {
    Addv,
    Delv,
    Adde,
    Dele,
    Setw,
}

/// The words of commands that are no updates.
#[derive(Clone, Copy)]
pub(crate) enum CommandWord {
    Value,
    Parent,
    Path,
    Modified,
    Current,
    Release,
    Leave,
}

/// The words of a session's records.
#[derive(Clone, Copy)]
pub(crate) enum Word {
    Update(UpdateWord),
    Begin,
    Commit,
    Command(CommandWord),
}

impl Word {
    /// The word that a field spells. `None` exactly where it spells none.
    pub(crate) fn of(field: &[u8]) -> Option<Word>
        ensures { option_map word_meaning result ≡ script.word_of field.now }
    {
        match field {
            [a, b, c, d] => four_letters([*a, *b, *c, *d]),
            [a, b, c, d, e] => five_letters([*a, *b, *c, *d, *e]),
            [a, b, c, d, e, f] => six_letters([*a, *b, *c, *d, *e, *f]),
            [a, b, c, d, e, f, g] => seven_letters([*a, *b, *c, *d, *e, *f, *g]),
            _ => other_letters(field),
        }
    }

    /// Whether a format has the word.
    pub(crate) fn is_of(self, format: Format) -> bool
        ensures { result ≡ script.is_of_format format (word_meaning self) }
    {
        match format {
            Format::One => !matches!(
                self,
                Word::Update(UpdateWord::Setw) | Word::Command(CommandWord::Leave)
            ),
            Format::Two => true,
        }
    }
}

/// The word of four letters that bytes spell, the most common ones first.
#[tactic(auto, using(crate::proofs::WordLemmas::word_of_four))]
fn four_letters(letters: [u8; 4]) -> Option<Word>
    ensures { option_map word_meaning result ≡ script.word_of letters }
{
    if letters == *b"adde" {
        Some(Word::Update(UpdateWord::Adde))
    } else if letters == *b"dele" {
        Some(Word::Update(UpdateWord::Dele))
    } else if letters == *b"addv" {
        Some(Word::Update(UpdateWord::Addv))
    } else if letters == *b"delv" {
        Some(Word::Update(UpdateWord::Delv))
    } else if letters == *b"setw" {
        Some(Word::Update(UpdateWord::Setw))
    } else if letters == *b"path" {
        Some(Word::Command(CommandWord::Path))
    } else {
        None
    }
}

/// The word of five letters that bytes spell.
#[tactic(auto, using(crate::proofs::WordLemmas::word_of_five))]
fn five_letters(letters: [u8; 5]) -> Option<Word>
    ensures { option_map word_meaning result ≡ script.word_of letters }
{
    if letters == *b"begin" {
        Some(Word::Begin)
    } else if letters == *b"value" {
        Some(Word::Command(CommandWord::Value))
    } else if letters == *b"leave" {
        Some(Word::Command(CommandWord::Leave))
    } else {
        None
    }
}

/// The word of six letters that bytes spell.
#[tactic(auto, using(crate::proofs::WordLemmas::word_of_six))]
fn six_letters(letters: [u8; 6]) -> Option<Word>
    ensures { option_map word_meaning result ≡ script.word_of letters }
{
    if letters == *b"commit" {
        Some(Word::Commit)
    } else if letters == *b"parent" {
        Some(Word::Command(CommandWord::Parent))
    } else {
        None
    }
}

/// The word of seven letters that bytes spell.
#[tactic(auto, using(crate::proofs::WordLemmas::word_of_seven))]
fn seven_letters(letters: [u8; 7]) -> Option<Word>
    ensures { option_map word_meaning result ≡ script.word_of letters }
{
    if letters == *b"current" {
        Some(Word::Command(CommandWord::Current))
    } else if letters == *b"release" {
        Some(Word::Command(CommandWord::Release))
    } else {
        None
    }
}

/// The word that bytes spell, other than four to seven: one word has eight letters.
#[tactic(auto, using(crate::proofs::WordLemmas::word_of_other))]
fn other_letters(field: &[u8]) -> Option<Word>
    requires four { length field.now ≢ 4 }
    requires five { length field.now ≢ 5 }
    requires six { length field.now ≢ 6 }
    requires seven { length field.now ≢ 7 }
    ensures { option_map word_meaning result ≡ script.word_of field.now }
{
    if field == b"modified".as_slice() {
        Some(Word::Command(CommandWord::Modified))
    } else {
        None
    }
}
