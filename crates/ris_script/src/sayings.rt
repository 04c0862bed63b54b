ghost use Rattle.std.specs.Prelude.{◌≡◌, ◌≢◌, ◌≤◌, [], drop, length, MatchResult};
ghost use Rattle.std.specs.Option.{option_map};
ghost use Rattle.csv.specs.Records.{fields_of};
ghost use Rattle.ris_base.specs.Script as script;
ghost use Rattle.ris_script.specs.Sayings.{analysis_within, asked_or_cause, command_word_meaning, said_within, saying_or_cause, update_word_meaning, version_and_numbers_in, vertex_within, word_meaning};

use crate::rows::{four_numbers, one_number, three_numbers, version_and_one, version_and_two};
use crate::words::{CommandWord, UpdateWord, Word};
use csv::ByteRecord;
use ris_base::{Cause, Command, Update, Version};

/// What a record of a session says: an update, the begin or the end of a transaction, or any other command.
#[derive(Drop)]
pub(crate) enum Saying {
    Part(Update),
    Opens,
    Closes,
    Asks(Command),
}

/// What a word says with the fields behind it, where there are so many analyses. `Field` exactly where the number of fields
/// isn't that of the word, or one can't be read; else `Analysis` exactly where the analysis isn't one of them.
#[inline(always)]
#[tactic(auto, using(crate::proofs::SayingLemmas::sayings))]
pub(crate) fn read_saying(word: Word, row: &ByteRecord, analyses: u32) -> Result<Saying, Cause>
    requires { 2 ≤ length (fields_of row.now) }
    ensures { saying_or_cause result ≡ said_within analyses (word_meaning word) (drop 2 (fields_of row.now)) }
{
    match word {
        Word::Update(word) => match read_update(word, row) {
            Some(update) => Ok(Saying::Part(update)),
            None => Err(Cause::Field),
        },
        Word::Begin => {
            no_field(row)?;
            Ok(Saying::Opens)
        }
        Word::Commit => {
            no_field(row)?;
            Ok(Saying::Closes)
        }
        Word::Command(word) => {
            let command = read_command(word, row, analyses)?;
            Ok(Saying::Asks(command))
        }
    }
}

/// The update that a word says with the fields behind it. `None` exactly where the number of fields isn't that of the word,
/// or one can't be read.
#[inline(always)]
#[tactic(auto, using(crate::proofs::SayingLemmas::updates))]
fn read_update(word: UpdateWord, row: &ByteRecord) -> Option<Update>
    ensures { option_map script.Part result ≡ script.saying_of (update_word_meaning word) (drop 2 (fields_of row.now)) }
{
    match word {
        UpdateWord::Addv => {
            let x = one_number(row)?;
            Some(Update::AddV { x })
        }
        UpdateWord::Delv => {
            let x = one_number(row)?;
            Some(Update::DelV { x })
        }
        UpdateWord::Adde => {
            let (u, v, w) = three_numbers(row)?;
            Some(Update::AddE { u, v, w })
        }
        UpdateWord::Dele => {
            let (u, v, w) = three_numbers(row)?;
            Some(Update::DelE { u, v, w })
        }
        UpdateWord::Setw => {
            let (u, v, w, w2) = four_numbers(row)?;
            Some(Update::SetW { u, v, w, w2 })
        }
    }
}

/// The command that a word says with the fields behind it, where there are so many analyses. `Field` exactly where the number
/// of fields isn't that of the word, or one can't be read; else `Analysis` exactly where the analysis isn't one of them.
#[inline(never)]
#[tactic(auto, using(crate::proofs::SayingLemmas::commands))]
fn read_command(word: CommandWord, row: &ByteRecord, analyses: u32) -> Result<Command, Cause>
    requires { 2 ≤ length (fields_of row.now) }
    ensures { asked_or_cause result ≡ said_within analyses (command_word_meaning word) (drop 2 (fields_of row.now)) }
{
    match word {
        CommandWord::Value => {
            let (version, a, x) = read_vertex(row, analyses)?;
            Ok(Command::Value(version, a, x))
        }
        CommandWord::Parent => {
            let (version, a, x) = read_vertex(row, analyses)?;
            Ok(Command::Parent(version, a, x))
        }
        CommandWord::Path => {
            let (version, a, x) = read_vertex(row, analyses)?;
            Ok(Command::Path(version, a, x))
        }
        CommandWord::Modified => {
            let (version, a) = read_analysis(row, analyses)?;
            Ok(Command::Modified(version, a))
        }
        CommandWord::Current => {
            no_field(row)?;
            Ok(Command::Current)
        }
        CommandWord::Release => match one_number(row) {
            Some(place) => Ok(Command::Release(place)),
            None => Err(Cause::Field),
        },
        CommandWord::Leave => {
            no_field(row)?;
            Ok(Command::Leave)
        }
    }
}

/// The version, the analysis and the vertex of a read. `Field` and `Analysis` as for a command.
fn read_vertex(row: &ByteRecord, analyses: u32) -> Result<(Version, u32, u64), Cause>
    ensures { result ≡ vertex_within analyses (version_and_numbers_in 2 (drop 2 (fields_of row.now))) }
{
    match version_and_two(row) {
        Some((version, a, x)) if a < u64::from(analyses) => Ok((version, a as u32, x)),
        Some(_) => Err(Cause::Analysis),
        None => Err(Cause::Field),
    }
}

/// The version and the analysis of a read. `Field` and `Analysis` as for a command.
fn read_analysis(row: &ByteRecord, analyses: u32) -> Result<(Version, u32), Cause>
    ensures { result ≡ analysis_within analyses (version_and_numbers_in 1 (drop 2 (fields_of row.now))) }
{
    match version_and_one(row) {
        Some((version, a)) if a < u64::from(analyses) => Ok((version, a as u32)),
        Some(_) => Err(Cause::Analysis),
        None => Err(Cause::Field),
    }
}

/// `Field` exactly where a record has fields behind the first two.
fn no_field(row: &ByteRecord) -> Result<(), Cause>
    requires { 2 ≤ length (fields_of row.now) }
    ensures { MatchResult result (λ _. drop 2 (fields_of row.now) ≡ [])
        (λ why. (why ≡ Cause.Field) × (drop 2 (fields_of row.now) ≢ [])) }
{
    if row.len() == 2 {
        Ok(())
    } else {
        Err(Cause::Field)
    }
}
