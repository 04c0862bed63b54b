ghost use Rattle.std.specs.Prelude.{◌≡◌, [], ◌∷◌, ◌++◌, IfOk, OnOk, OnErr, is_some};
ghost use Rattle.std.specs.Option.{option_map};
ghost use Rattle.csv.specs.Records.{fields_of};
ghost use Rattle.ris_base.specs.Script as script;
ghost use Rattle.ris_script.specs.Headers.{header_meaning};
ghost use Rattle.ris_script.specs.Sayings.{saying_meaning, word_meaning};
ghost use Rattle.ris_script.specs.Standing.{Becomes, heard, part_added, recorded, silent};

use crate::faults::RecordError;
use crate::headers::Header;
use crate::sayings::{Saying, read_saying};
use crate::words::Word;
use csv::ByteRecord;
use ris_base::{Cause, Command, Commands, NoMemory, PartsBuilder, PartsFault, Update};
use std::alloc::Global;
use std::marker::Model;

/// What a session said so far: its commands, the transaction that it has open, if it has one, and whether it left.
#[derive(Drop)]
pub(crate) struct Session {
    commands: Vec<Command>,
    parts: Option<PartsBuilder>,
    left: bool,
}

impl Model for Session {
    ghost use Rattle.ris_script.specs.Standing.{Standing};

    ghost Value = { Standing };

    ghost view = { λ s. record { commands = s.commands.items; parts = s.parts; left = s.left } };
}

impl Session {
    /// A session that said nothing. It takes no memory.
    pub(crate) fn new(alloc: Global) -> Session
        ensures { result ≡ silent }
    {
        Session {
            commands: Vec::new(alloc),
            parts: None,
            left: false,
        }
    }

    /// The session behind one record more of it, in a script with this header, where there are so many analyses. `Fault`
    /// exactly where the record is one.
    #[inline(always)]
    pub(crate) fn record(
        &mut self,
        alloc: Global,
        header: Header,
        analyses: u32,
        row: &ByteRecord,
    ) -> Result<(), RecordError>
        ensures { Becomes result self.new (recorded (header_meaning header) analyses self.old (fields_of row.now)) }
    {
        if self.left {
            return Err(RecordError::Fault(Cause::Left));
        }
        let Some(word) = read_word(header, row) else {
            return Err(RecordError::Fault(Cause::Op));
        };
        match read_saying(word, row, analyses) {
            Ok(saying) => self.hear(alloc, saying),
            Err(cause) => Err(RecordError::Fault(cause)),
        }
    }

    /// The session behind one saying more. `Fault` exactly where it doesn't fit to the transaction.
    #[inline(always)]
    fn hear(&mut self, alloc: Global, saying: Saying) -> Result<(), RecordError>
        ensures { Becomes result self.new (heard self.old (saying_meaning saying)) }
    {
        match saying {
            Saying::Part(update) => self.part(alloc, update),
            Saying::Opens => self.begin(alloc),
            Saying::Closes => self.commit(),
            Saying::Asks(command) => self.ask(command),
        }
    }

    /// One update more: a part of the transaction, or a change of one part. `Parts` exactly where the transaction has 1,024.
    #[inline(always)]
    fn part(&mut self, alloc: Global, update: Update) -> Result<(), RecordError>
        ensures { Becomes result self.new (heard self.old (script.Part update)) }
    {
        match &mut self.parts {
            Some(parts) => add_part(parts, update),
            None => {
                let change = change_of(alloc, update)?;
                push_command(&mut self.commands, change)?;
                Ok(())
            }
        }
    }

    /// A transaction more, with no parts. `Inside` exactly where one is open.
    #[inline(never)]
    fn begin(&mut self, alloc: Global) -> Result<(), RecordError>
        ensures { Becomes result self.new (heard self.old script.Opens) }
    {
        if self.parts.is_some() {
            return Err(RecordError::Fault(Cause::Inside));
        }
        self.parts = Some(PartsBuilder::new(alloc)?);
        Ok(())
    }

    /// The transaction as a command. `Close` exactly where none is open, and `Parts` where it has no part.
    #[inline(never)]
    fn commit(&mut self) -> Result<(), RecordError>
        ensures { Becomes result self.new (heard self.old script.Closes) }
    {
        let Some(parts) = self.parts.take() else {
            return Err(RecordError::Fault(Cause::Close));
        };
        let Some(parts) = parts.close() else {
            return Err(RecordError::Fault(Cause::Parts));
        };
        push_command(&mut self.commands, Command::Change(parts))?;
        Ok(())
    }

    /// One command more. `Inside` exactly where a transaction is open.
    #[inline(never)]
    fn ask(&mut self, command: Command) -> Result<(), RecordError>
        ensures { Becomes result self.new (heard self.old (script.Asks command)) }
    {
        if self.parts.is_some() {
            return Err(RecordError::Fault(Cause::Inside));
        }
        self.left = is_leave(&command) || self.left;
        push_command(&mut self.commands, command)?;
        Ok(())
    }

    /// Whether a transaction is open.
    pub(crate) fn is_open(&self) -> bool
        ensures { result ≡ is_some self.now.parts }
    {
        self.parts.is_some()
    }

    /// The commands. A transaction that is open is left out.
    pub(crate) fn into_commands(self) -> Commands
        ensures { result ≡ self.commands }
    {
        let Session {
            commands,
            parts: _,
            left: _,
        } = self;
        Commands::from_vec(commands)
    }
}

/// The word of a record, where it is one of the header's format. `None` exactly where there is none.
#[tactic(auto, using(crate::proofs::StandingLemmas::word_said_at))]
fn read_word(header: Header, row: &ByteRecord) -> Option<Word>
    ensures { option_map word_meaning result ≡ script.word_said (header_meaning header) (fields_of row.now) }
{
    let word = Word::of(row.get(1)?)?;
    if word.is_of(header.format) {
        Some(word)
    } else {
        None
    }
}

/// Whether a command is a leave.
fn is_leave(command: &Command) -> bool
    ensures { result ≡ script.is_leave (script.Asks command.now) }
{
    matches!(command, Command::Leave)
}

/// One command more, at the end. After `NoMemory` they are as before.
#[inline(always)]
fn push_command(commands: &mut Vec<Command>, command: Command) -> Result<(), NoMemory>
    ensures ok { OnOk result (commands.new.items ≡ commands.old.items ++ command ∷ []) }
    ensures err { OnErr result (commands.new.items ≡ commands.old.items) }
{
    commands.reserve(1)?;
    commands.push_reserved(command);
    Ok(())
}

/// One part more. `Parts` exactly where there are 1,024.
fn add_part(parts: &mut PartsBuilder, update: Update) -> Result<(), RecordError>
    ensures { Becomes result parts.new (part_added parts.old update) }
{
    match parts.push(update) {
        Ok(()) => Ok(()),
        Err(PartsFault::PartsFull) => Err(RecordError::Fault(Cause::Parts)),
        Err(PartsFault::NoMemory) => Err(RecordError::NoMemory),
    }
}

/// The change of one part.
#[inline(always)]
fn change_of(alloc: Global, update: Update) -> Result<Command, NoMemory>
    ensures { IfOk result (λ command. command ≡ Command.Change (update ∷ [])) }
{
    let mut parts = PartsBuilder::new(alloc)?;
    match parts.push(update) {
        Ok(()) => {}
        Err(_) => unreachable!(),
    }
    match parts.close() {
        Some(parts) => Ok(Command::Change(parts)),
        None => unreachable!(),
    }
}
