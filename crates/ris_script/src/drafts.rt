ghost use Rattle.std.specs.Prelude.{◌≡◌, Some, drop, map, replicate, IfOk};
ghost use Rattle.std.specs.List.{list_any};
ghost use Rattle.std.specs.Option.{option_and_then};
ghost use Rattle.csv.specs.Records.{fields_of};
ghost use Rattle.ris_base.specs.Script.{base_by, numbers_of};
ghost use Rattle.ris_script.specs.Headers.{header_meaning};
ghost use Rattle.ris_script.specs.Progress.{finished, is_open, progress_behind_header, progressed, with_base, with_record};
ghost use Rattle.ris_script.specs.Standing.{Becomes, Gives, silent};

use crate::digits::number_in;
use crate::faults::RecordError;
use crate::headers::Header;
use crate::sessions::Session;
use csv::ByteRecord;
use ris_base::{Cause, CommandLists, NoMemory, Script, Triple, Triples};
use std::alloc::Global;
use std::marker::Model;

/// What was read of a script so far: the header, the base triples, and what each session said.
#[derive(Drop)]
pub(crate) struct Draft {
    alloc: Global,
    header: Header,
    base: Vec<Triple>,
    sessions: Vec<Session>,
    spoken: bool,
}

impl Model for Draft {
    ghost use Rattle.ris_script.specs.Progress.{Progress};

    ghost Value = { Progress };

    ghost use Rattle.ris_script.specs.Headers.{header_meaning};

    ghost view = { λ d. record { header = header_meaning d.header; base = d.base.items; standings = d.sessions.items; spoken = d.spoken } };
}

impl Draft {
    /// What is read with the header.
    pub(crate) fn new(alloc: Global, header: Header) -> Result<Draft, NoMemory>
        ensures { IfOk result (λ draft. draft ≡ progress_behind_header (header_meaning header)) }
    {
        let sessions = silent_sessions(alloc, header.sessions)?;
        Ok(Draft {
            alloc,
            header,
            base: Vec::new(alloc),
            sessions,
            spoken: false,
        })
    }

    /// What is read with one record more, where there are so many analyses. `Fault` exactly where the record is one.
    #[inline(always)]
    pub(crate) fn record(&mut self, analyses: u32, row: &ByteRecord) -> Result<(), RecordError>
        ensures { Becomes result self.new (progressed analyses self.old (fields_of row.now)) }
    {
        let Some(name) = row.get(0) else {
            return Err(RecordError::Fault(Cause::Field));
        };
        if name == b"base".as_slice() {
            return self.record_base(row);
        }
        match number_in(name) {
            Some(session) => self.record_session(session, analyses, row),
            None => Err(RecordError::Fault(Cause::Field)),
        }
    }

    /// The same of a record of this session.
    #[inline(always)]
    fn record_session(
        &mut self,
        session: u64,
        analyses: u32,
        row: &ByteRecord,
    ) -> Result<(), RecordError>
        ensures { Becomes result self.new (with_record analyses self.old (fields_of row.now) (Some session)) }
    {
        if session >= self.sessions.len() as u64 {
            return Err(RecordError::Fault(Cause::Session));
        }
        self.sessions[session as usize].record(self.alloc, self.header, analyses, row)?;
        self.spoken = true;
        Ok(())
    }

    /// The same of a record of a base triple.
    #[inline(never)]
    fn record_base(&mut self, row: &ByteRecord) -> Result<(), RecordError>
        ensures { Becomes result self.new (with_base self.old (option_and_then (base_by self.old.header) (numbers_of (drop 1 (fields_of row.now))))) }
    {
        let Some(triple) = self.header.base_triple(row) else {
            return Err(RecordError::Fault(Cause::Base));
        };
        if self.spoken {
            return Err(RecordError::Fault(Cause::Base));
        }
        match self.base.push(triple) {
            Ok(()) => Ok(()),
            Err(_) => Err(RecordError::NoMemory),
        }
    }

    /// The script, where no record is left. `Close` exactly where a session has a transaction open.
    pub(crate) fn finish(self) -> Result<Script, RecordError>
        ensures { Gives result (finished self) }
    {
        let Draft {
            alloc,
            header,
            base,
            sessions,
            spoken: _,
        } = self;
        if any_open(&sessions) {
            return Err(RecordError::Fault(Cause::Close));
        }
        let commands = command_lists(alloc, sessions)?;
        Ok(Script {
            format: header.format,
            vertices: header.vertices,
            sessions: header.sessions,
            base: Triples::from_vec(base),
            commands,
        })
    }
}

/// So many sessions that said nothing.
fn silent_sessions(alloc: Global, count: u32) -> Result<Vec<Session>, NoMemory>
    ensures { IfOk result (λ sessions. sessions.items ≡ replicate count silent) }
{
    let mut sessions = Vec::with_capacity(alloc, count as usize)?;
    for _ in 0..count {
        sessions.push(Session::new(alloc))?;
    }
    Ok(sessions)
}

/// Whether a session has a transaction open.
fn any_open(sessions: &Vec<Session>) -> bool
    ensures { result ≡ list_any is_open sessions.now.items }
{
    sessions.iter().any(|session| session.is_open())
}

/// The commands of each session.
fn command_lists(alloc: Global, sessions: Vec<Session>) -> Result<CommandLists, NoMemory>
    ensures { IfOk result (λ lists. lists ≡ map (λ session. session.commands) sessions.items) }
{
    let mut lists = CommandLists::with_room(alloc, sessions.len() as u64)?;
    for session in sessions {
        lists.push(session.into_commands())?;
    }
    Ok(lists)
}
