ghost use Rattle.std.specs.Prelude.{◌≡◌, ◌≤◌, ◌∷◌, ◌++◌, [], length, map, All, IsTrue, OnOk, IfOk, decimal};
ghost use Rattle.ris_base.specs.Transcript.{fields, answer_fields, log_lines, reply_lines, journal_fields, summary_fields};
ghost use Rattle.ris_base.specs.Transcript.Field.{Number};
ghost use Rattle.ris_text.specs.Counts.{summary_with};
ghost use Rattle.ris_text.specs.Journal.{journal_of};
ghost use Rattle.ris_text.specs.Printable.{is_printable, ArePrintable};
ghost use Rattle.ris_text.specs.Spelled.{Adds, AddsVertices};

use crate::answers::{put_current, put_modified, put_parent, put_path, put_value};
use crate::counts::Counts;
use crate::journals::{put_counts, put_entry, put_leave, put_mark};
use crate::replies::{put_denial, put_outcome};
use crate::tails::Tail;
use ris_base::{Line, Lines, Log, LogLine, Logs, NoMemory, ReadAnswer, Sequence, Text, Vertices};
use std::alloc::Global;
use std::marker::Model;

/// A text that grows by lines, and the room in which the end of a line is put together.
#[derive(Drop)]
pub struct Printer {
    text: Vec<u8>,
    tail: Tail,
}

impl Model for Printer {
    ghost use Rattle.std.specs.Prelude.{List, ℕ};

    ghost Value = { List ℕ };

    ghost view = { λ p. p.text.items };
}

impl Printer {
    /// No text yet, and room for so many bytes of it.
    pub fn with_room(alloc: Global, room: usize) -> Result<Printer, NoMemory>
        ensures { IfOk result (λ printer. printer ≡ []) }
    {
        let text = Vec::with_capacity(alloc, room)?;
        Ok(Printer {
            text,
            tail: Tail::new(),
        })
    }

    /// The text, without taking memory.
    pub fn into_text(self) -> Text
        ensures { result ≡ self }
    {
        let Printer { text, tail: _ } = self;
        Sequence::from_vec(text)
    }

    /// The reply lines of all sessions.
    pub fn put_replies(&mut self, logs: &Logs) -> Result<(), NoMemory>
        requires { ArePrintable logs.now }
        ensures { OnOk result (Adds (reply_lines 0 logs.now) self.old self.new) }
    {
        for session in 0..logs.len() {
            self.put_log(session, logs.at(session))?;
        }
        Ok(())
    }

    /// The reply lines of session number `session`.
    fn put_log(&mut self, session: u64, log: &Log) -> Result<(), NoMemory>
        requires { All (λ reply. IsTrue (is_printable reply)) log.now }
        ensures { OnOk result (Adds (log_lines session 0 log.now) self.old self.new) }
    {
        for seq in 0..log.len() {
            self.put_reply(session, seq, log.at(seq))?;
        }
        Ok(())
    }

    /// The line of a reply: that of session number `session` to its command number `seq`.
    fn put_reply(&mut self, session: u64, seq: u64, reply: &LogLine) -> Result<(), NoMemory>
        requires { IsTrue (is_printable reply.now) }
        ensures { OnOk result
            (Adds ((Number session ∷ Number seq ∷ fields reply.now) ∷ []) self.old self.new) }
    {
        let tail = &mut self.tail;
        match reply {
            LogLine::Reply(outcome) => put_outcome(tail, *outcome),
            LogLine::Denied(denied) => put_denial(tail, *denied),
            LogLine::Answer(answer) => {
                self.put_answer(session, seq, answer)?;
                return Ok(());
            }
        }
        append(&mut self.text, tail, session, seq)?;
        Ok(())
    }

    /// The line of an answer.
    fn put_answer(&mut self, session: u64, seq: u64, answer: &ReadAnswer) -> Result<(), NoMemory>
        ensures { OnOk result
            (Adds ((Number session ∷ Number seq ∷ answer_fields answer.now) ∷ []) self.old self.new) }
    {
        let tail = &mut self.tail;
        match answer {
            ReadAnswer::Value {
                front,
                place,
                value,
            } => put_value(tail, *front, *place, *value),
            ReadAnswer::Parent {
                front,
                place,
                parent,
            } => put_parent(tail, *front, *place, *parent),
            ReadAnswer::Path {
                front,
                place,
                vertices,
            } => {
                put_path(tail, *front, *place, vertices.len());
                append(&mut self.text, tail, session, seq)?;
                self.put_vertices(vertices)?;
                return Ok(());
            }
            ReadAnswer::Modified {
                front,
                place,
                vertices,
            } => {
                put_modified(tail, *front, *place, vertices.len());
                append(&mut self.text, tail, session, seq)?;
                self.put_vertices(vertices)?;
                return Ok(());
            }
            ReadAnswer::Current { front, floor } => put_current(tail, *front, *floor),
        }
        append(&mut self.text, tail, session, seq)?;
        Ok(())
    }

    /// Each vertex behind a comma, and the line feed.
    fn put_vertices(&mut self, vertices: &Vertices) -> Result<(), NoMemory>
        ensures { OnOk result (AddsVertices vertices.now self.old self.new) }
    {
        for k in 0..vertices.len() {
            self.put_vertex(*vertices.at(k))?;
        }
        self.text.push(b'\n')?;
        Ok(())
    }

    /// A vertex behind a comma.
    fn put_vertex(&mut self, vertex: u32) -> Result<(), NoMemory>
        ensures { OnOk result (self.new ≡ self.old ++ (44 ∷ decimal vertex)) }
    {
        self.tail.clear();
        self.tail.put_number(u64::from(vertex));
        self.tail.put_word(b",");
        self.text.extend_from_slice(self.tail.bytes())?;
        Ok(())
    }

    /// The journal lines of a serial list.
    pub fn put_journal(&mut self, lines: &Lines) -> Result<(), NoMemory>
        ensures { OnOk result (Adds (map journal_fields (journal_of lines.now)) self.old self.new) }
    {
        let mut entries = 0;
        for k in 0..lines.len() {
            match lines.at(k) {
                Line::Entry(entry) => {
                    entries += 1;
                    put_entry(&mut self.tail, entries, entry.session, entry.seq);
                }
                Line::Mark { session, seq, .. } => {
                    put_mark(&mut self.tail, entries, *session, *seq);
                }
                Line::Leave { session, seq } => {
                    put_leave(&mut self.tail, entries, *session, *seq);
                }
            }
            self.text.extend_from_slice(self.tail.bytes())?;
        }
        Ok(())
    }

    /// The summary line.
    pub fn put_summary(&mut self, counts: Counts, visits: u64) -> Result<(), NoMemory>
        ensures { OnOk result (Adds (summary_fields (summary_with counts visits) ∷ []) self.old self.new) }
    {
        put_counts(&mut self.tail, counts, visits);
        self.text.extend_from_slice(self.tail.bytes())?;
        Ok(())
    }
}

/// Appends a session, the number of a command and the end of their line to a text.
fn append(text: &mut Vec<u8>, tail: &mut Tail, session: u64, seq: u64) -> Result<(), NoMemory>
    requires { length tail.old ≤ 200 }
    ensures { OnOk result (text.new.items
        ≡ text.old.items ++ (decimal session ++ (44 ∷ (decimal seq ++ (44 ∷ tail.old))))) }
{
    tail.put_next(seq);
    tail.put_next(session);
    text.extend_from_slice(tail.bytes())?;
    Ok(())
}
