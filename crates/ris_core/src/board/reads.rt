ghost use Rattle.std.specs.Prelude.{◌≡◌, ◌<◌, ◌≤◌, All, IfOk, IfSome, length, true};
ghost use Rattle.ris_base.specs.Answers.{analysis_of, place_of};
ghost use Rattle.ris_base.specs.Lines.{floor, front};
ghost use Rattle.ris_core.specs.Answered.{answered, answered_at, rows_at};
ghost use Rattle.ris_core.specs.Moves.{IsMade, exists_of, read};

use super::Board;
use crate::answers::{moved_between, path_in};
use crate::lists::{floor, front};
use crate::tables::{Rows, parent_in, value_in};
use ris_base::{LogLine, NoMemory, Question, ReadAnswer, ReadRefusal};
use std::alloc::Global;

impl Board {
    /// A session without an open request reads, on the published lines with the forests of each place.
    pub(crate) fn read(
        &mut self,
        alloc: Global,
        session: u32,
        question: Question,
    ) -> Result<bool, NoMemory>
        requires { self.old.published ≤ length self.old.lines }
        ensures made { IsMade (read self.old session question (answered self.old question)) self.old self.new result }
        ensures full { All (λ tables. length tables ≡ length self.old.specs) self.old.places }
    {
        let Some(seat) = self.seats.get(session as usize) else {
            return Ok(false);
        };
        if !seat.is_answered() {
            return Ok(false);
        }
        if !self.exists(question) {
            return Ok(false);
        }
        let reply = self.answer(alloc, question)?;
        let published = self.published;
        self.seats[session as usize].read(question, reply, published)?;
        Ok(true)
    }

    /// Whether the analysis of a question exists.
    fn exists(&self, question: Question) -> bool
        ensures { result ≡ exists_of (length self.now.specs) (analysis_of question) }
    {
        match question {
            Question::Value { a, .. }
            | Question::Parent { a, .. }
            | Question::Path { a, .. }
            | Question::Modified { a, .. } => u64::from(a) < self.specs.len(),
            Question::Current => true,
        }
    }

    /// The answer on the published lines.
    fn answer(&self, alloc: Global, question: Question) -> Result<LogLine, NoMemory>
        requires within { self.now.published ≤ length self.now.lines }
        requires exists { exists_of (length self.now.specs) (analysis_of question) ≡ true }
        ensures { IfOk result (λ reply. reply ≡ answered self.now question) }
    {
        let known = &self.lines[..self.published as usize];
        let front = front(known);
        let floor = floor(self.seats.len() as u64, known);
        let Some(place) = place_of(question) else {
            return Ok(LogLine::Answer(ReadAnswer::Current { front, floor }));
        };
        if front < place {
            return Ok(LogLine::Denied(ReadRefusal::NotYet { front }));
        }
        if place < floor {
            return Ok(LogLine::Denied(ReadRefusal::Released { front, floor }));
        }
        let answer = self.answer_at(alloc, front, question)?;
        Ok(LogLine::Answer(answer))
    }

    /// The answer at a place that can be read.
    fn answer_at(
        &self,
        alloc: Global,
        front: u64,
        question: Question,
    ) -> Result<ReadAnswer, NoMemory>
        requires place { IfSome (place_of question) (λ v. v < length self.now.places) }
        requires exists { exists_of (length self.now.specs) (analysis_of question) ≡ true }
        ensures { IfOk result (λ answer. answer ≡ answered_at self.now front question) }
    {
        match question {
            Question::Value { place, a, x } => {
                let value = value_in(self.rows(place, a), x);
                Ok(ReadAnswer::Value {
                    front,
                    place,
                    value,
                })
            }
            Question::Parent { place, a, x } => {
                let parent = parent_in(self.rows(place, a), x);
                Ok(ReadAnswer::Parent {
                    front,
                    place,
                    parent,
                })
            }
            Question::Path { place, a, x } => {
                let vertices = path_in(alloc, self.rows(place, a), x)?;
                Ok(ReadAnswer::Path {
                    front,
                    place,
                    vertices,
                })
            }
            Question::Modified { place, a } => {
                let before = self.rows(place.saturating_sub(1), a);
                let vertices = moved_between(alloc, before, self.rows(place, a))?;
                Ok(ReadAnswer::Modified {
                    front,
                    place,
                    vertices,
                })
            }
            Question::Current => Ok(ReadAnswer::Current {
                front,
                floor: front,
            }),
        }
    }

    /// The rows of an analysis at a place.
    fn rows(&self, place: u64, a: u32) -> &Rows
        requires place { place < length self.now.places }
        requires exists { a < length self.now.specs }
        ensures { result.now ≡ rows_at self.now place a }
    {
        self.places[place as usize].at(u64::from(a))
    }
}

/// The place of a question, where it has one.
fn place_of(question: Question) -> Option<u64>
    ensures { result ≡ place_of question }
{
    match question {
        Question::Value { place, .. }
        | Question::Parent { place, .. }
        | Question::Path { place, .. }
        | Question::Modified { place, .. } => Some(place),
        Question::Current => None,
    }
}
