ghost use Rattle.std.specs.Prelude.{◌<◌, ◌^◌, ◌∷◌, [], length, map};
ghost use Rattle.std.specs.List.{AllByRecursion};
ghost use Rattle.ris_base.specs.Transcript.{IsSmall, answer_fields, denial_fields, outcome_fields, parent_fields, value_field};
ghost use Rattle.ris_base.specs.Transcript.Field.{Number};
ghost use Rattle.ris_text.specs.Small.{AreSmall, IsSmallLine, IsSmallLog, IsSmallReply};

use ris_base::{
    Line, Lines, Log, LogLine, Logs, Outcome, Parent, ReadAnswer, ReadRefusal, Value, Vertices,
};

/// Reads each number of the replies and of the serial list. What is read is at most a `u64`, and so the numbers of a
/// transcript are known to be below 2^64 where it isn't printed. Nothing is kept, so it compiles to nothing.
pub fn read_numbers(logs: &Logs, lines: &Lines)
    ensures { AreSmall logs.now lines.now }
{
    read_logs(logs);
    read_lines(lines);
}

/// Reads the numbers of all replies.
fn read_logs(logs: &Logs)
    ensures few { length logs.now < 2 ^ 64 }
    ensures logs { AllByRecursion IsSmallLog logs.now }
{
    for session in 0..logs.len() {
        read_log(logs.at(session));
    }
}

/// Reads the numbers of the replies of a session.
fn read_log(log: &Log)
    ensures { IsSmallLog log.now }
{
    for seq in 0..log.len() {
        read_reply(log.at(seq));
    }
}

/// Reads the numbers of a reply.
fn read_reply(reply: &LogLine)
    ensures { IsSmallReply reply.now }
{
    match reply {
        LogLine::Reply(outcome) => read_outcome(*outcome),
        LogLine::Denied(denied) => read_denial(*denied),
        LogLine::Answer(answer) => read_answer(answer),
    }
}

/// Reads the numbers of an outcome.
fn read_outcome(_outcome: Outcome)
    ensures { AllByRecursion IsSmall (outcome_fields _outcome) }
{}

/// Reads the numbers of the refusal of a read.
fn read_denial(_denied: ReadRefusal)
    ensures { AllByRecursion IsSmall (denial_fields _denied) }
{}

/// Reads the numbers of an answer.
fn read_answer(answer: &ReadAnswer)
    ensures { AllByRecursion IsSmall (answer_fields answer.now) }
{
    match answer {
        ReadAnswer::Value {
            front,
            place,
            value,
        } => {
            read_pair(*front, *place);
            read_value(*value);
        }
        ReadAnswer::Parent {
            front,
            place,
            parent,
        } => {
            read_pair(*front, *place);
            read_parent(*parent);
        }
        ReadAnswer::Path {
            front,
            place,
            vertices,
        } => {
            read_pair(*front, *place);
            read_vertices(vertices);
        }
        ReadAnswer::Modified {
            front,
            place,
            vertices,
        } => {
            read_pair(*front, *place);
            read_vertices(vertices);
        }
        ReadAnswer::Current { front, floor } => read_pair(*front, *floor),
    }
}

/// Reads two numbers.
fn read_pair(_first: u64, _second: u64)
    ensures first { _first < 2 ^ 64 }
    ensures second { _second < 2 ^ 64 }
{}

/// Reads the number of a value.
fn read_value(_value: Value)
    ensures { IsSmall (value_field _value) }
{}

/// Reads the numbers of a parent.
fn read_parent(_parent: Parent)
    ensures { AllByRecursion IsSmall (parent_fields _parent) }
{}

/// Reads vertices.
fn read_vertices(vertices: &Vertices)
    ensures few { length vertices.now < 2 ^ 64 }
    ensures vertices { AllByRecursion IsSmall (map Number vertices.now) }
{
    for k in 0..vertices.len() {
        read_pair(0, u64::from(*vertices.at(k)));
    }
}

/// Reads the numbers of the lines of a serial list.
fn read_lines(lines: &Lines)
    ensures few { length lines.now < 2 ^ 64 }
    ensures lines { AllByRecursion IsSmallLine lines.now }
{
    for k in 0..lines.len() {
        read_line(lines.at(k));
    }
}

/// Reads the session and the number of the command of a line.
fn read_line(line: &Line)
    ensures { IsSmallLine line.now }
{
    match line {
        Line::Entry(entry) => read_pair(u64::from(entry.session), entry.seq),
        Line::Mark { session, seq, .. } => read_pair(u64::from(*session), *seq),
        Line::Leave { session, seq } => read_pair(u64::from(*session), *seq),
    }
}
