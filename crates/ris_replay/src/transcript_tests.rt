ghost use Rattle.ris_base.specs.Graph.{IsProper};
ghost use Rattle.ris_base.specs.Script.{opening_of};

use crate::tests::{over, run_over};
use ris_base::{
    Command, CommandLists, Kind, Parts, PlainGraph, Refusal, Script, Spec, Status, Value, Values,
    Vertices, read_number,
};
use ris_four::{plain_copy, plain_entered, plain_values};
use ris_script::read_script;
use ris_words::make_script;
use std::alloc::Global;
use std::marker::Model;
use std::process::Abort;
use std::str;
use std::test::Fail;
use std::thread::Threads;

/// The words of the run, and its analyses.
const WORDS: &str = "replay --workers 4 --analyses bfs:0,sssp:0,wcc";

const KINDS: [Kind; 3] = [Kind::Bfs, Kind::Sssp, Kind::Wcc];

/// A command by its session and its number in it.
type Name = (u64, u64);

/// The plain graph of a place, and that of the place before.
#[derive(Drop)]
struct Step {
    before: PlainGraph,
    after: PlainGraph,
}

impl Model for Step {
    ghost use Rattle.ris_base.specs.Graph.{IsProper};
    ghost use Rattle.ris_base.specs.declared.graphs.PlainGraph.{PlainGraph};

    ghost Value = { PlainGraph };

    ghost view = { λ s. s.after };

    ghost invariant = { λ s. IsProper s.before × IsProper s.after };
}

impl Step {
    /// The graph of place 0, which none is before.
    fn start(alloc: Global, after: PlainGraph) -> Result<Step, Fail>
        requires { IsProper after }
    {
        let before = plain_copy(alloc, &after)?;
        Ok(Step { before, after })
    }

    /// The step of the next entry, which has these parts.
    fn entered(self, alloc: Global, parts: &Parts) -> Result<Step, Fail> {
        let Step {
            before: _,
            after: before,
        } = self;
        match plain_entered(alloc, &before, parts, 0) {
            Ok(after) => Ok(Step { before, after }),
            Err(_) => Err(Fail::from("an entry is refused")),
        }
    }

    /// The values of an analysis at the place.
    fn values<R: AllocGlobal + Threads + Sync>(&self, rt: &R, spec: Spec) -> Result<Values, Fail> {
        let values = plain_values(rt, rt.alloc(), &self.after, spec)?;
        Ok(values)
    }

    /// The vertices whose values the place and the one before don't share, in order.
    fn moved<R: AllocGlobal + Threads + Sync>(&self, rt: &R, spec: Spec) -> Result<Vec<u64>, Fail> {
        let before = plain_values(rt, rt.alloc(), &self.before, spec)?;
        let after = self.values(rt, spec)?;
        let mut moved = Vec::new(rt.alloc());
        for x in 0..before.len().max(after.len()) {
            if value_at(&before, x) != value_at(&after, x) {
                moved.push(x)?;
            }
        }
        Ok(moved)
    }
}

/// The value of a vertex number.
fn value_at(values: &Values, x: u64) -> Value {
    values.get(x).copied().unwrap_or(Value::Absent)
}

/// The analysis with this number.
fn spec_of(a: u32) -> Result<Spec, Fail> {
    match KINDS.get(a as usize) {
        Some(kind) => Ok(Spec {
            kind: *kind,
            root: 0,
        }),
        None => Err(Fail::from("no such analysis")),
    }
}

/// The graph of place 0 of a script, and the commands of its sessions.
fn opening(alloc: Global, script: Script) -> Result<(Step, CommandLists), Fail>
    requires { IsProper (opening_of script) }
{
    let Script {
        format,
        vertices: count,
        sessions: _,
        base: triples,
        commands,
    } = script;
    let mut vertices = Vertices::new(alloc);
    for x in 0..count {
        vertices.push(x)?;
    }
    let graph = PlainGraph {
        format,
        vertices,
        triples,
    };
    Ok((Step::start(alloc, graph)?, commands))
}

/// The same of the script that bytes spell.
fn opened(alloc: Global, bytes: &[u8]) -> Result<(Step, CommandLists), Fail> {
    match read_script(alloc, bytes, 3) {
        Ok(script) => opening(alloc, script),
        Err(_) => Err(Fail::from("no script")),
    }
}

/// The names of all commands, session by session.
fn names_of(alloc: Global, lists: &CommandLists) -> Result<Vec<Name>, Fail> {
    let mut names = Vec::new(alloc);
    for session in 0..lists.len() {
        let count = lists.get(session).map_or(0, |commands| commands.len());
        push_names(&mut names, session, count)?;
    }
    Ok(names)
}

/// The names of so many commands of a session.
fn push_names(names: &mut Vec<Name>, session: u64, count: u64) -> Result<(), Fail> {
    for seq in 0..count {
        names.push((session, seq))?;
    }
    Ok(())
}

/// A command by its name.
fn command_of(lists: &CommandLists, name: Name) -> Result<&Command, Fail> {
    let Some(commands) = lists.get(name.0) else {
        return Err(Fail::from("no such session"));
    };
    match commands.get(name.1) {
        Some(command) => Ok(command),
        None => Err(Fail::from("no such command")),
    }
}

/// The number that a field of a line spells, counted from 0.
fn number_at(line: &str, place: usize) -> Result<u64, Fail> {
    match line.split(',').nth(place) {
        Some(field) => match read_number(field.as_bytes()) {
            Some(number) => Ok(number),
            None => Err(Fail::from("no number")),
        },
        None => Err(Fail::from("no field")),
    }
}

/// The names of the entries of a journal, which are numbered from 1 and are all its lines.
fn read_journal<R: AllocGlobal + Abort>(rt: &R, lines: &[&str]) -> Result<Vec<Name>, Fail> {
    let mut entries = Vec::new(rt.alloc());
    let mut place: u64 = 0;
    for line in lines {
        place = place.saturating_add(1);
        let (session, seq) = (number_at(line, 3)?, number_at(line, 4)?);
        let text = format!(in rt.alloc(); "journal,entry,{place},{session},{seq}")?;
        assert_eq!(rt; *line, text.as_str());
        entries.push((session, seq))?;
    }
    Ok(entries)
}

/// The place of a command in the journal.
fn place_in(journal: &[Name], name: Name) -> Option<u64> {
    let k = journal.iter().position(|entry| *entry == name)?;
    Some((k as u64).saturating_add(1))
}

/// A reply that names a place: the line and the front that it says.
#[derive(Clone, Copy)]
struct Reply<'a> {
    name: Name,
    line: &'a str,
    front: u64,
    place: u64,
}

/// What a session was told so far: its last place, and the last front.
#[derive(Clone, Copy)]
struct Told {
    session: u64,
    place: u64,
    front: u64,
}

impl Told {
    /// Expects that a command has its place in the journal, which is past all that was told.
    fn tell_place<R: AllocGlobal + Abort>(
        &mut self,
        rt: &R,
        name: Name,
        line: &str,
        place: u64,
    ) -> Result<(), Fail> {
        let text = format!(in rt.alloc(); "{},{},place,{place}", name.0, name.1)?;
        assert_eq!(rt; line, text.as_str());
        assert!(rt; self.front < place, "{line}");
        self.place = place;
        self.front = place;
        Ok(())
    }

    /// Another reply, with a front that doesn't fall.
    fn tell_front<'a, R: AllocGlobal + Abort>(
        &mut self,
        rt: &R,
        name: Name,
        line: &'a str,
        changes: bool,
    ) -> Result<Reply<'a>, Fail> {
        let front = number_at(line, 3)?;
        assert!(rt; self.front <= front, "{line}");
        self.front = front;
        let place = if changes { front } else { self.place };
        Ok(Reply {
            name,
            line,
            front,
            place,
        })
    }
}

/// Expects that the changes that the journal names have their places. The other replies.
fn read_replies<'a, R: AllocGlobal + Abort>(
    rt: &R,
    lists: &CommandLists,
    journal: &[Name],
    lines: &[&'a str],
) -> Result<Vec<Reply<'a>>, Fail> {
    let mut replies = Vec::new(rt.alloc());
    let mut told = Told {
        session: 0,
        place: 0,
        front: 0,
    };
    let names = names_of(rt.alloc(), lists)?;
    for (name, line) in names.iter().zip(lines.iter()) {
        if name.0 != told.session {
            told = Told {
                session: name.0,
                place: 0,
                front: 0,
            };
        }
        match place_in(journal, *name) {
            Some(place) => told.tell_place(rt, *name, line, place)?,
            None => {
                let changes = matches!(command_of(lists, *name)?, Command::Change(_));
                replies.push(told.tell_front(rt, *name, line, changes)?)?;
            }
        }
    }
    Ok(replies)
}

/// The text of a value.
fn value_text(alloc: Global, value: Value) -> Result<String, Fail> {
    let text = match value {
        Value::Absent => format!(in alloc; "absent")?,
        Value::Unreached => format!(in alloc; "unreached")?,
        Value::Num(number) => format!(in alloc; "{number}")?,
    };
    Ok(text)
}

/// How a request is refused.
fn refusal_text(alloc: Global, step: &Step, parts: &Parts, front: u64) -> Result<String, Fail> {
    match plain_entered(alloc, &step.after, parts, front) {
        Err(Refusal::NoEdge { front, part }) => {
            let text = format!(in alloc; "noedge,{front},{part}")?;
            Ok(text)
        }
        _ => Err(Fail::from("another answer than that no edge is there")),
    }
}

/// How many vertices moved, and which.
fn moved_text(alloc: Global, moved: &[u64]) -> Result<String, Fail> {
    let mut text = format!(in alloc; "{}", moved.len())?;
    for x in moved {
        write!(text, ",{x}")?;
    }
    Ok(text)
}

/// What the definitions answer to a command at its place.
fn answer<R: AllocGlobal + Threads + Sync>(
    rt: &R,
    step: &Step,
    command: &Command,
    reply: &Reply,
) -> Result<String, Fail> {
    let (front, place) = (reply.front, reply.place);
    let text = match command {
        Command::Change(parts) => return refusal_text(rt.alloc(), step, parts, front),
        Command::Value(_, a, x) => {
            let value = value_at(&step.values(rt, spec_of(*a)?)?, *x);
            let value = value_text(rt.alloc(), value)?;
            format!(in rt.alloc(); "value,{front},{place},{value}")?
        }
        Command::Modified(_, a) => {
            let moved = step.moved(rt, spec_of(*a)?)?;
            let moved = moved_text(rt.alloc(), moved.as_slice())?;
            format!(in rt.alloc(); "modified,{front},{place},{moved}")?
        }
        _ => return Err(Fail::from("no command of a made script")),
    };
    Ok(text)
}

/// Expects that the replies that name a place are those of the definitions. How many there are.
fn expect_place<R: AllocGlobal + Threads + Sync + Abort>(
    rt: &R,
    step: &Step,
    lists: &CommandLists,
    replies: &[Reply],
    place: u64,
) -> Result<u64, Fail> {
    let mut count: u64 = 0;
    for reply in replies {
        if reply.place == place {
            let (session, seq) = reply.name;
            let answer = answer(rt, step, command_of(lists, reply.name)?, reply)?;
            let text = format!(in rt.alloc(); "{session},{seq},{answer}")?;
            assert_eq!(rt; reply.line, text.as_str());
            count = count.saturating_add(1);
        }
    }
    Ok(count)
}

/// Expects that each reply is that of the definitions on the graph of its place.
fn expect_replies<R: AllocGlobal + Threads + Sync + Abort>(
    rt: &R,
    start: Step,
    lists: &CommandLists,
    journal: &[Name],
    replies: &[Reply],
) -> Result<(), Fail> {
    let mut step = start;
    let mut count = expect_place(rt, &step, lists, replies, 0)?;
    let mut place: u64 = 0;
    for name in journal {
        let Command::Change(parts) = command_of(lists, *name)? else {
            return Err(Fail::from("an entry is no change"));
        };
        step = step.entered(rt.alloc(), parts)?;
        place = place.saturating_add(1);
        count = count.saturating_add(expect_place(rt, &step, lists, replies, place)?);
    }
    assert_eq!(rt; count, replies.len() as u64);
    Ok(())
}

/// How many changes are among the replies.
fn refused(lists: &CommandLists, replies: &[Reply]) -> Result<u64, Fail> {
    let mut count: u64 = 0;
    for reply in replies {
        if let Command::Change(_) = command_of(lists, reply.name)? {
            count = count.saturating_add(1);
        }
    }
    Ok(count)
}

/// The lines of a text.
fn lines_of(alloc: Global, bytes: &[u8]) -> Result<Vec<&str>, Fail> {
    let Ok(text) = str::from_utf8(bytes) else {
        return Err(Fail::from("no text"));
    };
    let mut lines = Vec::new(alloc);
    for line in text.lines() {
        lines.push(line)?;
    }
    Ok(lines)
}

/// Expects that replies and journal lines are those of the definitions. How many entries there are, and how many changes are
/// refused.
fn expect_lines<R: AllocGlobal + Threads + Sync + Abort>(
    rt: &R,
    start: Step,
    lists: &CommandLists,
    lines: &[&str],
) -> Result<(u64, u64), Fail> {
    let count = names_of(rt.alloc(), lists)?.len();
    let Some((told, entries)) = lines.split_at_checked(count) else {
        return Err(Fail::from("too few replies"));
    };
    let journal = read_journal(rt, entries)?;
    let replies = read_replies(rt, lists, journal.as_slice(), told)?;
    assert_eq!(rt; replies.len().saturating_add(journal.len()), count);
    expect_replies(rt, start, lists, journal.as_slice(), replies.as_slice())?;
    let refused = refused(lists, replies.as_slice())?;
    Ok((journal.len() as u64, refused))
}

/// Expects that a text is the transcript of the definitions.
fn expect_text<R: AllocGlobal + Threads + Sync + Abort>(
    rt: &R,
    start: Step,
    lists: &CommandLists,
    out: &[u8],
    visits: u64,
) -> Result<(), Fail> {
    let lines = lines_of(rt.alloc(), out)?;
    let Some((summary, rest)) = lines.as_slice().split_last() else {
        return Err(Fail::from("no summary"));
    };
    let (entries, refused) = expect_lines(rt, start, lists, rest)?;
    let text = format!(in rt.alloc(); "summary,{entries},0,{refused},{visits}")?;
    assert_eq!(rt; *summary, text.as_str());
    Ok(())
}

/// Expects that a transcript of a script is that of the definitions.
fn expect_transcript<R: AllocGlobal + Threads + Sync + Abort>(
    rt: &R,
    script: &[u8],
    out: &[u8],
    visits: u64,
) -> Result<(), Fail> {
    let (start, lists) = opened(rt.alloc(), script)?;
    expect_text(rt, start, &lists, out, visits)
}

#[test]
fn each_line_is_that_of_the_definitions(rt: HostRuntime) -> Result<(), Fail> {
    let script = make_script(rt.alloc(), 1, 2000)?.into_vec();
    let ran = run_over(&rt, over(WORDS, script.as_slice()))?;
    assert_eq!(rt; ran.status, Status::Ok);
    expect_transcript(&rt, script.as_slice(), ran.out.held(), ran.visits)
}
