ghost use Rattle.std.specs.Prelude.{◌≡◌, All, IfOk, IsTrue, []};
ghost use Rattle.ris_text.specs.Printable.{is_printable, ArePrintable};

use crate::{summary_text, transcript_text};
use ris_base::{
    Entry, Line, Lines, Log, LogLine, Logs, NoMemory, Outcome, Parent, PartsBuilder, ReadAnswer,
    ReadRefusal, Refusal, Update, Value, Vertices,
};
use std::alloc::Global;
use std::test::Fail;

/// One reply more, which can be printed.
fn push(log: &mut Log, reply: LogLine) -> Result<(), NoMemory>
    requires before { All (λ r. IsTrue (is_printable r)) log.old }
    requires printable { IsTrue (is_printable reply) }
    ensures { All (λ r. IsTrue (is_printable r)) log.new }
{
    log.push(reply)?;
    Ok(())
}

/// Three vertices.
fn vertices(alloc: Global) -> Result<Vertices, NoMemory> {
    let mut vertices = Vertices::new(alloc);
    for x in [4_194_303u32, 1, 0] {
        vertices.push(x)?;
    }
    Ok(vertices)
}

/// One outcome of each kind.
fn outcomes(alloc: Global) -> Result<Log, NoMemory>
    ensures { IfOk result (All (λ r. IsTrue (is_printable r))) }
{
    let mut log = Log::new(alloc);
    push(&mut log, LogLine::Reply(Outcome::Placed { place: 1 }))?;
    push(
        &mut log,
        LogLine::Reply(Outcome::Marked { front: 2, upto: 1 }),
    )?;
    push(&mut log, LogLine::Reply(Outcome::Left { front: 3 }))?;
    push(&mut log, LogLine::Reply(Outcome::NotYet { front: 4 }))?;
    push(
        &mut log,
        LogLine::Reply(Outcome::Refused(Refusal::NoVertex {
            front: 5,
            part: 6,
            id: 7,
        })),
    )?;
    push(
        &mut log,
        LogLine::Reply(Outcome::Refused(Refusal::NoEdge {
            front: 8,
            part: 1_024,
        })),
    )?;
    push(
        &mut log,
        LogLine::Reply(Outcome::Refused(Refusal::Limit {
            front: 9,
            part: 10,
            given: u64::MAX,
        })),
    )?;
    push(
        &mut log,
        LogLine::Reply(Outcome::Refused(Refusal::NoMemory)),
    )?;
    push(&mut log, LogLine::Denied(ReadRefusal::NotYet { front: 11 }))?;
    push(
        &mut log,
        LogLine::Denied(ReadRefusal::Released {
            front: 12,
            floor: 13,
        }),
    )?;
    push(&mut log, LogLine::Denied(ReadRefusal::NoMemory))?;
    Ok(log)
}

/// One answer of each kind.
fn answers(alloc: Global) -> Result<Log, NoMemory>
    ensures { IfOk result (All (λ r. IsTrue (is_printable r))) }
{
    let mut log = Log::new(alloc);
    let (front, place) = (14, 15);
    let value = |value| LogLine::Answer(ReadAnswer::Value {
        front,
        place,
        value,
    });
    push(&mut log, value(Value::Absent))?;
    push(&mut log, value(Value::Unreached))?;
    push(&mut log, value(Value::Num(16)))?;
    let parent = |parent| LogLine::Answer(ReadAnswer::Parent {
        front,
        place,
        parent,
    });
    push(&mut log, parent(Parent::None))?;
    push(
        &mut log,
        parent(Parent::From {
            vertex: 1,
            source: 2,
            target: 3,
            weight: 4,
        }),
    )?;
    let path = |vertices| LogLine::Answer(ReadAnswer::Path {
        front,
        place,
        vertices,
    });
    push(&mut log, path(Vertices::new(alloc)))?;
    push(&mut log, path(vertices(alloc)?))?;
    push(
        &mut log,
        LogLine::Answer(ReadAnswer::Modified {
            front,
            place,
            vertices: vertices(alloc)?,
        }),
    )?;
    push(
        &mut log,
        LogLine::Answer(ReadAnswer::Current { front, floor: 13 }),
    )?;
    Ok(log)
}

/// Both logs.
fn logs(alloc: Global) -> Result<Logs, NoMemory>
    ensures { IfOk result ArePrintable }
{
    let mut logs = Logs::new(alloc);
    logs.push(outcomes(alloc)?)?;
    logs.push(answers(alloc)?)?;
    Ok(logs)
}

/// Two entries, a mark and a leave.
fn lines(alloc: Global) -> Result<Lines, Fail> {
    let mut lines = Lines::new(alloc);
    lines.push(entry(alloc, 2, 3)?)?;
    lines.push(Line::Mark {
        session: 4,
        seq: 5,
        upto: 9,
    })?;
    lines.push(Line::Leave { session: 6, seq: 7 })?;
    lines.push(entry(alloc, 63, 9)?)?;
    Ok(lines)
}

fn entry(alloc: Global, session: u32, seq: u64) -> Result<Line, Fail> {
    let mut builder = PartsBuilder::new(alloc)?;
    if builder.push(Update::AddV { x: 0 }).is_err() {
        return Err(NoMemory.into());
    }
    let parts = builder.close().ok_or("no parts")?;
    Ok(Line::Entry(Entry {
        session,
        seq,
        parts,
    }))
}

const WANTED: &str = "0,0,place,1
0,1,marked,2,1
0,2,left,3
0,3,notyet,4
0,4,novertex,5,6,7
0,5,noedge,8,1024
0,6,limit,9,10,18446744073709551615
0,7,nomem
0,8,notyet,11
0,9,released,12,13
0,10,nomem
1,0,value,14,15,absent
1,1,value,14,15,unreached
1,2,value,14,15,16
1,3,parent,14,15,none
1,4,parent,14,15,1,2,3,4
1,5,path,14,15,0
1,6,path,14,15,3,4194303,1,0
1,7,modified,14,15,3,4194303,1,0
1,8,current,14,13
journal,entry,1,2,3
journal,mark,1,4,5
journal,leave,1,6,7
journal,entry,2,63,9
summary,2,1,8,25
";

#[test]
fn each_kind_of_line_is_printed(rt: HostRuntime) -> Result<(), Fail> {
    let logs = logs(rt.alloc())?;
    let lines = lines(rt.alloc())?;
    let text = transcript_text(rt.alloc(), &logs, &lines, 25)?.into_vec();
    assert_eq!(rt; text.as_slice(), WANTED.as_bytes());
    let summary = summary_text(rt.alloc(), &logs, &lines, 25)?.into_vec();
    assert_eq!(rt; summary.as_slice(), b"summary,2,1,8,25\n".as_slice());
    Ok(())
}
