use crate::rows::{Row, row_of_limits, rows, rows_of_turns};
use crate::run_inline;
use ris_base::{Bytes, FreeGate, Gate, Meter, Status, Words};
use ris_io::{Calls, MemSink, MemSource};
use ris_phase::HoldGate;
use ris_words::make_script;
use std::alloc::Global;
use std::process::Abort;
use std::test::Fail;
use std::thread::Threads;

/// Counts visits for a test.
#[derive(Drop)]
pub(crate) struct Count {
    pub(crate) ticks: u64,
}

impl Meter for Count {
    ghost ticks = { λ c. c.ticks };

    fn tick(&mut self) {
        self.ticks = self.ticks.saturating_add(1);
    }

    fn total(&self) -> u64 {
        self.ticks
    }
}

/// What a run over memory is given: its words in one text with blanks between them, the bytes of its input, and the number
/// of the call of each stream that fails, 0 for none.
#[derive(Clone, Copy)]
pub(crate) struct Given<'a> {
    pub(crate) words: &'a str,
    pub(crate) script: &'a [u8],
    pub(crate) read_cut: u64,
    pub(crate) read_fails: u64,
    pub(crate) write_cut: u64,
    pub(crate) write_fails: u64,
    pub(crate) report_fails: u64,
}

/// What a run over memory gave.
#[derive(Drop)]
pub(crate) struct Ran {
    pub(crate) status: Status,
    pub(crate) out: MemSink,
    pub(crate) faults: MemSink,
    pub(crate) visits: u64,
}

fn calls(alloc: Global, number: u64) -> Result<Calls, Fail> {
    let mut calls = Calls::new(alloc);
    if number > 0 {
        calls.push(number)?;
    }
    Ok(calls)
}

/// The visits that the meter counted before the run.
const EARLIER: u64 = 5;

/// Runs what is given, with a gate that holds nobody.
pub(crate) fn run_over<R: Threads + Sync + AllocGlobal>(rt: &R, given: Given) -> Result<Ran, Fail> {
    run_through(rt, given, &FreeGate)
}

/// Runs what is given, with this gate.
fn run_through<R: Threads + Sync + AllocGlobal, G: Gate>(
    rt: &R,
    given: Given,
    gate: &G,
) -> Result<Ran, Fail> {
    let mut words = Words::new(rt.alloc());
    for word in given.words.split_whitespace() {
        words.push(word)?;
    }
    let script = Bytes::from_vec(Vec::from_slice(rt.alloc(), given.script)?);
    let mut input = MemSource::new(
        script,
        given.read_cut.max(1),
        calls(rt.alloc(), given.read_fails)?,
    );
    let mut out = MemSink::new(
        rt.alloc(),
        given.write_cut.max(1),
        calls(rt.alloc(), given.write_fails)?,
    );
    let mut faults = MemSink::new(rt.alloc(), 4, calls(rt.alloc(), given.report_fails)?);
    let mut meter = Count { ticks: EARLIER };
    let status = run_inline(
        rt,
        rt.alloc(),
        &words,
        &mut input,
        &mut out,
        &mut faults,
        &mut meter,
        gate,
    );
    Ok(Ran {
        status,
        out,
        faults,
        visits: meter.total().saturating_sub(EARLIER),
    })
}

/// Runs a row, and compares what it gives.
fn expect_row<R: Threads + Sync + AllocGlobal + Abort>(rt: &R, row: &Row) -> Result<(), Fail> {
    expect_text(
        rt,
        over(row.words, row.script.as_bytes()),
        row.text,
        row.most,
    )
}

/// Runs what ends by `Ok`, and compares what it gives. Its last number is the rise of the meter.
fn expect_text<R: Threads + Sync + AllocGlobal + Abort>(
    rt: &R,
    given: Given,
    text: &str,
    most: u64,
) -> Result<(), Fail> {
    let ran = run_over(rt, given)?;
    let text = format!(in rt.alloc(); "{}{}\n", text, ran.visits)?;
    assert_eq!(rt; ran.status, Status::Ok, "at {:?}", given.script);
    assert_eq!(rt; ran.out.held(), text.as_bytes(), "at {:?}", given.script);
    assert_eq!(rt; ran.faults.held(), b"".as_slice());
    assert!(rt; ran.visits <= most, "at {:?}", given.script);
    Ok(())
}

/// Runs what ends by another status than `Ok`, and compares what it gives.
fn expect_status<R: Threads + Sync + AllocGlobal + Abort>(
    rt: &R,
    given: Given,
    status: Status,
    out: &str,
    line: &str,
) -> Result<(), Fail> {
    let ran = run_over(rt, given)?;
    assert_eq!(rt; ran.status, status, "at {}", given.words);
    assert_eq!(rt; ran.out.held(), out.as_bytes());
    assert_eq!(rt; ran.faults.held(), line.as_bytes());
    assert_eq!(rt; ran.visits, 0);
    Ok(())
}

#[test]
fn worked_rows_give_their_transcripts(rt: HostRuntime) -> Result<(), Fail> {
    for row in rows() {
        expect_row(&rt, row)?;
    }
    Ok(())
}

#[test]
fn any_number_of_workers_gives_one_transcript(rt: HostRuntime) -> Result<(), Fail> {
    for row in rows_of_turns() {
        expect_row(&rt, row)?;
        for workers in [1, 4, 64] {
            let words = format!(in rt.alloc(); "{} --workers {workers}", row.words)?;
            let given = over(&words, row.script.as_bytes());
            expect_text(&rt, given, row.text, row.most)?;
        }
    }
    Ok(())
}

#[test]
fn numbers_have_limits(rt: HostRuntime) -> Result<(), Fail> {
    expect_row(&rt, &row_of_limits())
}

#[test]
fn two_workers_meet_at_the_gate(rt: HostRuntime) -> Result<(), Fail> {
    let gate = HoldGate::new(0, 1);
    let words = "replay --workers 2 --analyses bfs:0";
    let script = b"risgraph,1,33,2\n0,addv,0\n1,addv,32\n";
    let ran = run_through(&rt, over(words, script), &gate)?;
    let text =
        "0,0,place,1\n1,0,place,2\njournal,entry,1,0,0\njournal,entry,2,1,0\nsummary,2,0,0,0\n";
    assert_eq!(rt; ran.status, Status::Ok);
    assert_eq!(rt; ran.out.held(), text.as_bytes());
    assert!(rt; gate.met());
    Ok(())
}

/// A row of one turn: 64 sessions, each of which deletes one of so many copies of an edge that hangs in the forest.
fn full_turn(alloc: Global, copies: u64) -> Result<(String, String), Fail> {
    let mut script = format!(in alloc; "risgraph,1,2,64\n")?;
    for _copy in 0..copies {
        script.push_str("base,0,1,1\n")?;
    }
    let mut replies = String::new(alloc);
    let mut journal = String::new(alloc);
    for session in 0..64 {
        write!(script, "{session},dele,0,1,1\n")?;
        if session < copies {
            write!(replies, "{session},0,place,{}\n", session + 1)?;
            write!(journal, "journal,entry,{},{session},0\n", session + 1)?;
        } else {
            write!(replies, "{session},0,noedge,{copies},1\n")?;
        }
    }
    replies.push_str(&journal)?;
    let refused = 64u64.saturating_sub(copies);
    write!(replies, "summary,{copies},0,{refused},")?;
    Ok((script, replies))
}

const WORDS: &str = "replay --analyses bfs:0";

const FIRST: &[u8] = b"risgraph,1,3,1\n0,adde,0,1,5\n0,value,last,0,1\n";

#[test]
fn a_full_turn_bounces_the_last_deletions(rt: HostRuntime) -> Result<(), Fail> {
    for copies in [64, 63] {
        let (script, text) = full_turn(rt.alloc(), copies)?;
        let ran = run_over(&rt, over(WORDS, script.as_bytes()))?;
        let text = format!(in rt.alloc(); "{}{}\n", text, ran.visits)?;
        assert_eq!(rt; ran.out.held(), text.as_bytes());
        assert!(rt; ran.visits <= 2);
    }
    Ok(())
}

#[test]
fn each_fault_of_a_script_has_its_record(rt: HostRuntime) -> Result<(), Fail> {
    for (script, line) in [
        ("", "ris: script: record 1: header\n"),
        ("risgraph,3,2,1", "ris: script: record 1: header\n"),
        (
            "risgraph,1,2,1\n0,begin\n0,adde,0,1,1",
            "ris: script: record 3: close\n",
        ),
        ("risgraph,1,2,1\n0,commit", "ris: script: record 2: close\n"),
        ("risgraph,1,2,1\n0,frob,1", "ris: script: record 2: op\n"),
        (
            "risgraph,1,2,2\n2,current",
            "ris: script: record 2: session\n",
        ),
        (
            "risgraph,1,2,1\n0,adde,0,1",
            "ris: script: record 2: field\n",
        ),
        (
            "risgraph,1,2,1\n0,value,last,1,0",
            "ris: script: record 2: analysis\n",
        ),
        (
            "risgraph,1,2,1\n0,begin\n0,current",
            "ris: script: record 3: inside\n",
        ),
        (
            "risgraph,1,2,1\n0,begin\n0,commit",
            "ris: script: record 3: parts\n",
        ),
        (
            "risgraph,1,2,1\n0,current\nbase,0,1,1",
            "ris: script: record 3: base\n",
        ),
        (
            "risgraph,1,2,1\nbase,0,2,1",
            "ris: script: record 2: base\n",
        ),
        (
            "risgraph,1,2,1\n0,adde,0,1,18446744073709551616",
            "ris: script: record 2: field\n",
        ),
        (
            "risgraph,1,2,1\n0,adde,0,1,+5",
            "ris: script: record 2: field\n",
        ),
        (
            "risgraph,1,2,1\n0,adde,0,1, 5",
            "ris: script: record 2: field\n",
        ),
        (
            "risgraph,1,2,1\n0,value,@,0,1",
            "ris: script: record 2: field\n",
        ),
        (
            "risgraph,1,2,1\n-1,current",
            "ris: script: record 2: field\n",
        ),
        ("risgraph,1,2,1\n0", "ris: script: record 2: op\n"),
        (
            "risgraph,1,2,1\n0,setw,0,1,1,2",
            "ris: script: record 2: op\n",
        ),
        ("risgraph,1,2,1\n0,leave", "ris: script: record 2: op\n"),
        (
            "risgraph,2,2,1\n0,leave\n0,current",
            "ris: script: record 3: left\n",
        ),
    ] {
        let given = over("replay --analyses bfs:0", script.as_bytes());
        expect_status(&rt, given, Status::Script, "", line)?;
    }
    Ok(())
}

/// The transcript of the first records of two transactions and two reads, but for its last number.
fn text_of_records(records: u64) -> &'static str {
    match records {
        1 => "summary,0,0,0,",
        8 => {
            "0,0,place,1\n1,0,place,2\njournal,entry,1,0,0\njournal,entry,2,1,0\nsummary,2,0,0,"
        }
        9 => {
            "0,0,place,1\n0,1,value,2,1,2\n1,0,place,2\njournal,entry,1,0,0\njournal,entry,2,1,0\nsummary,2,0,0,"
        }
        _ => {
            "0,0,place,1\n0,1,value,2,1,2\n0,2,value,2,2,1\n1,0,place,2\njournal,entry,1,0,0\njournal,entry,2,1,0\nsummary,2,0,0,"
        }
    }
}

#[test]
fn a_cut_script_has_an_open_transaction(rt: HostRuntime) -> Result<(), Fail> {
    let records =
        "risgraph,1,3,2\n0,begin\n1,begin\n0,adde,0,1,1\n1,adde,0,2,1\n0,adde,1,2,1\n0,commit\n1,commit\n0,value,@1,0,2\n0,value,@2,0,2\n";
    let mut script = String::new(rt.alloc());
    let mut number = 0u64;
    for record in records.lines() {
        script.push_str(record)?;
        script.push_str("\n")?;
        number = number.saturating_add(1);
        let given = over(WORDS, script.as_bytes());
        if (2..=7).contains(&number) {
            let line = format!(in rt.alloc(); "ris: script: record {number}: close\n")?;
            expect_status(&rt, given, Status::Script, "", &line)?;
        } else {
            expect_text(&rt, given, text_of_records(number), 1)?;
        }
    }
    Ok(())
}

/// A script of one transaction with so many parts, and without its end.
fn transaction(alloc: Global, parts: usize) -> Result<Vec<u8>, Fail> {
    let mut script = Vec::from_slice(alloc, b"risgraph,1,2,1\n0,begin\n")?;
    for _ in 0..parts {
        script.extend_from_slice(b"0,addv,0\n")?;
    }
    Ok(script)
}

#[test]
fn a_transaction_has_a_greatest_length(rt: HostRuntime) -> Result<(), Fail> {
    let long = transaction(rt.alloc(), 1025)?;
    let given = over("replay --analyses bfs:0", long.as_slice());
    let line = "ris: script: record 1027: parts\n";
    expect_status(&rt, given, Status::Script, "", line)
}

#[test]
fn each_status_has_its_line(rt: HostRuntime) -> Result<(), Fail> {
    for words in [
        "",
        "replay",
        "frob",
        "replay --analyses bfs",
        "replay --analyses bfs:",
        "replay --analyses bfs:4194304",
        "replay --analyses bfs:00000000",
        "replay --analyses wcc,",
        "replay --analyses wcc,wcc,wcc,wcc,wcc",
        "replay --analyses wcc --workers 65",
        "replay --analyses bfs:0 more",
        "replay --analysis bfs:0",
        "replay --threads --analyses wcc",
        "demo",
        "demo 4294967296",
        "demo 1 --size 0",
        "demo 1 --size 1000001",
        "demo 1 --analyses wcc",
    ] {
        expect_status(&rt, over(words, FIRST), Status::Usage, "", "ris: usage\n")?;
    }
    Ok(())
}

#[test]
fn a_stream_that_fails_ends_the_run(rt: HostRuntime) -> Result<(), Fail> {
    for report_fails in [0, 2] {
        let reading = Given {
            read_cut: 4,
            read_fails: 3,
            report_fails,
            ..over(WORDS, FIRST)
        };
        let line = if report_fails == 0 {
            "ris: read fault\n"
        } else {
            "ris:"
        };
        expect_status(&rt, reading, Status::ReadFault, "", line)?;
        let writing = Given {
            write_cut: 8,
            write_fails: 2,
            report_fails,
            ..over(WORDS, FIRST)
        };
        let line = if report_fails == 0 {
            "ris: write fault\n"
        } else {
            "ris:"
        };
        expect_status(&rt, writing, Status::WriteFault, "0,0,plac", line)?;
    }
    Ok(())
}

/// The row of two sessions that delete the two copies of an edge.
fn row_of_copies() -> Result<Row, Fail> {
    match rows_of_turns().first() {
        Some(row) => Ok(*row),
        None => Err(Fail::from("no row")),
    }
}

#[test]
fn each_call_of_a_source_may_fail(rt: HostRuntime) -> Result<(), Fail> {
    let row = row_of_copies()?;
    let last = row.script.len() as u64 + 1;
    for read_fails in 1..=last {
        for (report_fails, line) in [(0, "ris: read fault\n"), (1, "")] {
            let reading = Given {
                read_cut: 1,
                read_fails,
                report_fails,
                ..over(row.words, row.script.as_bytes())
            };
            expect_status(&rt, reading, Status::ReadFault, "", line)?;
        }
    }
    let reading = Given {
        read_cut: 1,
        read_fails: last.saturating_add(1),
        report_fails: 1,
        ..over(row.words, row.script.as_bytes())
    };
    expect_text(&rt, reading, row.text, row.most)
}

/// Expects the prefix of a whole output that a sink holds whose calls take one byte each, and of which this one fails.
fn expect_prefix<R: Threads + Sync + AllocGlobal + Abort>(
    rt: &R,
    row: &Row,
    whole: &[u8],
    write_fails: u64,
) -> Result<(), Fail> {
    for (report_fails, line) in [(0, "ris: write fault\n"), (1, "")] {
        let writing = Given {
            write_cut: 1,
            write_fails,
            report_fails,
            ..over(row.words, row.script.as_bytes())
        };
        let ran = run_over(rt, writing)?;
        assert_eq!(rt; ran.status, Status::WriteFault, "at call {write_fails}");
        assert_eq!(rt; ran.out.held().len() as u64, write_fails.saturating_sub(1));
        assert!(rt; whole.starts_with(ran.out.held()), "at call {write_fails}");
        assert_eq!(rt; ran.faults.held(), line.as_bytes());
    }
    Ok(())
}

#[test]
fn each_call_of_a_sink_may_fail(rt: HostRuntime) -> Result<(), Fail> {
    let row = row_of_copies()?;
    let whole = run_over(&rt, over(row.words, row.script.as_bytes()))?;
    let last = whole.out.held().len() as u64;
    for write_fails in 1..=last {
        expect_prefix(&rt, &row, whole.out.held(), write_fails)?;
    }
    let writing = Given {
        write_cut: 1,
        write_fails: last.saturating_add(1),
        report_fails: 1,
        ..over(row.words, row.script.as_bytes())
    };
    expect_text(&rt, writing, row.text, row.most)
}

/// So many line feeds.
fn line_feeds(alloc: Global, count: usize) -> Result<Vec<u8>, Fail> {
    let bytes = vec![in alloc; b'\n'; count]?;
    Ok(bytes)
}

/// A run over memory of these bytes.
pub(crate) fn over<'a>(words: &'a str, script: &'a [u8]) -> Given<'a> {
    Given {
        words,
        script,
        read_cut: 4096,
        read_fails: 0,
        write_cut: 4096,
        write_fails: 0,
        report_fails: 0,
    }
}

#[test]
fn a_script_has_a_greatest_length(rt: HostRuntime) -> Result<(), Fail> {
    let long = line_feeds(rt.alloc(), 67_108_865)?;
    let whole = over(WORDS, long.as_slice());
    let line = "ris: input too long\n";
    expect_status(&rt, whole, Status::TooLong, "", line)?;
    let limit = line_feeds(rt.alloc(), 67_108_864)?;
    let shorter = over(WORDS, limit.as_slice());
    let line = "ris: script: record 1: header\n";
    expect_status(&rt, shorter, Status::Script, "", line)
}

#[test]
fn a_demo_writes_the_last_line_of_its_replay(rt: HostRuntime) -> Result<(), Fail> {
    let script = make_script(rt.alloc(), 1, 2000)?.into_vec();
    let words = "replay --analyses bfs:0,sssp:0,wcc";
    let replayed = run_over(&rt, over(words, script.as_slice()))?;
    assert_eq!(rt; replayed.status, Status::Ok);
    for words in ["demo 1", "demo 1 --workers 4", "demo 1 --workers 64"] {
        let unread = Given {
            read_fails: 1,
            ..over(words, FIRST)
        };
        let made = run_over(&rt, unread)?;
        assert_eq!(rt; made.status, Status::Ok);
        assert!(rt; made.out.held().starts_with(b"summary,"));
        assert!(rt; replayed.out.held().ends_with(made.out.held()));
        assert_eq!(rt; made.visits, replayed.visits);
    }
    Ok(())
}

#[test]
fn a_long_demo_ends(rt: HostRuntime) -> Result<(), Fail> {
    let ran = run_over(&rt, over("demo 1 --size 20000", b""))?;
    assert_eq!(rt; ran.status, Status::Ok);
    Ok(())
}
