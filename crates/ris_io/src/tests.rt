ghost use Rattle.std.specs.Prelude.{◌≡◌, ◌≢◌, ◌<◌, ◌++◌, Err, IfOk, OnOk, OnErr, IsOk, IsErrOf, length};
ghost use Rattle.ris_base.specs.Causes.{Rose};

use crate::{
    Calls, Failed, MemSink, MemSource, NeverSink, NeverSource, ReadError, Sink, Source, StdSink,
    StdSource, WriteFault, put_all, read_all,
};
use ris_base::Bytes;
use std::alloc::{AllocError, Global};
use std::io;
use std::io::{Error, ErrorKind, Read, Write};
use std::test::Fail;

const TEXT: &[u8] = b"0123456789";

fn bytes_of(alloc: Global, text: &[u8]) -> Result<Bytes, AllocError> {
    Ok(Bytes::from_vec(text.to_vec(alloc)?))
}

fn calls_of(alloc: Global, fails: &[u64]) -> Result<Calls, AllocError> {
    Ok(Calls::from_vec(fails.to_vec(alloc)?))
}

// The text where it was read, and else the error.
fn answer(read: Result<Bytes, ReadError>) -> Result<Vec<u8>, ReadError> {
    match read {
        Ok(bytes) => Ok(bytes.into_vec()),
        Err(error) => Err(error),
    }
}

// Over a source that never fails no fault is answered, and what is read is what there was.
fn read_again(alloc: Global, bytes: Bytes, limit: u64) -> Result<Bytes, ReadError>
    ensures all { IfOk result (λ read. read ≡ bytes) }
    ensures no_fault { result ≢ Err ReadError.ReadFault }
    ensures too_long { IsErrOf result ReadError.TooLong → limit < length bytes }
{
    let mut source = NeverSource::new(bytes);
    read_all(alloc, &mut source, limit)
}

// Over a sink that never fails a write does not fail.
fn drop_all(bytes: &[u8]) -> Result<(), WriteFault>
    ensures { IsOk result }
{
    let mut sink = NeverSink::new();
    put_all(&mut sink, bytes)
}

// A sink in memory holds what was written, or counted a fault.
fn put_more(sink: &mut MemSink, bytes: &[u8]) -> Result<(), WriteFault>
    ensures ok { OnOk result (sink.new.held ≡ sink.old.held ++ bytes.now) }
    ensures err { OnErr result (Rose sink.old.faults sink.new.faults) }
{
    put_all(sink, bytes)
}

// Is interrupted so often, then gives one byte, then ends.
#[derive(Drop)]
struct Interrupted {
    times: u32,
    given: bool,
}

impl Read for Interrupted {
    fn read(&mut self, buf: &mut [u8]) -> io::Result<usize> {
        if self.times > 0 {
            self.times -= 1;
            return Err(Error::from(ErrorKind::Interrupted));
        }
        if self.given || buf.is_empty() {
            return Ok(0);
        }
        self.given = true;
        buf[0] = b'x';
        Ok(1)
    }
}

// Fails once, by another error than an interruption, and then works: gives one byte and ends, or takes a byte at each call.
#[derive(Drop)]
struct Broken {
    failed: bool,
    done: bool,
}

impl Broken {
    // The error of the first call.
    fn fail(&mut self) -> io::Result<()> {
        if self.failed {
            return Ok(());
        }
        self.failed = true;
        Err(Error::from(ErrorKind::Other))
    }
}

impl Read for Broken {
    fn read(&mut self, buf: &mut [u8]) -> io::Result<usize> {
        self.fail()?;
        if self.done || buf.is_empty() {
            return Ok(0);
        }
        self.done = true;
        buf[0] = b'x';
        Ok(1)
    }
}

impl Write for Broken {
    fn write(&mut self, buf: &[u8]) -> io::Result<usize> {
        self.fail()?;
        Ok(if buf.is_empty() { 0 } else { 1 })
    }

    fn flush(&mut self) -> io::Result<()> {
        Ok(())
    }
}

// Is interrupted so often, and then takes one byte at each call, up to its room.
#[derive(Drop)]
struct Narrow {
    times: u32,
    room: u32,
}

impl Write for Narrow {
    fn write(&mut self, buf: &[u8]) -> io::Result<usize> {
        if self.times > 0 {
            self.times -= 1;
            return Err(Error::from(ErrorKind::Interrupted));
        }
        if self.room == 0 || buf.is_empty() {
            return Ok(0);
        }
        self.room -= 1;
        Ok(1)
    }

    fn flush(&mut self) -> io::Result<()> {
        Ok(())
    }
}

// What reading the text gives, by at most four bytes a call, where the call of this number fails.
fn read_text(
    alloc: Global,
    limit: u64,
    failing: u64,
) -> Result<Result<Vec<u8>, ReadError>, AllocError> {
    let mut source = MemSource::new(bytes_of(alloc, TEXT)?, 4, calls_of(alloc, &[failing])?);
    Ok(answer(read_all(alloc, &mut source, limit)))
}

#[test]
fn a_source_is_read_to_its_end(rt: HostRuntime) -> Result<(), Fail> {
    // The end comes at call 4, and no call follows it.
    for (limit, failing) in [(10, 5), (11, 0)] {
        let text = read_text(rt.alloc(), limit, failing)??;
        assert_eq!(rt; text.as_slice(), TEXT, "limit {limit}");
    }
    Ok(())
}

#[test]
fn a_source_fails_or_is_too_long(rt: HostRuntime) -> Result<(), Fail> {
    let table = [
        (10, 4, ReadError::ReadFault),
        (10, 3, ReadError::ReadFault),
        (9, 0, ReadError::TooLong),
        (0, 0, ReadError::TooLong),
    ];
    for (limit, failing, want) in table {
        let error = read_text(rt.alloc(), limit, failing)?.err();
        assert_eq!(rt; error, Some(want), "limit {limit}, call {failing} fails");
    }
    Ok(())
}

#[test]
fn a_fault_of_a_write_leaves_a_front(rt: HostRuntime) -> Result<(), Fail> {
    let alloc = rt.alloc();
    let mut sink = MemSink::new(alloc, 8, calls_of(alloc, &[2])?);
    assert_eq!(rt; put_all(&mut sink, TEXT), Err(WriteFault));
    assert_eq!(rt; sink.held(), b"01234567".as_slice());
    // The next call is the third, and doesn't fail.
    assert_eq!(rt; put_more(&mut sink, &TEXT[8..]), Ok(()));
    assert_eq!(rt; sink.held(), TEXT);

    // Two calls write it, since each is given all that are left.
    let mut sink = MemSink::new(alloc, 8, calls_of(alloc, &[3])?);
    assert_eq!(rt; put_all(&mut sink, TEXT), Ok(()));
    assert_eq!(rt; sink.write(b"x"), Err(Failed));

    let mut unused = MemSink::new(alloc, 1, calls_of(alloc, &[1])?);
    assert_eq!(rt; put_all(&mut unused, b""), Ok(()));
    assert_eq!(rt; unused.write(b"x"), Err(Failed));
    Ok(())
}

#[test]
fn forms_that_never_fail(rt: HostRuntime) -> Result<(), Fail> {
    let alloc = rt.alloc();
    let mut source = NeverSource::new(bytes_of(alloc, TEXT)?);
    let mut piece = [0; 4];
    assert_eq!(rt; source.read(&mut piece), Ok(4));
    assert_eq!(rt; piece.as_slice(), b"0123".as_slice());
    assert_eq!(rt;
        answer(read_all(alloc, &mut source, 6))?.as_slice(),
        b"456789".as_slice()
    );
    let mut sink = NeverSink::new();
    assert_eq!(rt; sink.write(TEXT), Ok(10));
    assert_eq!(rt; drop_all(TEXT), Ok(()));
    let again = read_again(alloc, bytes_of(alloc, TEXT)?, 10);
    assert_eq!(rt; answer(again)?.as_slice(), TEXT);
    Ok(())
}

#[test]
fn readers_and_writers_of_std(rt: HostRuntime) -> Result<(), Fail> {
    let alloc = rt.alloc();
    let mut source = StdSource::new(TEXT);
    assert_eq!(rt; answer(read_all(alloc, &mut source, 10))?.as_slice(), TEXT);
    let mut held = Vec::new(alloc);
    {
        let mut sink = StdSink::new(&mut held);
        assert_eq!(rt; put_all(&mut sink, TEXT), Ok(()));
    }
    assert_eq!(rt; held.as_slice(), TEXT);
    Ok(())
}

#[test]
fn interruptions_are_passed_over_a_thousand_times(rt: HostRuntime) -> Result<(), Fail> {
    let alloc = rt.alloc();
    for (times, want) in [
        (3, Ok(1)),
        (1000, Ok(1)),
        (1001, Err(Failed)),
        (u32::MAX, Err(Failed)),
    ] {
        let mut source = StdSource::new(Interrupted {
            times,
            given: false,
        });
        assert_eq!(rt; source.read(&mut [0; 4]), want, "{times} interruptions");
        let mut sink = StdSink::new(Narrow { times, room: 2 });
        assert_eq!(rt; sink.write(b"ab"), want, "{times} interruptions");
    }
    let mut source = StdSource::new(Interrupted {
        times: 3,
        given: false,
    });
    assert_eq!(rt;
        answer(read_all(alloc, &mut source, 5))?.as_slice(),
        b"x".as_slice()
    );
    // A writer that takes no byte has failed.
    let mut sink = StdSink::new(Narrow { times: 0, room: 2 });
    assert_eq!(rt; put_all(&mut sink, b"ab"), Ok(()));
    assert_eq!(rt; sink.write(b""), Ok(0));
    assert_eq!(rt; put_all(&mut sink, b"c"), Err(WriteFault));
    Ok(())
}

#[test]
fn an_error_is_a_fault_at_once(rt: HostRuntime) {
    let broken = || Broken {
        failed: false,
        done: false,
    };
    let mut source = StdSource::new(broken());
    assert_eq!(rt; source.read(&mut [0; 4]), Err(Failed));
    assert_eq!(rt; source.read(&mut [0; 4]), Ok(1));
    assert_eq!(rt; source.read(&mut [0; 4]), Ok(0));
    let mut sink = StdSink::new(broken());
    assert_eq!(rt; sink.write(b"ab"), Err(Failed));
    assert_eq!(rt; sink.write(b"ab"), Ok(1));
}

#[test]
fn a_long_source_is_read_in_time(rt: HostRuntime) -> Result<(), Fail> {
    let alloc = rt.alloc();
    const LONG: usize = 67108865;
    let text = Vec::from_elem(alloc, 7, LONG)?;
    let mut source = NeverSource::new(Bytes::from_vec(text));
    let read = answer(read_all(alloc, &mut source, LONG as u64))?;
    assert_eq!(rt; read.len(), LONG);
    Ok(())
}
