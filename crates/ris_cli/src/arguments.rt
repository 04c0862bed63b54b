ghost use Rattle.std.specs.Prelude.{◌≡◌, map, IfOk, string_bytes};
ghost use Rattle.std.specs.IoError.{error_kind};
ghost use Rattle.std.specs.Vec.Iter.{into_iter_items};
ghost use Rattle.ris_base.specs.Script.{Fault};
ghost use Rattle.ris_base.specs.Status.{Grew, status_line, stream_of};
ghost use Rattle.ris_cli.specs.Refused.{refusal_status};

use ris_base::{NoMemory, Status, Words};
use ris_io::Sink;
use ris_replay::put_fault;
use std::alloc::Global;
use std::env;
use std::env::{Args, Env, FillError};
use std::io::{Error, ErrorKind};

/// Why the words of a command line can't be had: an argument isn't UTF-8, or memory ran out.
#[derive(Clone, Copy, Debug, PartialEq, Eq)]
pub enum Refusal {
    NotText,
    NoMemory,
}

impl From<NoMemory> for Refusal {
    ghost use Rattle.ris_cli.specs.declared.arguments.Refusal.TheVariants.{NoMemory as WantOfMemory};

    ghost from_gives = { λ _ refusal. refusal ≡ WantOfMemory };

    fn from(_: NoMemory) -> Self {
        Refusal::NoMemory
    }
}

impl From<Error> for Refusal {
    ghost use Rattle.ris_cli.specs.Refused.{refusal_of};

    ghost from_gives = { λ error refusal. refusal ≡ refusal_of (error_kind error) };

    fn from(error: Error) -> Self {
        match error.kind() {
            ErrorKind::OutOfMemory => Refusal::NoMemory,
            _ => Refusal::NotText,
        }
    }
}

impl Refusal {
    /// The status that the program ends with: `Usage` for arguments that aren't text, and `NoMemory`.
    pub fn status(&self) -> Status
        ensures { result ≡ refusal_status self.now }
    {
        match self {
            Refusal::NotText => Status::Usage,
            Refusal::NoMemory => Status::NoMemory,
        }
    }
}

// The words of these arguments.
fn words_of(alloc: Global, args: Args) -> Result<Words, NoMemory>
    ensures { IfOk result (λ words. words ≡ map string_bytes (into_iter_items args)) }
{
    let mut words = Words::new(alloc);
    for arg in args {
        words.push(arg.as_str())?;
    }
    Ok(words)
}

// An environment whose arguments are those behind the program's name, which is argument 0 and need not be text.
#[derive(Drop)]
struct BehindName<'a, R> {
    inner: &'a R,
}

impl<R: Env> Env for BehindName<'_, R> {
    fn arg(&self, i: usize, buf: &mut [u8]) -> Result<usize, FillError> {
        match i.checked_add(1) {
            Some(next) => self.inner.arg(next, buf),
            None => Err(FillError::NotPresent),
        }
    }

    fn var(&self, name: &str, buf: &mut [u8]) -> Result<usize, FillError> {
        self.inner.var(name, buf)
    }

    fn var_at(&self, i: usize, buf: &mut [u8]) -> Result<usize, FillError> {
        self.inner.var_at(i, buf)
    }
}

/// The words of the command line, without the program's name, which may be any bytes.
///
/// - `NotText`: an argument isn't UTF-8.
/// - `NoMemory`: there was no memory for them.
pub fn read_words(rt: &(impl Env + AllocGlobal)) -> Result<Words, Refusal> {
    let args = env::args(&(BehindName { inner: rt }, rt.alloc()))?;
    Ok(words_of(rt.alloc(), args)?)
}

/// Writes the line of a refusal to `faults`, and answers its status. Where a write fails, a front of the line stands there.
pub fn refuse<F: Sink>(refusal: Refusal, faults: &mut F) -> Status
    ensures status { result ≡ refusal_status refusal }
    ensures line { (fault : Fault) → Grew (stream_of F.held F.faults faults.old faults.new) (status_line result fault) }
{
    let status = refusal.status();
    let _ = put_fault(&status, None, faults);
    status
}

#[cfg(test)]
mod tests {
    use super::*;
    use ris_base::Bytes;
    use ris_io::{Calls, MemSink};
    use std::test::Fail;

    // A command line.
    #[derive(Drop)]
    struct Line<'a> {
        args: &'a [&'a [u8]],
    }

    impl Env for Line<'_> {
        fn arg(&self, i: usize, buf: &mut [u8]) -> Result<usize, FillError> {
            let Some(arg) = self.args.get(i) else {
                return Err(FillError::NotPresent);
            };
            if arg.len() > buf.len() {
                return Err(FillError::TooLong);
            }
            buf[..arg.len()].copy_from_slice(arg);
            Ok(arg.len())
        }

        fn var(&self, _name: &str, _buf: &mut [u8]) -> Result<usize, FillError> {
            Err(FillError::NotPresent)
        }

        fn var_at(&self, _i: usize, _buf: &mut [u8]) -> Result<usize, FillError> {
            Err(FillError::NotPresent)
        }
    }

    #[test]
    fn the_name_is_no_word(rt: HostRuntime) -> Result<(), Fail> {
        let line = Line {
            args: &[b"\xff/ris", b"replay", b""],
        };
        let words = read_words(&(line, rt.alloc()))?;
        assert_eq!(rt; words.len(), 2);
        assert_eq!(rt; words.get(0), Some("replay"));
        assert_eq!(rt; words.get(1), Some(""));
        Ok(())
    }

    #[test]
    fn arguments_that_are_not_text_are_refused(rt: HostRuntime) -> Result<(), Fail> {
        let line = Line {
            args: &[b"ris", b"\xff"],
        };
        assert_eq!(rt;
            read_words(&(line, rt.alloc())).err(),
            Some(Refusal::NotText)
        );
        Ok(())
    }

    #[test]
    fn a_refusal_has_its_line_and_status(rt: HostRuntime) -> Result<(), Fail> {
        for (refusal, status, text) in [
            (Refusal::NotText, Status::Usage, b"ris: usage\n".as_slice()),
            (
                Refusal::NoMemory,
                Status::NoMemory,
                b"ris: out of memory\n".as_slice(),
            ),
        ] {
            let mut faults = MemSink::new(rt.alloc(), 4, Calls::from_vec(Vec::new(rt.alloc())));
            assert_eq!(rt; refuse(refusal, &mut faults), status);
            assert_eq!(rt; faults.held(), text);
        }
        Ok(())
    }
}
