ghost use Rattle.std.specs.Prelude.{◌≡◌, ◌+◌, ◌<◌, ◌^◌, length, IfOk};
ghost use Rattle.csv.specs.Reading.{default_config, records, strip_bom};
ghost use Rattle.ris_base.specs.Script.{script_or_fault};
ghost use Rattle.ris_script.specs.Bytes.{Reads, script_of};
ghost use Rattle.ris_script.specs.Headers.{header_meaning};
ghost use Rattle.ris_script.specs.Left.{GivesRecords, records_left};

use crate::ScriptError;
use crate::drafts::Draft;
use crate::headers::Header;
use crate::rows::advance;
use csv::{ByteRecord, Reader, ReaderBuilder};
use ris_base::{Cause, NoMemory, Script};
use std::alloc::Global;

/// Room for the bytes and the fields of each record that is no fault.
const ROW_BYTES: usize = 128;

const ROW_FIELDS: usize = 8;

/// The script that bytes spell, where a run has so many analyses. `Fault` exactly where a record is a fault, or a
/// transaction is open at the end, with the number of the record, counted from 1, and the cause; docs/FORMAT.md says when
/// each holds. After `NoMemory` nothing is said of the bytes.
///
/// Records are those of `csv`: fields behind commas, with double quotes where wanted, and lines that end by CR, LF or both;
/// an empty line is no record, and a byte order mark at the start is passed over. A record takes no memory but for what the
/// script keeps, unless it has more than 8 fields or 128 bytes; then it takes 8 bytes for each field and one for each byte,
/// up to the next power of two, once for all records.
pub fn read_script(alloc: Global, bytes: &[u8], analyses: u32) -> Result<Script, ScriptError>
    ensures reads { Reads result (script_of analyses bytes.now) }
{
    let mut reader = record_reader(alloc, bytes)?;
    let Ok(mut row) = ByteRecord::with_capacity(alloc, ROW_BYTES, ROW_FIELDS) else {
        return Err(ScriptError::NoMemory);
    };
    if !advance(&mut reader, &mut row)? {
        return Err(no_header());
    }
    match Header::of(&row) {
        Some(header) => read_records(alloc, header, analyses, &mut reader, &mut row),
        None => Err(no_header()),
    }
}

/// A reader of each record of the bytes. It is given a header row of its own, since it keeps two copies of the first record
/// where it has none.
fn record_reader<'a>(alloc: Global, bytes: &'a [u8]) -> Result<Reader<&'a [u8]>, NoMemory>
    ensures steady { IfOk result (λ reader. GivesRecords reader) }
    ensures all { IfOk result (λ reader. records_left reader ≡ records default_config (strip_bom bytes.now)) }
{
    let mut reader = ReaderBuilder::new()
        .flexible(true)
        .from_reader(alloc, bytes);
    match reader.set_byte_headers(ByteRecord::new(alloc)) {
        Ok(()) => Ok(reader),
        Err(_) => Err(NoMemory),
    }
}

/// The script of a header and the records that are left, the first of which is record 2, or the first fault.
fn read_records(
    alloc: Global,
    header: Header,
    analyses: u32,
    reader: &mut Reader<&[u8]>,
    row: &mut ByteRecord,
) -> Result<Script, ScriptError>
    requires steady { GivesRecords reader.old }
    requires few { length (records_left reader.old) + 2 < 2 ^ 64 }
    ensures { Reads result (script_or_fault (header_meaning header) analyses (records_left reader.old)) }
{
    let mut draft = Draft::new(alloc, header)?;
    let mut number: u64 = 1;
    while advance(reader, row)? {
        number += 1;
        if let Err(error) = draft.record(analyses, row) {
            return Err(error.at(number));
        }
    }
    match draft.finish() {
        Ok(script) => Ok(script),
        Err(error) => Err(error.at(number)),
    }
}

/// The fault of a text whose first record is no header.
fn no_header() -> ScriptError
    ensures { result ≡ ScriptError.Fault 1 Cause.Header }
{
    ScriptError::Fault {
        number: 1,
        cause: Cause::Header,
    }
}
