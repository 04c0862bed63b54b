ghost use Rattle.std.specs.Prelude.{◌≡◌, codes, drop, false};
ghost use Rattle.std.specs.Option.{option_and_then, option_map, option_map_or};
ghost use Rattle.std.specs.Str.{bytes_eq};
ghost use Rattle.csv.specs.Records.{field_at, fields_of};
ghost use Rattle.ris_base.specs.Limits.{vertex_limit};
ghost use Rattle.ris_base.specs.Number.{number_of};
ghost use Rattle.ris_base.specs.Script as script;
ghost use Rattle.ris_script.specs.Headers.{header_meaning};

use crate::rows::{base_numbers, number_at};
use csv::ByteRecord;
use ris_base::{Format, SESSION_LIMIT, Triple, VERTEX_LIMIT};

/// What a header says: the format, up to 4,194,304 vertices, and at least one session.
#[derive(Clone, Copy)]
pub(crate) struct Header {
    pub(crate) format: Format,
    pub(crate) vertices: u32,
    pub(crate) sessions: u32,
}

impl Header {
    /// The header that a record is. `None` exactly where it is none.
    #[tactic(auto, using(crate::proofs::HeaderLemmas::header_fields))]
    pub(crate) fn of(row: &ByteRecord) -> Option<Header>
        ensures { option_map header_meaning result ≡ script.header_of (fields_of row.now) }
    {
        if row.len() != 4 || !is_risgraph(row) {
            return None;
        }
        Some(Header {
            format: format_of(row)?,
            vertices: vertices_of(row)?,
            sessions: sessions_of(row)?,
        })
    }

    /// The base triple that a record names. `None` exactly where it names none with both ends below the number of vertices
    /// and a weight within the limit of the format.
    #[tactic(auto, using(crate::proofs::HeaderLemmas::base_numbers))]
    pub(crate) fn base_triple(&self, row: &ByteRecord) -> Option<Triple>
        ensures { result ≡ option_and_then (script.base_by (header_meaning self.now)) (script.numbers_of (drop 1 (fields_of row.now))) }
    {
        let (u, v, weight) = base_numbers(row)?;
        let vertices = u64::from(self.vertices);
        if u < vertices && v < vertices && weight <= self.format.max_weight() {
            Some(Triple {
                source: u as u32,
                target: v as u32,
                weight,
            })
        } else {
            None
        }
    }
}

/// Whether a record's first field is the name of a header.
fn is_risgraph(row: &ByteRecord) -> bool
    ensures { result ≡ option_map_or (λ field. bytes_eq field (codes "risgraph")) (field_at (fields_of row.now) 0) false }
{
    match row.get(0) {
        Some(field) => field == b"risgraph".as_slice(),
        None => false,
    }
}

/// The format of a header. `None` exactly where the field names none.
fn format_of(row: &ByteRecord) -> Option<Format>
    ensures { result ≡ option_and_then script.format_of (field_at (fields_of row.now) 1) }
{
    let field = row.get(1)?;
    if field == b"1".as_slice() {
        Some(Format::One)
    } else if field == b"2".as_slice() {
        Some(Format::Two)
    } else {
        None
    }
}

/// The number of vertices of a header. `None` exactly where the field spells none up to 4,194,304.
fn vertices_of(row: &ByteRecord) -> Option<u32>
    ensures { result ≡ option_and_then (script.at_most vertex_limit)
        (option_and_then number_of (field_at (fields_of row.now) 2)) }
{
    let n = number_at(row, 2)?;
    if n <= VERTEX_LIMIT {
        Some(n as u32)
    } else {
        None
    }
}

/// The number of sessions of a header. `None` exactly where the field spells none from 1 to 64.
fn sessions_of(row: &ByteRecord) -> Option<u32>
    ensures { result ≡ option_and_then script.sessions_within
        (option_and_then number_of (field_at (fields_of row.now) 3)) }
{
    let n = number_at(row, 3)?;
    if n >= 1 && n <= SESSION_LIMIT {
        Some(n as u32)
    } else {
        None
    }
}
