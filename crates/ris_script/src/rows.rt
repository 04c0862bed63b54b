ghost use Rattle.std.specs.Prelude.{◌≡◌, ◌∷◌, [], drop, length, nat_le, if◌then◌else◌, Some, None, IfOk, OnOk, IsSome};
ghost use Rattle.std.specs.Bool.{MatchBool};
ghost use Rattle.std.specs.Option.{option_and_then, option_map};
ghost use Rattle.csv.specs.Records.{field_at, fields_of};
ghost use Rattle.ris_base.specs.Number.{number_of};
ghost use Rattle.ris_base.specs.Script.{version_of};
ghost use Rattle.ris_script.specs.Left.{GivesRecords, records_left};
ghost use Rattle.ris_script.specs.Sayings.{numbers_in, version_and_numbers_in};

use crate::digits::number_in;
use csv::{ByteRecord, Reader};
use ris_base::{NoMemory, Version, read_number};

/// The next record into `row`. `false` exactly where no record is left.
pub(crate) fn advance(reader: &mut Reader<&[u8]>, row: &mut ByteRecord) -> Result<bool, NoMemory>
    requires { GivesRecords reader.old }
    ensures steady { OnOk result (GivesRecords reader.new) }
    ensures next { IfOk result (λ found. MatchBool found
        (records_left reader.old ≡ fields_of row.new ∷ records_left reader.new)
        (records_left reader.old ≡ [])) }
{
    let Ok(found) = reader.read_byte_record(row) else {
        return Err(NoMemory);
    };
    Ok(found)
}

/// The number that the field at a place, counted from 0, spells. `None` exactly where there is no such field, or it
/// spells none.
#[inline(always)]
pub(crate) fn number_at(row: &ByteRecord, place: usize) -> Option<u64>
    ensures { result ≡ option_and_then number_of (field_at (fields_of row.now) place) }
{
    number_in(row.get(place)?)
}

/// The number behind the first two fields. `None` exactly where not one field is there, or it spells none.
#[inline(always)]
#[tactic(auto, using(crate::proofs::FieldLemmas::one_number))]
pub(crate) fn one_number(row: &ByteRecord) -> Option<u64>
    ensures { option_map (λ x. x ∷ []) result ≡ numbers_in 1 (drop 2 (fields_of row.now)) }
{
    if row.len() == 3 {
        number_at(row, 2)
    } else {
        None
    }
}

/// The three numbers behind the first field. `None` exactly where not three fields are there, or one spells none.
#[inline(always)]
#[tactic(auto, using(crate::proofs::FieldLemmas::base_numbers))]
pub(crate) fn base_numbers(row: &ByteRecord) -> Option<(u64, u64, u64)>
    ensures { option_map (λ t. t.0 ∷ t.1 ∷ t.2 ∷ []) result ≡ numbers_in 3 (drop 1 (fields_of row.now)) }
{
    if row.len() != 4 {
        return None;
    }
    Some((number_at(row, 1)?, number_at(row, 2)?, number_at(row, 3)?))
}

/// The three numbers behind the first two fields. `None` exactly where not three fields are there, or one spells none.
#[inline(always)]
#[tactic(auto, using(crate::proofs::FieldLemmas::three_numbers))]
pub(crate) fn three_numbers(row: &ByteRecord) -> Option<(u64, u64, u64)>
    ensures { option_map (λ t. t.0 ∷ t.1 ∷ t.2 ∷ []) result ≡ numbers_in 3 (drop 2 (fields_of row.now)) }
{
    if row.len() != 5 {
        return None;
    }
    Some((number_at(row, 2)?, number_at(row, 3)?, number_at(row, 4)?))
}

/// The four numbers behind the first two fields. `None` exactly where not four fields are there, or one spells none.
#[inline(always)]
#[tactic(auto, using(crate::proofs::FieldLemmas::four_numbers))]
pub(crate) fn four_numbers(row: &ByteRecord) -> Option<(u64, u64, u64, u64)>
    ensures { option_map (λ t. t.0 ∷ t.1 ∷ t.2 ∷ t.3 ∷ []) result ≡ numbers_in 4 (drop 2 (fields_of row.now)) }
{
    if row.len() != 6 {
        return None;
    }
    Some((
        number_at(row, 2)?,
        number_at(row, 3)?,
        number_at(row, 4)?,
        number_at(row, 5)?,
    ))
}

/// The version and the number behind the first two fields. `None` exactly where not two fields are there, or one spells
/// none.
#[tactic(auto, using(crate::proofs::FieldLemmas::version_and_one))]
pub(crate) fn version_and_one(row: &ByteRecord) -> Option<(Version, u64)>
    ensures { option_map (λ t. (t.0, t.1 ∷ [])) result ≡ version_and_numbers_in 1 (drop 2 (fields_of row.now)) }
{
    if row.len() != 4 {
        return None;
    }
    Some((version_at(row, 2)?, number_at(row, 3)?))
}

/// The version and the two numbers behind the first two fields. `None` exactly where not three fields are there, or one
/// spells none.
#[tactic(auto, using(crate::proofs::FieldLemmas::version_and_two))]
pub(crate) fn version_and_two(row: &ByteRecord) -> Option<(Version, u64, u64)>
    ensures { option_map (λ t. (t.0, t.1 ∷ t.2 ∷ [])) result ≡ version_and_numbers_in 2 (drop 2 (fields_of row.now)) }
{
    if row.len() != 5 {
        return None;
    }
    Some((version_at(row, 2)?, number_at(row, 3)?, number_at(row, 4)?))
}

/// The version that the field at a place names. `None` exactly where there is no such field, or it names none.
fn version_at(row: &ByteRecord, place: usize) -> Option<Version>
    ensures { result ≡ option_and_then version_of (field_at (fields_of row.now) place) }
{
    read_version(row.get(place)?)
}

/// The version that a field names: `last`, or `@` and a number. `None` exactly where it names none.
fn read_version(field: &[u8]) -> Option<Version>
    ensures { result ≡ version_of field.now }
{
    if field == b"last".as_slice() {
        return Some(Version::Last);
    }
    let (byte, digits) = field.split_first()?;
    if *byte == b'@' {
        Some(Version::At(read_number(digits)?))
    } else {
        None
    }
}
