ghost use Rattle.std.specs.Prelude.{◌≡◌, ◌≢◌, ◌↔◌, ◌+◌, ◌<◌, ◌≤◌, ◌++◌, ℕ, List, [], length, IfOk, IsErrOf};
ghost use Rattle.ris_base.specs.Causes.{Rose};
ghost use Rattle.ris_io.specs.Streams.{WhereTold};

use crate::{ReadError, Source};
use ris_base::Bytes;
use std::alloc::Global;

// How many bytes a call is asked for at most.
const PIECE: usize = 4096;

/// Reads a source to its end, which has to come after at most `limit` bytes. Each turn is one call with a piece of at
/// most 4,096 bytes that isn't empty; no call follows the end, a fault or byte number `limit` + 1.
///
/// - `Ok`: the source answered its end, and these are all the bytes that were left.
/// - `TooLong`: exactly where more than `limit` bytes were taken, and then it was one more.
/// - `ReadFault`: a call failed. The bytes before it are gone from the source.
/// - `NoMemory`: memory for bytes that were taken is wanting. They are gone from the source.
pub fn read_all<S: Source>(alloc: Global, source: &mut S, limit: u64) -> Result<Bytes, ReadError>
    ensures length { IfOk result (λ bytes. length bytes ≤ limit) }

    // What it has left stood at the end of what it had.
    ensures rest { WhereTold (S.left source.old) (S.left source.new) (λ xs ys. (taken : List ℕ) × (xs ≡ taken ++ ys)) }
    ensures all { IfOk result (λ bytes. WhereTold (S.left source.old) (S.left source.new) (λ xs ys. (bytes ≡ xs) × (ys ≡ []))) }
    ensures too_long { WhereTold (S.left source.old) (S.left source.new)
        (λ xs ys. IsErrOf result ReadError.TooLong ↔ (limit + length ys < length xs)) }
    ensures one_more { IsErrOf result ReadError.TooLong
        → WhereTold (S.left source.old) (S.left source.new) (λ xs ys. length xs ≡ (limit + 1) + length ys) }

    // A fault is answered only where the count rose, and every other answer leaves the count as it was.
    ensures later { S.faults source.old ≤ S.faults source.new }
    ensures fault { IsErrOf result ReadError.ReadFault → Rose (S.faults source.old) (S.faults source.new) }
    ensures no_fault { result ≢ Err ReadError.ReadFault → S.faults source.new ≡ S.faults source.old }
{
    let mut bytes = Vec::new(alloc);
    let mut piece = [0u8; PIECE];
    loop {
        let room = (limit - bytes.len() as u64).min(PIECE as u64 - 1) as usize + 1;
        match source.read(&mut piece[..room]) {
            Err(_) => return Err(ReadError::ReadFault),
            Ok(0) => return Ok(Bytes::from_vec(bytes)),
            Ok(n) => {
                if n as u64 > limit - bytes.len() as u64 {
                    return Err(ReadError::TooLong);
                }
                if bytes.extend_from_slice(&piece[..n]).is_err() {
                    return Err(ReadError::NoMemory);
                }
            }
        }
    }
}
