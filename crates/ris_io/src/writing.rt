ghost use Rattle.std.specs.Prelude.{◌≡◌, ◌<◌, ◌≤◌, ℕ, [], length, take, OnOk, OnErr};
ghost use Rattle.std.specs.Io.KnownBytes.{append_known};
ghost use Rattle.ris_base.specs.Causes.{HasCause};

use crate::{Sink, WriteFault};

/// Writes all bytes. Each call is given all that are left, and none is made when none are left.
///
/// - `Ok`: the sink holds them behind what it held.
/// - `WriteFault`: a call failed. The sink holds a front of them, and not all, behind what it held.
#[tactic(auto, using(crate::proofs::Told::held_more))]
pub fn put_all<K: Sink>(sink: &mut K, bytes: &[u8]) -> Result<(), WriteFault>
    ensures ok { OnOk result (K.held sink.new ≡ append_known (K.held sink.old) bytes.now) }
    ensures fault { OnErr result ((k : ℕ) × (k < length bytes.now) × (K.held sink.new ≡ append_known (K.held sink.old) (take k bytes.now))) }
    ensures none { bytes.now ≡ [] → sink.new ≡ sink.old }
    ensures cause { HasCause (K.faults sink.old) (K.faults sink.new) result }
{
    let mut done = 0;
    while done < bytes.len() {
        match sink.write(&bytes[done..]) {
            Ok(n) => done += n,
            Err(_) => return Err(WriteFault),
        }
    }
    Ok(())
}
