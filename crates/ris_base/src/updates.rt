ghost use Rattle.std.specs.Prelude.{◌≡◌, ◌<◌, ◌+◌, Some, None, if◌then◌else◌, nat_lt};
ghost use Rattle.std.specs.Result.{result_err};

use crate::{Format, VERTEX_LIMIT};

/// A single change of the graph: a vertex more or less, a copy of an edge more or less, or a copy of an edge with
/// another weight. Vertex numbers and weights may be any number: one past a limit is refused when the update is tried.
#[derive(Clone, Copy, Debug, PartialEq, Eq)]
pub enum Update {
    AddV { x: u64 },
    DelV { x: u64 },
    AddE { u: u64, v: u64, w: u64 },
    DelE { u: u64, v: u64, w: u64 },
    SetW { u: u64, v: u64, w: u64, w2: u64 },
}

impl Update {
    ghost use Rattle.ris_base.specs.Effect.{first_past_limit};
    ghost use Rattle.ris_base.specs.Limits.{greatest_of};

    /// `Err` exactly where a number is past its limit: the first such number. A vertex number is below 4,194,304, and
    /// a weight at most the greatest one of the format.
    pub fn within_limits(&self, format: Format) -> Result<(), u64>
        ensures { result_err result ≡ first_past_limit (greatest_of format) self.now }
    {
        match *self {
            Update::AddV { x } | Update::DelV { x } => within(x, VERTEX_LIMIT),
            Update::AddE { u, v, w } | Update::DelE { u, v, w } => {
                within(u, VERTEX_LIMIT)?;
                within(v, VERTEX_LIMIT)?;
                within(w, format.max_weight() + 1)
            }
            Update::SetW { u, v, w, w2 } => {
                within(u, VERTEX_LIMIT)?;
                within(v, VERTEX_LIMIT)?;
                within(w, format.max_weight() + 1)?;
                within(w2, format.max_weight() + 1)
            }
        }
    }
}

/// `Err` exactly where `n` isn't below the limit.
fn within(n: u64, limit: u64) -> Result<(), u64>
    ensures { result_err result ≡ (if nat_lt n limit then None else Some n) }
{
    if n < limit { Ok(()) } else { Err(n) }
}
