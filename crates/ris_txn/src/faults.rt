ghost use Rattle.std.specs.Prelude.{◌≡◌};

use ris_base::{NoMemory, Refusal};

/// Why a part isn't taken: a number is past its limit, a vertex is missing, there is no copy, or memory was wanted.
#[derive(Clone, Copy)]
pub(crate) enum Fault {
    Limit(u64),
    NoVertex(u64),
    NoEdge,
    NoMemory,
}

impl From<NoMemory> for Fault {
    ghost use Rattle.ris_txn.specs.declared.faults.Fault.TheVariants as fault;

    ghost from_gives = { λ _ f. f ≡ fault.NoMemory };

    fn from(_: NoMemory) -> Fault {
        Fault::NoMemory
    }
}

impl Fault {
    ghost use Rattle.ris_txn.specs.Faults.{refusal_at};

    /// The refusal of the part of this number, as it is judged at this front.
    pub(crate) fn at(self, front: u64, part: u32) -> Refusal
        ensures { result ≡ refusal_at front part self }
    {
        match self {
            Fault::Limit(given) => Refusal::Limit { front, part, given },
            Fault::NoVertex(id) => Refusal::NoVertex { front, part, id },
            Fault::NoEdge => Refusal::NoEdge { front, part },
            Fault::NoMemory => Refusal::NoMemory,
        }
    }
}
