ghost use Rattle.std.specs.Prelude.{◌≡◌};
ghost use Rattle.ris_forest.specs.Cells.{IsSmall};
ghost use Rattle.ris_forest.specs.Packing.{value_from, parent_from, unpacked};

use ris_base::{Parent, Value};

/// The number that stands for the value of an absent vertex.
const ABSENT: u64 = u64::MAX;

/// The number that stands for the value of an unreached vertex.
const UNREACHED: u64 = u64::MAX - 1;

/// A value and a parent in 32 bytes. A number below 2^59 stands for itself.
#[derive(Clone, Copy)]
pub struct Packed {
    pub value: u64,
    pub weight: u64,
    pub vertex: u32,
    pub source: u32,
    pub target: u32,
    pub has_parent: bool,
}

impl Packed {
    /// A value and a parent, packed.
    pub fn new(value: Value, parent: Parent) -> Packed
        requires { IsSmall value }
        ensures { unpacked result ≡ record { value = value; parent = parent } }
    {
        let value = number_of(value);
        match parent {
            Parent::None => Packed {
                value,
                weight: 0,
                vertex: 0,
                source: 0,
                target: 0,
                has_parent: false,
            },
            Parent::From {
                vertex,
                source,
                target,
                weight,
            } => Packed {
                value,
                weight,
                vertex,
                source,
                target,
                has_parent: true,
            },
        }
    }

    /// The value.
    pub fn value(&self) -> Value
        ensures { result ≡ value_from self.now.value }
    {
        match self.value {
            ABSENT => Value::Absent,
            UNREACHED => Value::Unreached,
            number => Value::Num(number),
        }
    }

    /// The parent.
    pub fn parent(&self) -> Parent
        ensures { result ≡ parent_from self.now }
    {
        if !self.has_parent {
            return Parent::None;
        }
        Parent::From {
            vertex: self.vertex,
            source: self.source,
            target: self.target,
            weight: self.weight,
        }
    }
}

/// The number that stands for a value.
fn number_of(value: Value) -> u64
    requires { IsSmall value }
    ensures { value_from result ≡ value }
{
    match value {
        Value::Absent => ABSENT,
        Value::Unreached => UNREACHED,
        Value::Num(number) => number,
    }
}
