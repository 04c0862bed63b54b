ghost use Rattle.std.specs.Prelude.{◌≡◌};

use ris_base::{Parent, Value};
use std::marker::Model;

/// The variant of a value.
#[derive(Clone, Copy)]
enum Kind {
    Absent,
    Unreached,
    Num,
}

/// A value and a parent of a vertex, and the place from which they hold. They are laid out so that 40 bytes hold them.
#[derive(Drop)]
pub struct Held {
    place: u64,
    number: u64,
    weight: u64,
    vertex: u32,
    source: u32,
    target: u32,
    kind: Kind,
    has_parent: bool,
}

impl Model for Held {
    ghost use Rattle.ris_history.specs.Chains.{HeldView};

    ghost Value = { HeldView };

    ghost use Rattle.ris_history.specs.Packed.{value_in, parent_in};

    ghost view = { λ h. record { place = h.place; value = value_in h; parent = parent_in h } };
}

impl Held {
    /// The item of these three parts.
    #[inline(always)]
    pub fn new(place: u64, value: Value, parent: Parent) -> Held
        ensures { result ≡ record { place = place; value = value; parent = parent } }
    {
        let (kind, number) = match value {
            Value::Absent => (Kind::Absent, 0),
            Value::Unreached => (Kind::Unreached, 0),
            Value::Num(number) => (Kind::Num, number),
        };
        let (has_parent, vertex, source, target, weight) = match parent {
            Parent::None => (false, 0, 0, 0, 0),
            Parent::From {
                vertex,
                source,
                target,
                weight,
            } => (true, vertex, source, target, weight),
        };
        Held {
            place,
            number,
            weight,
            vertex,
            source,
            target,
            kind,
            has_parent,
        }
    }

    /// The place from which it holds.
    pub fn place(&self) -> u64
        ensures { result ≡ self.now.place }
    {
        self.place
    }

    /// The value.
    pub fn value(&self) -> Value
        ensures { result ≡ self.now.value }
    {
        match self.kind {
            Kind::Absent => Value::Absent,
            Kind::Unreached => Value::Unreached,
            Kind::Num => Value::Num(self.number),
        }
    }

    /// The parent.
    pub fn parent(&self) -> Parent
        ensures { result ≡ self.now.parent }
    {
        if self.has_parent {
            Parent::From {
                vertex: self.vertex,
                source: self.source,
                target: self.target,
                weight: self.weight,
            }
        } else {
            Parent::None
        }
    }
}
