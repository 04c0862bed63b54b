ghost use Rattle.std.specs.Prelude.{◌≡◌};

use std::marker::Model;
use std::mem::size_of;

/// The edges between one vertex and the vertex `end` that have the weight `weight`: there are `copies` of them.
#[derive(Clone, Copy)]
pub struct Neighbour {
    pub end: u32,
    pub weight: u64,
    pub copies: u64,
}

impl Neighbour {
    ghost use Rattle.ris_rows.specs.Neighbours.{is_before, is_of};

    /// Whether it stands before the edges to `end` of weight `weight`.
    pub fn is_before(&self, end: u32, weight: u64) -> bool
        ensures { result ≡ is_before self.now end weight }
    {
        self.end < end || (self.end == end && self.weight < weight)
    }

    /// Whether it is that of the edges to `end` of weight `weight`.
    pub fn is_of(&self, end: u32, weight: u64) -> bool
        ensures { result ≡ is_of self.now end weight }
    {
        self.end == end && self.weight == weight
    }
}

/// A number in two halves, so that it asks for no more than the alignment of a half.
#[derive(Drop)]
struct Halves {
    low: u32,
    high: u32,
}

impl Model for Halves {
    ghost use Rattle.std.specs.Prelude.{ℕ, ◌+◌, ◌*◌, ◌^◌};

    ghost Value = { ℕ };

    ghost view = { λ h. h.low + h.high * 2 ^ 32 };
}

impl Halves {
    /// The halves of the number.
    #[inline(always)]
    fn of(number: u64) -> Halves
        ensures { result ≡ number }
    {
        Halves {
            low: (number % (1 << 32)) as u32,
            high: (number >> 32) as u32,
        }
    }

    /// The number of which they are the halves.
    #[inline(always)]
    fn number(&self) -> u64
        ensures { result ≡ self.now }
    {
        u64::from(self.low) + (u64::from(self.high) << 32)
    }
}

/// A neighbour as a row keeps it: 20 bytes, where a `Neighbour` takes 24. Contracts see it as the neighbour.
#[derive(Drop)]
pub(crate) struct Packed {
    end: u32,
    weight: Halves,
    copies: Halves,
}

const _: () = prove!(size_of::<Packed>() == 20);

impl Model for Packed {
    ghost use Rattle.ris_rows.specs.declared.neighbours.Neighbour.{Neighbour};

    ghost Value = { Neighbour };

    ghost view = { λ p. record { end = p.end; weight = p.weight; copies = p.copies } };
}

impl Packed {
    /// The neighbour, packed.
    #[inline(always)]
    pub fn of(neighbour: Neighbour) -> Packed
        ensures { result ≡ neighbour }
    {
        Packed {
            end: neighbour.end,
            weight: Halves::of(neighbour.weight),
            copies: Halves::of(neighbour.copies),
        }
    }

    /// The neighbour that was packed.
    #[inline(always)]
    pub fn neighbour(&self) -> Neighbour
        ensures { result ≡ self.now }
    {
        Neighbour {
            end: self.end,
            weight: self.weight.number(),
            copies: self.copies.number(),
        }
    }
}
