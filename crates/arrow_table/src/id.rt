ghost use Rattle.std.specs.Prelude.{◌≡◌};

use std::marker::Model;

/// The number of a map in a table, counted from 0.
#[derive(Clone, Copy, Debug, PartialEq, Eq)]
pub struct ArrowId {
    number: u32,
}

impl Model for ArrowId {
    ghost use Rattle.std.specs.Prelude.{ℕ};

    ghost Value = { ℕ };

    ghost view = { λ id. id.number };

    ghost inverse = { λ n. record { number = n } };
}

impl ArrowId {
    /// The number.
    pub(crate) fn number(self) -> u32
        ensures { result ≡ self }
    {
        self.number
    }

    /// The number, as a place in a list.
    pub(crate) fn place(self) -> usize
        ensures { result ≡ self }
    {
        self.number as usize
    }

    /// The map with this number.
    pub(crate) fn of(number: u32) -> ArrowId
        ensures { result ≡ number }
    {
        ArrowId { number }
    }
}
