ghost use Rattle.std.specs.Prelude.{◌≡◌, IfSome, IfNone};
ghost use Rattle.arrow_table.specs.declared.known.Known.TheVariants.{Nothing};
ghost use Rattle.arrow_table.specs.Codes.{IsSmall};

use crate::id::ArrowId;
use crate::known::Known;
use lr_base::RuleId;
use std::marker::Model;

/// What is known, in 4 bytes: 0 where nothing is; else its kind in the last two bits, and above them the number of its map or
/// rule.
#[derive(Clone, Copy, Debug)]
pub struct Cell {
    code: u32,
}

impl Model for Cell {
    ghost use Rattle.std.specs.Prelude.{◌≡◌};
    ghost use Rattle.std.proofs.Common.{ap};
    ghost use Rattle.arrow_table.specs.declared.known.Known.{Known as Fact};
    ghost use Rattle.arrow_table.specs.Codes.{code_of, known_of};

    ghost Value = { Fact };

    ghost view = { λ s. known_of s.code };

    ghost invariant = { λ s. code_of (known_of s.code) ≡ s.code };

    ghost inverse = { λ known. record { code = code_of known } };

    ghost inverse_ok = { λ s h. ap (λ code. record { code = code }) h };
}

const _: () = prove!(std::mem::size_of::<Cell>() == 4);

/// Numbers below this fit in a cell.
const SMALL: u32 = 1 << 30;

impl Cell {
    /// The cell of which nothing is known.
    pub fn unknown() -> Cell
        ensures { result ≡ Nothing }
    {
        Cell { code: 0 }
    }

    /// The cell with this; `None` exactly where its number is 2^30 or more.
    pub fn of(known: Known) -> Option<Cell>
        ensures some { IfSome result (λ cell. cell ≡ known) }
        ensures none { IfNone result (¬ IsSmall known) }
    {
        match known {
            Known::Nothing => Some(Cell { code: 0 }),
            Known::Stuck => Some(Cell { code: 4 }),
            Known::Died(alive) if alive.number() < SMALL => Some(Cell {
                code: alive.number() * 4 + 1,
            }),
            Known::Step(to) if to.number() < SMALL => Some(Cell {
                code: to.number() * 4 + 2,
            }),
            Known::Reduce(rule) if rule.0 < SMALL => Some(Cell {
                code: rule.0 * 4 + 3,
            }),
            Known::Died(_) | Known::Step(_) | Known::Reduce(_) => None,
        }
    }

    /// What is known.
    pub fn known(self) -> Known
        ensures { result ≡ self }
    {
        if self.code == 0 {
            return Known::Nothing;
        }
        match self.code % 4 {
            0 => Known::Stuck,
            1 => Known::Died(ArrowId::of(self.code / 4)),
            2 => Known::Step(ArrowId::of(self.code / 4)),
            _ => Known::Reduce(RuleId(self.code / 4)),
        }
    }
}
