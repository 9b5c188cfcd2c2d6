use crate::id::ArrowId;
use crate::look::Look;
use lr_base::RuleId;

/// What is known of a map and a symbol: nothing yet, what a look says, or which map is one step on.
#[derive(Clone, Copy, Debug)]
pub enum Known {
    Nothing,
    Died(ArrowId),
    Step(ArrowId),
    Reduce(RuleId),
    Stuck,
}

impl Known {
    ghost use Rattle.std.specs.Prelude.{◌≡◌};
    ghost use Rattle.arrow_table.specs.Cells.{known_by, look_in};

    /// What a look says.
    pub fn by(look: Look) -> Known
        ensures { result ≡ known_by look }
    {
        match look {
            Look::Died(alive) => Known::Died(alive),
            Look::Shift(to) => Known::Step(to),
            Look::Reduce(rule) => Known::Reduce(rule),
            Look::Stuck => Known::Stuck,
        }
    }

    /// The look, if it is known.
    pub fn look(self) -> Option<Look>
        ensures { result ≡ look_in self }
    {
        match self {
            Known::Nothing => None,
            Known::Died(alive) => Some(Look::Died(alive)),
            Known::Step(to) => Some(Look::Shift(to)),
            Known::Reduce(rule) => Some(Look::Reduce(rule)),
            Known::Stuck => Some(Look::Stuck),
        }
    }
}
