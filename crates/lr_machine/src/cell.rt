ghost use Rattle.std.specs.Prelude.{◌≡◌, ◌<◌, ◌≤◌};
ghost use Rattle.lr_base.specs.declared.limits.TheConstants.{RULES};
ghost use Rattle.table_data.specs.declared.limits.TheConstants.{MOST_STATES};
ghost use Rattle.table_data.specs.Tables.{IsActOf};

use grammar_data::{RuleId, StateId};
use std::marker::Model;
use table_data::Act;

/// An action in 4 bytes: its kind in the last two bits, and above them the number of its state or rule.
#[derive(Clone, Copy, Debug)]
pub struct ActCell {
    code: u32,
}

impl Model for ActCell {
    ghost use Rattle.std.specs.Prelude.{◌≡◌};
    ghost use Rattle.std.proofs.Common.{ap};
    ghost use Rattle.table_data.specs.declared.act.Act.{Act};
    ghost use Rattle.lr_machine.specs.Cells.{act_code, act_of};

    ghost Value = { Act };

    ghost view = { λ s. act_of s.code };

    ghost invariant = { λ s. act_code (act_of s.code) ≡ s.code };

    ghost inverse = { λ act. record { code = act_code act } };

    ghost inverse_ok = { λ s h. ap (λ code. record { code = code }) h };
}

const _: () = prove!(std::mem::size_of::<ActCell>() == 4);

impl ActCell {
    /// The cell of an action whose state and rule are below 2 ^ 30.
    pub fn of(act: Act) -> ActCell
        requires { IsActOf MOST_STATES RULES act }
        ensures { result ≡ act }
    {
        match act {
            Act::Error => ActCell { code: 0 },
            Act::Accept => ActCell { code: 1 },
            Act::Shift(state) => ActCell {
                code: state.0 * 4 + 2,
            },
            Act::Reduce(rule) => ActCell {
                code: rule.0 * 4 + 3,
            },
        }
    }

    /// The action of the cell.
    pub fn act(self) -> Act
        ensures { result ≡ self }
    {
        match self.code % 4 {
            0 => Act::Error,
            1 => Act::Accept,
            2 => Act::Shift(StateId(self.code / 4)),
            _ => Act::Reduce(RuleId(self.code / 4)),
        }
    }
}
