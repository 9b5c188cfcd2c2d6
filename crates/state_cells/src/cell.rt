ghost use Rattle.std.specs.Prelude.{◌≡◌, ◌-◌, ◌<◌, ◌^◌, IfSome};

use grammar_data::StateId;
use std::marker::Model;

/// A state or none, in 4 bytes: 0 where there is none, and else one more than the state. Contracts see the state or none.
#[derive(Clone, Copy, Debug)]
pub struct StateCell {
    code: u32,
}

impl Model for StateCell {
    ghost use Rattle.std.specs.Prelude.{◌≡◌, ℕ, Option};
    ghost use Rattle.std.proofs.Common.{ap};
    ghost use Rattle.state_cells.specs.Codes.{code_of, state_of};

    ghost Value = { Option ℕ };

    ghost view = { λ s. state_of s.code };

    ghost invariant = { λ s. code_of (state_of s.code) ≡ s.code };

    ghost inverse = { λ state. record { code = code_of state } };

    ghost inverse_ok = { λ s h. ap (λ code. record { code = code }) h };
}

const _: () = prove!(std::mem::size_of::<StateCell>() == 4);

impl StateCell {
    /// The cell of a state below 2^32 - 1, or of none.
    pub fn of(state: Option<StateId>) -> StateCell
        requires { IfSome state (λ p. p < 2 ^ 32 - 1) }
        ensures { result ≡ state }
    {
        match state {
            None => StateCell { code: 0 },
            Some(state) => StateCell { code: state.0 + 1 },
        }
    }

    /// The state, if there is one.
    pub fn state(self) -> Option<StateId>
        ensures { result ≡ self }
    {
        if self.code == 0 {
            return None;
        }
        Some(StateId(self.code - 1))
    }
}
