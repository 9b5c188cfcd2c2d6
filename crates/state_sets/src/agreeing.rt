ghost use Rattle.std.specs.Prelude.{◌≡◌, ◌<◌, All};
ghost use Rattle.map_theory.specs.Agreements.{Agrees, agreed};
ghost use Rattle.state_sets.specs.Classes.{themselves};

use lr_base::{StateId, TokenId};
use lr_machine::{Act, Tables};
use map_theory::Agree;

/// In what states agree that agree so far in something, and one more that does this.
fn joined(agree: Agree, act: Act) -> Agree
    ensures { result ≡ agreed agree act }
{
    match act {
        Act::Error => agree,
        Act::Accept => Agree::Several,
        Act::Shift(_) => match agree {
            Agree::NoneLeft => Agree::Shift,
            Agree::Shift => Agree::Shift,
            _ => Agree::Several,
        },
        Act::Reduce(rule) => match agree {
            Agree::NoneLeft => Agree::Reduce(rule),
            Agree::Reduce(other) if other.0 == rule.0 => Agree::Reduce(other),
            _ => Agree::Several,
        },
    }
}

/// In what states agree on a token.
pub fn agreement(t: &Tables, states: &[StateId], token: TokenId) -> Agree
    requires { All (λ p. p < t.now.states) states.now }
    ensures { Agrees t.now token (themselves states.now) result }
{
    let mut agree = Agree::NoneLeft;
    for state in states {
        agree = joined(agree, t.act(*state, token));
    }
    agree
}
