//! Whether a pattern matches the empty string.
ghost use Rattle.std.specs.Prelude.{◌≡◌, ◌↔◌, [], IsTrue};
ghost use Rattle.pattern_data.specs.Empty.{has_empty};
ghost use Rattle.pattern_data.specs.Language.{Matches};

use crate::pattern::Pattern;

/// Goes down the tree.
fn allows_nothing(pattern: &Pattern) -> bool
    ensures { result ≡ has_empty pattern.now }
{
    match pattern {
        Pattern::Set(_) => false,
        Pattern::Seq(members) => {
            for member in members.as_slice() {
                if !allows_nothing(member) {
                    return false;
                }
            }
            true
        }
        Pattern::Alt(members) => {
            for member in members.as_slice() {
                if allows_nothing(member) {
                    return true;
                }
            }
            false
        }
        Pattern::Plus(inner) => allows_nothing(inner.get()),
        Pattern::Star(_) => true,
        Pattern::Opt(_) => true,
    }
}

impl Pattern {
    /// Whether the pattern's language has the empty string. It goes down the tree, which `read` keeps low.
    pub fn matches_empty(&self) -> bool
        ensures { IsTrue result ↔ Matches self.now [] }
    {
        allows_nothing(self)
    }
}
