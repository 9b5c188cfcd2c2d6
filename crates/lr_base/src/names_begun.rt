ghost use Rattle.std.specs.Prelude.{◌≡◌, ℕ, List, [], ◌∷◌, ◌++◌};
ghost use Rattle.std.specs.Borrow.{ftrue};

use std::marker::Model;

/// The names that a shelf was asked to begin, in order. Only proofs read them: they take no memory, and the methods do
/// nothing when they run.
#[derive(Drop)]
pub struct NamesBegun {
    pub ghost names: { List (List ℕ) },
}

impl Model for NamesBegun {
    ghost also_owns = { λ _. ftrue };
}

impl NamesBegun {
    /// No name.
    pub fn new() -> NamesBegun
        ensures { result.names ≡ [] }
    {
        NamesBegun {}
    }

    /// These names, and then one more.
    pub fn with(_before: &NamesBegun, _name: &str) -> NamesBegun
        ensures { result.names ≡ _before.now.names ++ _name.now ∷ [] }
    {
        NamesBegun {}
    }
}
