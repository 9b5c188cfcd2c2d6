ghost use Rattle.std.specs.Prelude.{◌≡◌};

use std::marker::Model;

/// Lines at which segments begin, counted from 1, that contracts see as the list of them.
#[derive(Debug, Drop)]
pub struct Begins {
    lines: Vec<u32>,
}

impl Model for Begins {
    ghost use Rattle.std.specs.Prelude.{ℕ, List};

    ghost Value = { List ℕ };

    ghost view = { λ b. b.lines.items };
}

impl Begins {
    /// The lines of a vector; this takes no memory.
    pub fn from_vec(lines: Vec<u32>) -> Begins
        ensures { result ≡ lines.items }
    {
        Begins { lines }
    }

    pub fn as_slice(&self) -> &[u32]
        ensures { result.now ≡ self.now }
    {
        self.lines.as_slice()
    }
}
