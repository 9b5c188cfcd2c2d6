//! Places of a sheet with their lines.
ghost use Rattle.std.specs.Prelude.{◌≡◌, ℕ, ◌+◌, ◌<◌, ◌≤◌, List, length};
ghost use Rattle.lexeme_theory.specs.Lines.{line_of};
ghost use Rattle.sheet_lexemes.specs.Cursors.{IsCursor};

/// A place of a sheet, and its line, counted from 1. The end stands on the last line.
#[derive(Clone, Copy, Debug, PartialEq, Eq)]
pub struct Cursor {
    pub at: usize,
    pub line: usize,
}

impl Cursor {
    /// The place where each sheet begins.
    pub fn first() -> Cursor
        ensures at { result.at ≡ 0 }
        ensures stands { (bytes : List ℕ) → IsCursor bytes result }
    {
        Cursor { at: 0, line: 1 }
    }

    /// A place that is no earlier.
    pub fn moved(self, bytes: &[u8], to: usize) -> Cursor
        requires stands { IsCursor bytes.now self }
        requires order { self.at ≤ to }
        requires inside { to ≤ length bytes.now }
        ensures at { result.at ≡ to }
        ensures stands { IsCursor bytes.now result }
    {
        let mut line = self.line;
        for at in self.at..to {
            line = line_behind(bytes, at, line);
        }
        Cursor { at: to, line }
    }
}

/// The line of the place behind a byte on this line.
fn line_behind(bytes: &[u8], at: usize, line: usize) -> usize
    requires inside { at < length bytes.now }
    requires line { line ≡ line_of bytes.now at }
    ensures { result ≡ line_of bytes.now (at + 1) }
{
    if at + 1 == bytes.len() {
        return line;
    }
    if bytes[at] == b'\n' { line + 1 } else { line }
}
