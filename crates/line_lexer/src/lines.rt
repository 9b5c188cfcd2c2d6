ghost use Rattle.std.specs.Prelude.{◌≡◌, ◌<◌, ◌≤◌, max, length, slice_get, Some, IfOk};
ghost use Rattle.scanning_theory.specs.Lines.{line_starts};

use lr_base::{NoMemory, TEXT_BYTES};
use memchr::memchr_iter;
use std::alloc::Global;
use std::marker::Model;

/// Where the lines of a text begin: offsets of bytes, counted from 0. Lines are counted from 0 too.
#[derive(Debug, Drop)]
pub struct Lines {
    starts: Vec<u32>,
}

impl Model for Lines {
    ghost use Rattle.std.specs.Prelude.{ℕ, ◌≤◌, List, length};
    ghost use Rattle.lr_base.specs.declared.limits.TheConstants.{TEXT_BYTES};

    ghost Value = { List ℕ };

    ghost view = { λ lines. lines.starts.items };

    ghost invariant = { λ lines. length lines.starts.items ≤ TEXT_BYTES };
}

impl Lines {
    /// The lines of a text.
    pub fn of(alloc: Global, text: &[u8]) -> Result<Lines, NoMemory>
        requires { length text.now ≤ TEXT_BYTES }
        ensures { IfOk result (λ lines. lines ≡ line_starts text.now) }
    {
        let mut starts = Vec::new(alloc);
        let Some((_, front)) = text.split_last() else {
            return Ok(Lines { starts });
        };
        starts.push(0)?;
        // No line begins behind a line feed that ends the text.
        for feed in memchr_iter(b'\n', front) {
            starts.push(feed as u32 + 1)?;
        }
        Ok(Lines { starts })
    }

    /// The number of lines.
    pub fn count(&self) -> u32
        ensures { result ≡ length self.now }
    {
        self.starts.len() as u32
    }

    /// The line in which the text ends, counted from 1: the last one, or line 1 where there is none.
    pub fn end_line(&self) -> u32
        ensures { result ≡ max 1 (length self.now) }
    {
        self.count().max(1)
    }

    /// Where a line begins.
    pub fn start(&self, line: u32) -> u32
        requires { line < length self.now }
        ensures { slice_get self.now line ≡ Some result }
    {
        self.starts[line as usize]
    }
}
