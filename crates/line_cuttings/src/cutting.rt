ghost use Rattle.std.specs.Prelude.{◌≡◌, ◌↔◌, ◌+◌, ◌<◌, ◌≤◌, IsTrue, length, slice_get, Some, All, IfOk};
ghost use Rattle.cutting_theory.specs.Cuttings.{AreBegins, IsEven, IsNeverFalling, bounds_at, segments_of};

use cutting_theory::SEGMENTS;
use line_lexer::Lines;
use lr_base::NoMemory;
use std::alloc::Global;
use std::marker::Model;

/// A cutting of the lines of a text into segments of whole lines, one after another; a segment may have no line. It is
/// seen as its bounds, one more than there are segments: segment `i` has the lines, counted from 0, from bound `i` up to
/// bound `i + 1`.
#[derive(Debug, Drop)]
pub struct Cutting {
    bounds: Vec<u32>,
}

impl Model for Cutting {
    ghost use Rattle.std.specs.Prelude.{ℕ, List};
    ghost use Rattle.cutting_theory.specs.Cuttings.{IsCutting};

    ghost Value = { List ℕ };

    ghost view = { λ cutting. cutting.bounds.items };

    ghost invariant = { λ cutting. (lines : ℕ) × IsCutting lines cutting.bounds.items };
}

impl Cutting {
    /// So many segments, 1 to 4,096, whose numbers of lines differ by at most one.
    pub fn even(alloc: Global, lines: &Lines, segments: u32) -> Result<Cutting, NoMemory>
        requires some { 1 ≤ segments }
        requires few { segments ≤ SEGMENTS }
        ensures { IfOk result (λ cutting. IsEven (length lines.now) segments cutting) }
    {
        Ok(Cutting {
            bounds: even_bounds(alloc, lines.count(), segments)?,
        })
    }

    /// Segments that begin at the first line and at each listed one, counted from 1; a line past the last is the end. The
    /// list never falls, and has at most 4,095 lines.
    pub fn at(alloc: Global, lines: &Lines, begins: &[u32]) -> Result<Cutting, NoMemory>
        requires { AreBegins begins.now }
        ensures { IfOk result (λ cutting. cutting ≡ bounds_at (length lines.now) begins.now) }
    {
        Ok(Cutting {
            bounds: listed_bounds(alloc, lines.count(), begins)?,
        })
    }

    /// Whether a list can be asked for: at most 4,095 lines, counted from 1, that never fall.
    pub fn can_be_at(begins: &[u32]) -> bool
        ensures { IsTrue result ↔ AreBegins begins.now }
    {
        begins.len() < SEGMENTS && begins.iter().all(|&line| line >= 1) && never_falls(begins)
    }

    /// The number of segments.
    pub fn segments(&self) -> u32
        ensures { result ≡ segments_of self.now }
    {
        self.bounds.len() as u32 - 1
    }

    /// The line, counted from 0, at which a segment begins, and the one before which it ends.
    pub fn bounds(&self, segment: u32) -> (u32, u32)
        requires { segment < segments_of self.now }
        ensures begin { slice_get self.now segment ≡ Some result.0 }
        ensures end { slice_get self.now (segment + 1) ≡ Some result.1 }
    {
        let at = segment as usize;
        (self.bounds[at], self.bounds[at + 1])
    }
}

/// Whether each number of a list is at most the next.
fn never_falls(numbers: &[u32]) -> bool
    ensures { IsTrue result ↔ IsNeverFalling numbers.now }
{
    for i in 1..numbers.len() {
        if numbers[i - 1] > numbers[i] {
            return false;
        }
    }
    true
}

/// The bounds of so many even segments.
fn even_bounds(alloc: Global, lines: u32, segments: u32) -> Result<Vec<u32>, NoMemory>
    requires some { 1 ≤ segments }
    requires few { segments ≤ SEGMENTS }
    ensures { IfOk result (λ bounds. IsEven lines segments bounds.items) }
{
    let mut bounds = Vec::new(alloc);
    for i in 0..segments + 1 {
        bounds.push((u64::from(i) * u64::from(lines) / u64::from(segments)) as u32)?;
    }
    Ok(bounds)
}

/// The bounds of segments that begin at the first line and at the listed ones.
fn listed_bounds(alloc: Global, lines: u32, begins: &[u32]) -> Result<Vec<u32>, NoMemory>
    requires { All (λ line. 1 ≤ line) begins.now }
    ensures { IfOk result (λ bounds. bounds.items ≡ bounds_at lines begins.now) }
{
    let mut bounds = Vec::new(alloc);
    bounds.push(0)?;
    for &line in begins {
        bounds.push((line - 1).min(lines))?;
    }
    bounds.push(lines)?;
    Ok(bounds)
}
