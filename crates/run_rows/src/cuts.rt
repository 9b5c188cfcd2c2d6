ghost use Rattle.std.specs.Prelude.{IfOk, length};
ghost use Rattle.cutting_theory.specs.Cuttings.{IsCutting};

use line_cuttings::{Cutting, SEGMENTS};
use run_inputs::Source;
use std::alloc::Global;
use std::test::Fail;

/// How lines are cut.
#[derive(Clone, Copy, Debug)]
pub enum Cut {
    /// Into so many even segments.
    Even(u32),
    /// At these lines, counted from 1.
    At(&'static [u32]),
}

/// One segment and more, lists in which segments have no line, stand again or are past the end, and last as many segments as
/// there may be.
pub static CUTS: [Cut; 11] = [
    Cut::Even(1),
    Cut::Even(2),
    Cut::Even(3),
    Cut::Even(7),
    Cut::Even(16),
    Cut::At(&[]),
    Cut::At(&[1, 1, 1]),
    Cut::At(&[3, 3, 9, 9, 9, 14]),
    Cut::At(&[2, 4, 5, 6, 8, 11, 12, 13, 15, 16]),
    Cut::At(&[1, 16, 16, 17, 4_294_967_295]),
    Cut::Even(4_096),
];

/// The lines of a text, cut so.
pub fn cut_lines(alloc: Global, source: &Source, cut: Cut) -> Result<Cutting, Fail>
    ensures { IfOk result (λ cutting. IsCutting (length source.now.lines) cutting) }
{
    match cut {
        Cut::Even(segments) if segments >= 1 && segments as usize <= SEGMENTS => {
            Ok(source.cut_even(alloc, segments)?)
        }
        Cut::At(begins) if Cutting::can_be_at(begins) => Ok(source.cut_at(alloc, begins)?),
        Cut::Even(_) | Cut::At(_) => Err(Fail::from("lines can't be cut so")),
    }
}
