//! Rows of cuttings: a text, how its lines are cut, and the bounds of the segments.

use line_cuttings::{Cutting, SEGMENTS};
use line_lexer::Lines;
use lr_base::{NoMemory, TEXT_BYTES};
use std::alloc::Global;
use std::test::Fail;

/// How lines are cut.
#[derive(Clone, Copy)]
enum Cut {
    /// Into so many even segments.
    Even(u32),
    /// At these lines, counted from 1.
    At(&'static [u32]),
}

/// A text, how it is cut, and the bounds that its segments have; `None` where it can't be cut so.
struct CuttingRow {
    name: &'static str,
    text: &'static [u8],
    cut: Cut,
    bounds: Option<&'static [(u32, u32)]>,
}

static ROWS: [CuttingRow; 13] = [
    CuttingRow {
        name: "one segment has all lines",
        text: b"a\nb\nc\n",
        cut: Cut::Even(1),
        bounds: Some(&[(0, 3)]),
    },
    CuttingRow {
        name: "five lines in three segments",
        text: b"a\nb\nc\nd\ne",
        cut: Cut::Even(3),
        bounds: Some(&[(0, 1), (1, 3), (3, 5)]),
    },
    CuttingRow {
        name: "more segments than lines",
        text: b"a\nb\n",
        cut: Cut::Even(5),
        bounds: Some(&[(0, 0), (0, 0), (0, 1), (1, 1), (1, 2)]),
    },
    CuttingRow {
        name: "an empty text",
        text: b"",
        cut: Cut::Even(2),
        bounds: Some(&[(0, 0), (0, 0)]),
    },
    CuttingRow {
        name: "no listed line",
        text: b"a\nb\n",
        cut: Cut::At(&[]),
        bounds: Some(&[(0, 2)]),
    },
    CuttingRow {
        name: "one listed line",
        text: b"c\nc\nd\nc\nd\n",
        cut: Cut::At(&[3]),
        bounds: Some(&[(0, 2), (2, 5)]),
    },
    CuttingRow {
        name: "a line listed twice",
        text: b"a\nb\nc\n",
        cut: Cut::At(&[2, 2, 3]),
        bounds: Some(&[(0, 1), (1, 1), (1, 2), (2, 3)]),
    },
    CuttingRow {
        name: "the first line listed",
        text: b"a\nb\n",
        cut: Cut::At(&[1]),
        bounds: Some(&[(0, 0), (0, 2)]),
    },
    CuttingRow {
        name: "lines past the last are the end",
        text: b"a\nb\n",
        cut: Cut::At(&[2, 3, 4_294_967_295]),
        bounds: Some(&[(0, 1), (1, 2), (2, 2), (2, 2)]),
    },
    CuttingRow {
        name: "no segment",
        text: b"a\n",
        cut: Cut::Even(0),
        bounds: None,
    },
    CuttingRow {
        name: "too many segments",
        text: b"a\n",
        cut: Cut::Even(4_097),
        bounds: None,
    },
    CuttingRow {
        name: "a list that falls",
        text: b"a\nb\nc\n",
        cut: Cut::At(&[2, 3, 2]),
        bounds: None,
    },
    CuttingRow {
        name: "line 0",
        text: b"a\n",
        cut: Cut::At(&[0, 1]),
        bounds: None,
    },
];

/// The cutting that a row asks for; `None` where it asks for none that there is.
fn cutting_of(alloc: Global, row: &CuttingRow) -> Result<Option<Cutting>, NoMemory> {
    if row.text.len() > TEXT_BYTES {
        return Ok(None);
    }
    let lines = Lines::of(alloc, row.text)?;
    match row.cut {
        Cut::Even(segments) if segments >= 1 && segments as usize <= SEGMENTS => {
            Ok(Some(Cutting::even(alloc, &lines, segments)?))
        }
        Cut::At(begins) if Cutting::can_be_at(begins) => {
            Ok(Some(Cutting::at(alloc, &lines, begins)?))
        }
        Cut::Even(_) | Cut::At(_) => Ok(None),
    }
}

/// Whether a cutting has these bounds.
fn has_bounds(cutting: &Cutting, bounds: &[(u32, u32)]) -> bool {
    if cutting.segments() as usize != bounds.len() {
        return false;
    }
    for i in 0..cutting.segments() {
        if cutting.bounds(i) != bounds[i as usize] {
            return false;
        }
    }
    true
}

/// Whether the cutting that a row asks for is as it states.
fn is_cut_as_stated(alloc: Global, row: &CuttingRow) -> Result<bool, NoMemory> {
    let cutting = cutting_of(alloc, row)?;
    Ok(match (cutting, row.bounds) {
        (Some(cutting), Some(bounds)) => has_bounds(&cutting, bounds),
        (None, None) => true,
        (Some(_), None) | (None, Some(_)) => false,
    })
}

#[test]
fn cuts_lines_as_stated(rt: HostRuntime) -> Result<(), Fail> {
    for row in &ROWS {
        assert!(rt; is_cut_as_stated(rt.alloc(), row)?, "{}", row.name);
    }
    Ok(())
}
