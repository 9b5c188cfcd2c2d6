//! Rows of seams: how many pieces two segments have, and how many pieces and nodes they have when they are joined.

ghost use Rattle.std.specs.Prelude.{◌≤◌, length};
ghost use Rattle.grammar_checks.specs.Building.{IsBuilt};
ghost use Rattle.join_rows.specs.Rows.{AreNumbered};
ghost use Rattle.lawful_theory.specs.Lawful.{IsLawful};
ghost use Rattle.lr_base.specs.declared.limits.TheConstants.{TEXT_BYTES};
ghost use Rattle.plain_parse.specs.Parses.{AreTextTokens};

use crate::joining::{pieces_of, pieces_of_two};
use crate::texts::{LetterSheet, PARTS, SUMS, tokens_of};
use arrow_table::Arrows;
use grammar_checks::{Built, build_grammar};
use lr_base::{NoMemory, TEXT_BYTES, Token};
use piece_lists::Pieces;
use sheet_reader::{Sheet, read_sheet};
use std::alloc::Global;
use std::test::Fail;

/// How many pieces a list has, and how many nodes its store.
#[derive(Clone, Copy, Debug, PartialEq, Eq)]
struct Counts {
    pieces: usize,
    nodes: u64,
}

/// A text that is cut at a place: what both segments have, and what they have when they are joined.
struct SeamRow {
    name: &'static str,
    sheet: LetterSheet,
    text: &'static [u8],
    place: usize,
    left: Counts,
    right: Counts,
    joined: Counts,
}

static ROWS: [SeamRow; 4] = [
    SeamRow {
        name: "a piece that is put on, and one that the states don't agree on",
        sheet: PARTS,
        text: b"ccdcd",
        place: 2,
        left: Counts {
            pieces: 1,
            nodes: 0,
        },
        right: Counts {
            pieces: 2,
            nodes: 1,
        },
        joined: Counts {
            pieces: 2,
            nodes: 3,
        },
    },
    SeamRow {
        name: "a bracket that is opened on the left",
        sheet: SUMS,
        text: b"(1);",
        place: 2,
        left: Counts {
            pieces: 1,
            nodes: 0,
        },
        right: Counts {
            pieces: 2,
            nodes: 1,
        },
        joined: Counts {
            pieces: 2,
            nodes: 3,
        },
    },
    SeamRow {
        name: "no token on the left",
        sheet: PARTS,
        text: b"dcd",
        place: 0,
        left: Counts {
            pieces: 0,
            nodes: 0,
        },
        right: Counts {
            pieces: 2,
            nodes: 1,
        },
        joined: Counts {
            pieces: 2,
            nodes: 1,
        },
    },
    SeamRow {
        name: "no token on the right",
        sheet: PARTS,
        text: b"dcd",
        place: 3,
        left: Counts {
            pieces: 2,
            nodes: 1,
        },
        right: Counts {
            pieces: 0,
            nodes: 0,
        },
        joined: Counts {
            pieces: 2,
            nodes: 1,
        },
    },
];

/// How many pieces a list has, and how many nodes its store.
fn counts_of(pieces: Pieces) -> Counts {
    let (parts, store) = pieces.into_parts();
    let mut count: usize = 0;
    for part in &parts {
        count = count.wrapping_add(part.block.count().saturating_sub(part.skipped));
    }
    Counts {
        pieces: count,
        nodes: store.node_count(),
    }
}

/// What the first tokens, so many, have, what the others have, and what they have when they are joined.
fn seam_counts(
    alloc: Global,
    arrows: &mut Arrows<'_>,
    tokens: &[Token],
    place: usize,
) -> Result<(Counts, Counts, Counts), NoMemory>
    requires lawful { IsLawful arrows.old.0 }
    requires few { length tokens.now ≤ TEXT_BYTES }
    requires numbered { AreNumbered tokens.now }
    requires inside { place ≤ length tokens.now }
{
    let left = pieces_of(alloc, arrows, &tokens[..place], 0)?;
    let right = pieces_of(alloc, arrows, &tokens[place..], 0)?;
    let (joined, _) = pieces_of_two(alloc, arrows, tokens, place, 0)?;
    Ok((counts_of(left), counts_of(right), counts_of(joined)))
}

/// What stands at a seam of tokens, by the tables of a sheet.
fn counts_by(
    alloc: Global,
    sheet: &Sheet,
    built: &Built,
    tokens: &[Token],
    place: usize,
) -> Result<(Counts, Counts, Counts), NoMemory>
    requires built { IsBuilt sheet.now.grammar built.now }
    requires few { length tokens.now ≤ TEXT_BYTES }
    requires tokens { AreTextTokens built.now.tables tokens.now }
    requires inside { place ≤ length tokens.now }
{
    built.tables.holds();
    let mut arrows = Arrows::new(alloc, &built.tables);
    seam_counts(alloc, &mut arrows, tokens, place)
}

/// Whether the seam of a row is as the row states.
fn is_as_stated(alloc: Global, row: &SeamRow) -> Result<bool, Fail> {
    let sheet = read_sheet(alloc, row.sheet.sheet)?;
    let built = build_grammar(alloc, sheet.grammar())?;
    let tokens = tokens_of(alloc, &built.tables, row.sheet.letters, row.text)?;
    if row.place > tokens.len() || tokens.len() > TEXT_BYTES {
        return Err(Fail::from("no such place"));
    }
    let counts = counts_by(alloc, &sheet, &built, &tokens, row.place)?;
    Ok(counts == (row.left, row.right, row.joined))
}

#[test]
fn seams_are_as_stated(rt: HostRuntime) -> Result<(), Fail> {
    for row in &ROWS {
        assert!(rt; is_as_stated(rt.alloc(), row)?, "{}", row.name);
    }
    Ok(())
}
