//! Rows of texts whose scans look far ahead and find nothing: the whole token list of each.
use dead_ends::DeadEnds;
use grammar_data::{Place, Token, TokenId};
use line_lexer::{Lines, lex_lines};
use lr_base::TEXT_BYTES;
use sheet_reader::read_sheet;
use std::alloc::Global;
use std::test::Fail;
use token_patterns::Scanner;

/// Bytes, and how often they stand one after another.
type Piece = (&'static [u8], u32);

/// A token, or none for a string that is left out, its length, and how often it stands one after another.
type Run = (Option<u32>, u32, u32);

/// A line without its line feed, and all that is scanned of it.
type LineRow = (&'static [Piece], &'static [Run]);

/// A sheet, and a text line by line.
struct FarRow {
    name: &'static str,
    sheet: &'static [u8],
    lines: &'static [LineRow],
}

const LETTERS: &[u8] = b"%token A /a/\n%token B /a*b/\n%%\ns : A | B ;\n";

const TWOS_AND_THREES: &[u8] =
    b"%token A /a/\n%token B /(aa)*b/\n%token C /(aaa)*c/\n%%\ns : A | B | C ;\n";

const COMMENTS: &[u8] =
    b"%token OVER '/'\n%token TIMES '*'\n%token NAME /[a-z]/\n%skip /\\/\\*([^*]|\\*+[^*\\/])*\\*+\\//\n%%\ns : OVER | TIMES | NAME ;\n";

static FAR_ROWS: [FarRow; 7] = [
    FarRow {
        name: "letters, and no other behind them",
        sheet: LETTERS,
        lines: &[(&[(b"a", 300)], &[(Some(0), 1, 300)])],
    },
    FarRow {
        name: "letters, and in the next line another behind them",
        sheet: LETTERS,
        lines: &[
            (&[(b"a", 200)], &[(Some(0), 1, 200)]),
            (
                &[(b"a", 250), (b"ba", 1)],
                &[(Some(1), 251, 1), (Some(0), 1, 1)],
            ),
        ],
    },
    FarRow {
        name: "another letter far behind, and none behind that",
        sheet: LETTERS,
        lines: &[(
            &[(b"a", 150), (b"b", 1), (b"a", 150)],
            &[(Some(1), 151, 1), (Some(0), 1, 150)],
        )],
    },
    FarRow {
        name: "twos and threes, and nothing behind them",
        sheet: TWOS_AND_THREES,
        lines: &[(&[(b"a", 300)], &[(Some(0), 1, 300)])],
    },
    FarRow {
        name: "twos and threes, and letters behind an odd number of them",
        sheet: TWOS_AND_THREES,
        lines: &[(
            &[(b"a", 199), (b"b", 1), (b"a", 200), (b"c", 1)],
            &[
                (Some(0), 1, 1),
                (Some(1), 199, 1),
                (Some(0), 1, 2),
                (Some(2), 199, 1),
            ],
        )],
    },
    FarRow {
        name: "a comment that isn't closed",
        sheet: COMMENTS,
        lines: &[(
            &[(b"/*", 1), (b"a", 250)],
            &[(Some(0), 1, 1), (Some(1), 1, 1), (Some(2), 1, 250)],
        )],
    },
    FarRow {
        name: "a comment that isn't closed, and one that is in the next line",
        sheet: COMMENTS,
        lines: &[
            (
                &[(b"/*", 1), (b"a", 200)],
                &[(Some(0), 1, 1), (Some(1), 1, 1), (Some(2), 1, 200)],
            ),
            (
                &[(b"/*", 1), (b"a", 200), (b"*/a", 1)],
                &[(None, 204, 1), (Some(2), 1, 1)],
            ),
        ],
    },
];

/// The text of the lines.
fn text_of(alloc: Global, lines: &[LineRow]) -> Result<Vec<u8>, Fail> {
    let mut text = Vec::new(alloc);
    for (pieces, _) in lines {
        for (bytes, times) in *pieces {
            for _ in 0..*times {
                text.extend_from_slice(bytes)?;
            }
        }
        text.push(b'\n')?;
    }
    Ok(text)
}

/// Puts the tokens of a run last, and gives the place behind it.
fn push_run(tokens: &mut Vec<Token>, run: &Run, line: u32, start: u32) -> Result<u32, Fail> {
    let mut at = start;
    for _ in 0..run.2 {
        if let Some(id) = run.0 {
            tokens.push(Token {
                id: TokenId(id),
                place: Place {
                    line,
                    start: at,
                    len: run.1,
                },
            })?;
        }
        at = at.checked_add(run.1).ok_or("a place past all")?;
    }
    Ok(at)
}

/// Puts the tokens of a line last, and gives the place behind it.
fn push_line(tokens: &mut Vec<Token>, runs: &[Run], line: u32, start: u32) -> Result<u32, Fail> {
    let mut at = start;
    for run in runs {
        at = push_run(tokens, run, line, at)?;
    }
    Ok(at)
}

/// The tokens of the lines.
fn tokens_of(alloc: Global, lines: &[LineRow]) -> Result<Vec<Token>, Fail> {
    let mut tokens = Vec::new(alloc);
    let mut line: u32 = 0;
    let mut at: u32 = 0;
    for (_, runs) in lines {
        line = line.checked_add(1).ok_or("too many lines")?;
        at = push_line(&mut tokens, runs, line, at)?;
        at = at.checked_add(1).ok_or("a place past all")?;
    }
    Ok(tokens)
}

/// All tokens of a text by the patterns of a sheet.
fn scanned(alloc: Global, sheet: &[u8], text: &[u8]) -> Result<Vec<Token>, Fail> {
    let sheet = read_sheet(alloc, sheet)?;
    let order = sheet.scan_order()?;
    let scanner = Scanner::build(alloc, &order.patterns)?;
    if TEXT_BYTES < text.len() {
        return Err(Fail::new("a text past its limit"));
    }
    let lines = Lines::of(alloc, text)?;
    Ok(lex_lines(
        alloc,
        &scanner,
        &order.means,
        text,
        &lines,
        0,
        lines.count(),
    )?)
}

#[test]
fn finds_all_tokens_where_scans_look_far(rt: HostRuntime) -> Result<(), Fail> {
    for row in &FAR_ROWS {
        let text = text_of(rt.alloc(), row.lines)?;
        let found = scanned(rt.alloc(), row.sheet, &text)?;
        let stated = tokens_of(rt.alloc(), row.lines)?;
        assert_eq!(rt; found.as_slice(), stated.as_slice(), "{}", row.name);
    }
    Ok(())
}

/// Pairs of a place and a state, in a line that begins at place 3, and whether they are kept, where those at place 19 in
/// state 2 and at place 20 in state 1 were handed over.
static PAIRS: [(usize, u16, bool); 5] = [
    (19, 2, true),
    (19, 1, false),
    (20, 1, false),
    (35, 2, false),
    (3, 2, false),
];

#[test]
fn keeps_the_pairs_of_marks(rt: HostRuntime) -> Result<(), Fail> {
    let mut dead_ends = DeadEnds::new(rt.alloc(), 5);
    dead_ends.start_line(3);
    dead_ends.keep(19, 2)?;
    dead_ends.keep(20, 1)?;
    for (place, state, kept) in &PAIRS {
        if *place <= TEXT_BYTES {
            assert_eq!(rt; dead_ends.keeps(*place, *state), *kept, "{place} {state}");
        }
    }
    dead_ends.start_line(19);
    assert!(rt; !dead_ends.keeps(19, 2), "another line");
    Ok(())
}
