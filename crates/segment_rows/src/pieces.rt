//! Rows of segments: a sheet, the tokens of a segment, and the pieces that they are parsed into.

ghost use Rattle.std.specs.Prelude.{◌≡◌, ◌^◌, ◌<◌, ◌-◌, All, IfOk, length};
ghost use Rattle.grammar_checks.specs.Building.{IsBuilt};
ghost use Rattle.grammar_data.specs.declared.token.Token.{Token as TextToken};

use grammar_checks::{Built, build_grammar};
use lr_base::{NoMemory, Place, TEXT_BYTES, Token, TokenId};
use lr_machine::Tables;
use piece_blocks::{Block, Floor, Opened, StartFault};
use segment_parser::{Segment, parse_segment};
use sheet_reader::{Sheet, read_sheet};
use state_sets::Arrow;
use std::alloc::Global;
use std::test::Fail;

/// A sentence of two parts, each of which is any number of 'c' and then 'd'.
const PARTS: &[u8] = b"%%\ns : c c ;\nc : 'c' c | 'd' ;\n";

/// Sums of numbers, with brackets, each before a semicolon.
const SUMS: &[u8] =
    b"%token N /[0-9]+/\n%%\nlist : list e ';' | e ';' ;\ne : e '+' t | t ;\nt : N | '(' e ')' ;\n";

/// A start at which a piece errs: the start, the index and the letter of the token, and the state.
type StatedFault = (u32, u32, u8, u32);

/// A floor: the rule that opened it and how many symbols are hidden, its alive starts where they are stated, and its faults
/// where they are.
struct StatedFloor {
    opened: Option<(u32, u32)>,
    starts: Option<&'static [u32]>,
    faults: Option<&'static [StatedFault]>,
}

/// A piece: the letter of its first token, how many tokens it has, how many entries, and its floors.
struct StatedPiece {
    first: u8,
    tokens: u32,
    entries: usize,
    floors: &'static [StatedFloor],
}

/// A segment of letters, each a token, and what it is parsed into: so many nodes, and these pieces.
struct PieceRow {
    name: &'static str,
    sheet: &'static [u8],
    /// The letters of the tokens in the order of their numbers.
    letters: &'static [u8],
    /// The segment; a letter of no token is the bad byte.
    text: &'static [u8],
    nodes: u64,
    pieces: &'static [StatedPiece],
}

static ROWS: [PieceRow; 5] = [
    PieceRow {
        name: "a part that is complete, and one that isn't",
        sheet: PARTS,
        letters: b"cd",
        text: b"dcd",
        nodes: 1,
        pieces: &[
            StatedPiece {
                first: b'd',
                tokens: 1,
                entries: 1,
                floors: &[StatedFloor {
                    opened: None,
                    starts: Some(&[0, 1]),
                    faults: Some(&[(4, 1, b'c', 7), (6, 1, b'c', 7)]),
                }],
            },
            StatedPiece {
                first: b'c',
                tokens: 2,
                entries: 2,
                floors: &[StatedFloor {
                    opened: None,
                    starts: Some(&[0, 1, 4, 6]),
                    faults: Some(&[]),
                }],
            },
        ],
    },
    PieceRow {
        name: "a bracket that closes, and the end of a sum",
        sheet: SUMS,
        letters: b"1;+()",
        text: b");",
        nodes: 1,
        pieces: &[
            StatedPiece {
                first: b')',
                tokens: 1,
                entries: 1,
                floors: &[
                    StatedFloor {
                        opened: None,
                        starts: None,
                        faults: None,
                    },
                    StatedFloor {
                        opened: Some((5, 2)),
                        starts: None,
                        faults: Some(&[]),
                    },
                ],
            },
            StatedPiece {
                first: b';',
                tokens: 1,
                entries: 1,
                floors: &[StatedFloor {
                    opened: None,
                    starts: None,
                    faults: Some(&[]),
                }],
            },
        ],
    },
    PieceRow {
        name: "a bad byte alone",
        sheet: PARTS,
        letters: b"cd",
        text: b"?",
        nodes: 0,
        pieces: &[StatedPiece {
            first: b'?',
            tokens: 1,
            entries: 1,
            floors: &[StatedFloor {
                opened: None,
                starts: Some(&[]),
                faults: Some(&[]),
            }],
        }],
    },
    PieceRow {
        name: "no token",
        sheet: PARTS,
        letters: b"cd",
        text: b"",
        nodes: 0,
        pieces: &[],
    },
    PieceRow {
        name: "what each context shifts",
        sheet: PARTS,
        letters: b"cd",
        text: b"ccd",
        nodes: 0,
        pieces: &[StatedPiece {
            first: b'c',
            tokens: 3,
            entries: 3,
            floors: &[StatedFloor {
                opened: None,
                starts: Some(&[0, 1, 4, 6]),
                faults: Some(&[]),
            }],
        }],
    },
];

/// The number of a letter's token, and that of the bad byte for a letter of none.
fn number_of(letters: &[u8], letter: u8, bad: u32) -> u32 {
    let mut number: u32 = 0;
    for other in letters {
        if *other == letter {
            return number;
        }
        number = number.wrapping_add(1);
    }
    bad
}

/// The tokens of a segment of letters, in the order of their letters.
fn tokens_of(
    alloc: Global,
    tables: &Tables,
    letters: &[u8],
    text: &[u8],
) -> Result<Vec<Token>, NoMemory>
    ensures { IfOk result (λ tokens. All (λ (token : TextToken). token.id < 2 ^ 32 - 2) tokens.items) }
{
    let bad = tables.end().0 + 1;
    let mut tokens = Vec::new(alloc);
    let mut start: u32 = 0;
    for letter in text {
        let number = number_of(letters, *letter, bad);
        if number <= bad {
            tokens.push(token_at(number, start))?;
        }
        start = start.wrapping_add(1);
    }
    Ok(tokens)
}

/// A token of one byte on the first line.
fn token_at(number: u32, start: u32) -> Token
    ensures { result.id ≡ number }
{
    Token {
        id: TokenId(number),
        place: Place {
            line: 1,
            start,
            len: 1,
        },
    }
}

/// The pieces of a segment's tokens by the tables of a sheet.
#[tactic(auto, using(lawful_theory::proofs::CanonicalLemmas::lawful_law))]
fn parse_tokens(
    alloc: Global,
    sheet: &Sheet,
    built: &Built,
    tokens: &[Token],
) -> Result<Segment, Fail>
    requires built { IsBuilt sheet.now.grammar built.now }
    requires tokens { All (λ (token : TextToken). token.id < 2 ^ 32 - 2) tokens.now }
{
    if tokens.len() > TEXT_BYTES {
        return Err(Fail::from("too many tokens"));
    }
    let segment = parse_segment(alloc, &built.tables, 0, tokens)?;
    Ok(segment)
}

/// Whether what opened a floor is as stated.
fn is_opened_as_stated(opened: Option<Opened>, stated: Option<(u32, u32)>) -> bool {
    match (opened, stated) {
        (None, None) => true,
        (Some(opened), Some((rule, hidden))) => opened.rule.0 == rule && opened.hidden == hidden,
        (None, Some(_)) | (Some(_), None) => false,
    }
}

/// Whether a map has these starts.
fn has_starts(map: &Arrow, starts: &[u32]) -> bool {
    if map.len() as usize != starts.len() {
        return false;
    }
    for i in 0..map.len() {
        if map.pair(i).0.0 != starts[i as usize] {
            return false;
        }
    }
    true
}

/// Whether faults are as stated.
fn are_faults_as_stated(
    faults: &[StartFault],
    stated: &[StatedFault],
    letters: &[u8],
    bad: u32,
) -> bool {
    if faults.len() != stated.len() {
        return false;
    }
    for (fault, (start, index, letter, state)) in faults.iter().zip(stated) {
        if fault.start.0 != *start
            || fault.index != *index
            || fault.token.id.0 != number_of(letters, *letter, bad)
            || fault.state.0 != *state
        {
            return false;
        }
    }
    true
}

/// Whether a floor is as stated.
fn is_floor_as_stated(
    alloc: Global,
    floor: &Floor,
    stated: &StatedFloor,
    letters: &[u8],
    bad: u32,
) -> Result<bool, NoMemory> {
    let faults = floor.faults().list(alloc)?;
    Ok(
        is_opened_as_stated(floor.opened(), stated.opened)
            && match stated.starts {
                Some(starts) => has_starts(floor.starts(), starts),
                None => true,
            }
            && match stated.faults {
                Some(stated) => are_faults_as_stated(&faults, stated, letters, bad),
                None => true,
            },
    )
}

/// Whether floors are as stated.
fn are_floors_as_stated(
    alloc: Global,
    floors: &[Floor],
    stated: &[StatedFloor],
    letters: &[u8],
    bad: u32,
) -> Result<bool, NoMemory> {
    if floors.len() != stated.len() {
        return Ok(false);
    }
    for (floor, as_stated) in floors.iter().zip(stated) {
        if !is_floor_as_stated(alloc, floor, as_stated, letters, bad)? {
            return Ok(false);
        }
    }
    Ok(true)
}

/// Whether a closed piece is as stated.
fn is_piece_as_stated(
    alloc: Global,
    block: &Block,
    index: usize,
    stated: &StatedPiece,
    letters: &[u8],
    bad: u32,
) -> Result<bool, NoMemory>
    requires { index < length block.now.closed }
{
    let floors = are_floors_as_stated(alloc, block.floors(index), stated.floors, letters, bad)?;
    Ok(
        floors
            && block.first(index).id.0 == number_of(letters, stated.first, bad)
            && block.tokens(index) == stated.tokens
            && block.kids(index).len() == stated.entries,
    )
}

/// Whether a segment is parsed into what is stated.
fn is_parsed_as_stated(
    alloc: Global,
    segment: &Segment,
    row: &PieceRow,
    bad: u32,
) -> Result<bool, NoMemory> {
    let block = &segment.block;
    if segment.store.node_count() != row.nodes || block.count() != row.pieces.len() {
        return Ok(false);
    }
    for index in 0..block.count() {
        if !is_piece_as_stated(alloc, block, index, &row.pieces[index], row.letters, bad)? {
            return Ok(false);
        }
    }
    Ok(true)
}

/// Whether the segment of a row is parsed into what the row states.
fn is_as_stated(alloc: Global, row: &PieceRow) -> Result<bool, Fail> {
    let sheet = read_sheet(alloc, row.sheet)?;
    let built = build_grammar(alloc, sheet.grammar())?;
    let tokens = tokens_of(alloc, &built.tables, row.letters, row.text)?;
    let segment = parse_tokens(alloc, &sheet, &built, &tokens)?;
    let bad = built.tables.end().0 + 1;
    Ok(is_parsed_as_stated(alloc, &segment, row, bad)?)
}

#[test]
fn segments_are_parsed_as_stated(rt: HostRuntime) -> Result<(), Fail> {
    for row in &ROWS {
        assert!(rt; is_as_stated(rt.alloc(), row)?, "{}", row.name);
    }
    Ok(())
}
