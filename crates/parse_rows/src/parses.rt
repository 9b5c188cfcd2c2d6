//! Rows of parses by the tables of a sheet: the tree of a sentence, or where a text goes wrong and what could stand there.

ghost use Rattle.std.specs.Prelude.{◌≡◌, IfOk};
ghost use Rattle.grammar_checks.specs.Building.{IsBuilt};
ghost use Rattle.node_store.specs.Walking.{IsFinished};
ghost use Rattle.plain_parse.specs.Parses.{AreTextTokens};
ghost use Rattle.parse_rows.specs.Walkable.{IsWalkable};

use grammar_checks::{Built, build_grammar};
use lr_base::{NoMemory, Place, StateId, TEXT_BYTES, Token, TokenId};
use lr_machine::Tables;
use node_store::{NodeRef, Step, Store};
use plain_parse::{Parsed, parse_one};
use sheet_reader::{Sheet, read_sheet};
use std::alloc::Global;
use std::test::Fail;

/// A sentence of two parts, each of which is any number of 'c' and then 'd'.
const PARTS: &[u8] = b"%%\ns : c c ;\nc : 'c' c | 'd' ;\n";

/// Lists that nest: parentheses around lists of them.
const NESTS: &[u8] = b"%%\ns : list ;\nlist : list '(' list ')' | ;\n";

/// What a parse comes to: a tree of so many inner nodes; or the index of the wrong token, whether there is one, the state, and
/// the letters of the tokens that it expects, '$' for the end mark.
#[derive(Clone, Copy)]
enum Comes {
    Tree(u64),
    Wrong(u32, bool, u32, &'static [u8]),
}

/// A parse of a text of letters.
struct ParseRow {
    name: &'static str,
    sheet: &'static [u8],
    /// The letters of the tokens in the order of their numbers.
    letters: &'static [u8],
    /// The text; a letter of no token is the bad byte.
    text: &'static [u8],
    comes: Comes,
}

static ROWS: [ParseRow; 9] = [
    ParseRow {
        name: "no token",
        sheet: PARTS,
        letters: b"cd",
        text: b"",
        comes: Comes::Wrong(0, false, 0, b"cd"),
    },
    ParseRow {
        name: "a token behind a sentence",
        sheet: PARTS,
        letters: b"cd",
        text: b"cddd",
        comes: Comes::Wrong(3, true, 7, b"$"),
    },
    ParseRow {
        name: "a bad byte",
        sheet: PARTS,
        letters: b"cd",
        text: b"d?",
        comes: Comes::Wrong(1, true, 2, b"cd"),
    },
    ParseRow {
        name: "a sentence",
        sheet: PARTS,
        letters: b"cd",
        text: b"cdd",
        comes: Comes::Tree(4),
    },
    ParseRow {
        name: "an end within the second part",
        sheet: PARTS,
        letters: b"cd",
        text: b"dcc",
        comes: Comes::Wrong(3, false, 6, b"cd"),
    },
    ParseRow {
        name: "an empty sentence",
        sheet: NESTS,
        letters: b"()",
        text: b"",
        comes: Comes::Tree(2),
    },
    ParseRow {
        name: "nests side by side",
        sheet: NESTS,
        letters: b"()",
        text: b"(())()",
        comes: Comes::Tree(8),
    },
    ParseRow {
        name: "a nest that isn't closed",
        sheet: NESTS,
        letters: b"()",
        text: b"(()",
        comes: Comes::Wrong(3, false, 8, b"()"),
    },
    ParseRow {
        name: "a nest that was never opened",
        sheet: NESTS,
        letters: b"()",
        text: b"())",
        comes: Comes::Wrong(2, true, 6, b"($"),
    },
];

/// The number of a letter's token, and that of the bad byte for a letter of none.
fn number_of(letters: &[u8], letter: u8, bad: u32) -> u32 {
    let mut number: u32 = 0;
    for other in letters {
        if *other == letter {
            return number;
        }
        number = number.wrapping_add(1);
    }
    bad
}

/// The tokens of a text of letters, in the order of their letters.
fn tokens_of(
    alloc: Global,
    tables: &Tables,
    letters: &[u8],
    text: &[u8],
) -> Result<Vec<Token>, NoMemory>
    ensures { IfOk result (λ tokens. AreTextTokens tables.now tokens.items) }
{
    let end = tables.end().0;
    let mut tokens = Vec::new(alloc);
    let mut start: u32 = 0;
    for letter in text {
        let number = number_of(letters, *letter, end + 1);
        if number < end || number == end + 1 {
            tokens.push(token_at(number, start))?;
        }
        start = start.wrapping_add(1);
    }
    Ok(tokens)
}

/// A token of one byte on the first line.
fn token_at(number: u32, start: u32) -> Token
    ensures { result.id ≡ number }
{
    Token {
        id: TokenId(number),
        place: Place {
            line: 1,
            start,
            len: 1,
        },
    }
}

/// The parse of tokens by the tables of a sheet.
#[tactic(auto, using(lawful_theory::proofs::CanonicalLemmas::lawful_law))]
fn parse_tokens(
    alloc: Global,
    sheet: &Sheet,
    built: &Built,
    tokens: &[Token],
) -> Result<Parsed, Fail>
    requires built { IsBuilt sheet.now.grammar built.now }
    requires tokens { AreTextTokens built.now.tables tokens.now }
    ensures { IfOk result (λ parsed. IsWalkable parsed) }
{
    if tokens.len() > TEXT_BYTES {
        return Err(Fail::from("too many tokens"));
    }
    let parsed = parse_one(alloc, &built.tables, tokens)?;
    Ok(parsed)
}

/// The parse of a text by the tables of a sheet.
fn parse_text(
    alloc: Global,
    sheet: &Sheet,
    built: &Built,
    letters: &[u8],
    text: &[u8],
) -> Result<Parsed, Fail>
    requires { IsBuilt sheet.now.grammar built.now }
    ensures { IfOk result (λ parsed. IsWalkable parsed) }
{
    let tokens = tokens_of(alloc, &built.tables, letters, text)?;
    parse_tokens(alloc, sheet, built, &tokens)
}

/// Whether a state expects exactly the tokens of some letters, '$' for the end mark.
fn expects_exactly(
    alloc: Global,
    tables: &Tables,
    state: StateId,
    letters: &[u8],
    expected: &[u8],
) -> Result<bool, NoMemory> {
    if state.0 >= tables.states() {
        return Ok(false);
    }
    let tokens = tables.expected(alloc, state)?;
    let mut same = tokens.len() == expected.len();
    for (token, letter) in tokens.iter().zip(expected) {
        let number = if *letter == b'$' {
            tables.end().0
        } else {
            number_of(letters, *letter, tables.end().0)
        };
        same = same && token.0 == number;
    }
    Ok(same)
}

/// Whether a parse comes to what is stated.
fn comes_to(
    alloc: Global,
    tables: &Tables,
    row: &ParseRow,
    parsed: &Parsed,
) -> Result<bool, NoMemory> {
    match parsed {
        Parsed::Tree { root: _, store } => Ok(is_tree(&row.comes, store.node_count())),
        Parsed::Wrong {
            index,
            token,
            state,
        } => match row.comes {
            Comes::Tree(_) => Ok(false),
            Comes::Wrong(place, some, number, expected) => Ok(
                *index == place
                    && token.is_some() == some
                    && state.0 == number
                    && expects_exactly(alloc, tables, *state, row.letters, expected)?,
            ),
        },
    }
}

/// Whether a tree of so many nodes is stated.
fn is_tree(comes: &Comes, nodes: u64) -> bool {
    match comes {
        Comes::Tree(stated) => *stated == nodes,
        Comes::Wrong(..) => false,
    }
}

#[test]
fn texts_come_to_what_is_stated(rt: HostRuntime) -> Result<(), Fail> {
    for row in &ROWS {
        let sheet = read_sheet(rt.alloc(), row.sheet)?;
        let built = build_grammar(rt.alloc(), sheet.grammar())?;
        let parsed = parse_text(rt.alloc(), &sheet, &built, row.letters, row.text)?;
        assert!(rt;
            comes_to(rt.alloc(), &built.tables, row, &parsed)?,
            "{}",
            row.name
        );
    }
    Ok(())
}

/// A text that nests so deep.
fn nest(alloc: Global, depth: usize) -> Result<Vec<u8>, NoMemory> {
    let mut text = Vec::new(alloc);
    for _ in 0..depth {
        text.push(b'(')?;
    }
    for _ in 0..depth {
        text.push(b')')?;
    }
    Ok(text)
}

/// What a walk meets.
#[derive(Clone, Copy, Debug, PartialEq, Eq)]
struct Met {
    entered: u64,
    tokens: u64,
    left: u64,
}

/// What a walk over a tree meets in so many steps.
fn walk_over(alloc: Global, store: &Store, root: NodeRef, most: u32) -> Result<Met, NoMemory>
    requires { IsFinished store.now root }
{
    let mut walk = store.walk(alloc, root)?;
    let mut met = Met {
        entered: 0,
        tokens: 0,
        left: 0,
    };
    for _ in 0..most {
        match walk.next_step()? {
            Some(step) => met = met_more(met, step),
            None => break,
        }
    }
    Ok(met)
}

/// What was met, and one step more.
fn met_more(met: Met, step: Step) -> Met {
    match step {
        Step::Enter(_) => Met {
            entered: met.entered.wrapping_add(1),
            ..met
        },
        Step::Token(_) => Met {
            tokens: met.tokens.wrapping_add(1),
            ..met
        },
        Step::Leave(_) => Met {
            left: met.left.wrapping_add(1),
            ..met
        },
    }
}

/// What a walk over the tree of a parse meets.
fn walk_parsed(alloc: Global, parsed: &Parsed) -> Result<Option<Met>, NoMemory>
    requires { IsWalkable parsed.now }
{
    match parsed {
        Parsed::Tree { root, store } => Ok(Some(walk_over(alloc, store, *root, 1_000_000)?)),
        Parsed::Wrong { .. } => Ok(None),
    }
}

#[test]
fn a_deep_nest_is_parsed_and_walked(rt: HostRuntime) -> Result<(), Fail> {
    let sheet = read_sheet(rt.alloc(), NESTS)?;
    let built = build_grammar(rt.alloc(), sheet.grammar())?;
    let text = nest(rt.alloc(), 100_000)?;
    let parsed = parse_text(rt.alloc(), &sheet, &built, b"()", &text)?;
    let met = walk_parsed(rt.alloc(), &parsed)?;
    assert!(rt;
        met == Some(Met {
            entered: 200_002,
            tokens: 200_000,
            left: 200_002,
        })
    );
    Ok(())
}
