//! Rows of the longest match, of a text's lines and of the tokens of some of them.
ghost use Rattle.std.specs.Prelude.{◌<◌, IfOk};
ghost use Rattle.scanning_theory.specs.Scannable.{IsScannable};

use crate::reading::LETS;
use grammar_data::{Place, Token, TokenId};
use line_lexer::{Lines, lex_lines};
use lr_base::TEXT_BYTES;
use pattern_data::{ByteSet, Pattern};
use sheet_reader::read_sheet;
use sqlite_items::{Boxed, Items};
use std::alloc::{AllocError, Global};
use std::test::Fail;
use token_patterns::{Scanner, ScannerFault, can_build};

/// Literals in order of rank, parted by spaces, and their longest match at a place of a text.
struct MatchRow {
    name: &'static str,
    literals: &'static str,
    text: &'static [u8],
    from: usize,
    found: Option<(usize, u32)>,
}

static MATCHES: [MatchRow; 9] = [
    MatchRow {
        name: "the longest of three",
        literals: "l let le",
        text: b"letter",
        from: 0,
        found: Some((3, 1)),
    },
    MatchRow {
        name: "the least rank of equal literals",
        literals: "le let x let",
        text: b"let",
        from: 0,
        found: Some((3, 1)),
    },
    MatchRow {
        name: "rank 0 of equal literals",
        literals: "a a a",
        text: b"aa",
        from: 1,
        found: Some((1, 0)),
    },
    MatchRow {
        name: "in the middle of the text",
        literals: "l let le",
        text: b"xle",
        from: 1,
        found: Some((2, 2)),
    },
    MatchRow {
        name: "only behind the place",
        literals: "le",
        text: b"xle",
        from: 0,
        found: None,
    },
    MatchRow {
        name: "only before the place",
        literals: "le",
        text: b"lex",
        from: 1,
        found: None,
    },
    MatchRow {
        name: "cut by the end of the text",
        literals: "let",
        text: b"le",
        from: 0,
        found: None,
    },
    MatchRow {
        name: "at the end of the text",
        literals: "le",
        text: b"le",
        from: 2,
        found: None,
    },
    MatchRow {
        name: "no literals",
        literals: "",
        text: b"le",
        from: 0,
        found: None,
    },
];

/// The patterns, where a scanner can be built of them.
fn scannable(alloc: Global, patterns: Vec<Pattern>) -> Result<Vec<Pattern>, Fail>
    ensures { IfOk result (λ found. IsScannable found.items) }
{
    if can_build(alloc, &patterns)? {
        Ok(patterns)
    } else {
        Err(Fail::new("no scanner can be built of the patterns"))
    }
}

/// The patterns of the literals that spaces part.
fn patterns_of(alloc: Global, literals: &str) -> Result<Vec<Pattern>, Fail> {
    let mut patterns = Vec::new(alloc);
    for literal in literals.split(' ') {
        if !literal.is_empty() {
            patterns.push(Pattern::literal(alloc, literal.as_bytes())?)?;
        }
    }
    Ok(patterns)
}

/// What a scanner of the row's literals finds.
fn found_by(alloc: Global, row: &MatchRow) -> Result<Option<(usize, u32)>, Fail> {
    if row.text.len() < row.from {
        return Err(Fail::new("a place behind the text"));
    }
    let patterns = scannable(alloc, patterns_of(alloc, row.literals)?)?;
    let scanner = Scanner::build(alloc, &patterns)?;
    Ok(scanner.longest(row.text, row.from))
}

#[test]
fn finds_the_longest_match_of_the_least_rank(rt: HostRuntime) -> Result<(), Fail> {
    for row in &MATCHES {
        let found = found_by(rt.alloc(), row)?;
        assert_eq!(rt; found, row.found, "{}", row.name);
    }
    Ok(())
}

/// Patterns, each written behind its parts, and their longest match at a place of a text.
///
/// A letter is its set, `#` the set of `a` and `b`, `@` that of all small letters; `.` puts the last two one after
/// another, `|` gives a choice of them, and `*`, `+` and `?` repeat the last one or leave it out.
struct PatternRow {
    name: &'static str,
    patterns: &'static str,
    text: &'static [u8],
    from: usize,
    found: Option<(usize, u32)>,
}

static PATTERN_ROWS: [PatternRow; 16] = [
    PatternRow {
        name: "the last end of several",
        patterns: "#*a.",
        text: b"abbab",
        from: 0,
        found: Some((4, 0)),
    },
    PatternRow {
        name: "only the first byte",
        patterns: "#*a.",
        text: b"abbbb",
        from: 0,
        found: Some((1, 0)),
    },
    PatternRow {
        name: "no end behind the place",
        patterns: "#*a.",
        text: b"abbb",
        from: 1,
        found: None,
    },
    PatternRow {
        name: "a tie of word and name goes to the word",
        patterns: "if. @+",
        text: b"if",
        from: 0,
        found: Some((2, 0)),
    },
    PatternRow {
        name: "the longer name before the word",
        patterns: "if. @+",
        text: b"iffy",
        from: 0,
        found: Some((4, 1)),
    },
    PatternRow {
        name: "a tie of name and word goes to the name",
        patterns: "@+ if.",
        text: b"if",
        from: 0,
        found: Some((2, 0)),
    },
    PatternRow {
        name: "the longer of a choice",
        patterns: "ab.a|c.",
        text: b"abc",
        from: 0,
        found: Some((3, 0)),
    },
    PatternRow {
        name: "the shorter of a choice",
        patterns: "ab.a|c.",
        text: b"acb",
        from: 0,
        found: Some((2, 0)),
    },
    PatternRow {
        name: "a choice that stops in the middle",
        patterns: "ab.a|c.",
        text: b"ab",
        from: 0,
        found: None,
    },
    PatternRow {
        name: "an option that is left out",
        patterns: "a?b.",
        text: b"ba",
        from: 0,
        found: Some((1, 0)),
    },
    PatternRow {
        name: "an option that is there",
        patterns: "a?b.",
        text: b"aab",
        from: 1,
        found: Some((2, 0)),
    },
    PatternRow {
        name: "at least once",
        patterns: "a+",
        text: b"aaab",
        from: 0,
        found: Some((3, 0)),
    },
    PatternRow {
        name: "not once",
        patterns: "a+",
        text: b"b",
        from: 0,
        found: None,
    },
    PatternRow {
        name: "a repetition within a repetition",
        patterns: "ab*.+",
        text: b"abbabc",
        from: 0,
        found: Some((5, 0)),
    },
    PatternRow {
        name: "a shorter match behind a longer beginning",
        patterns: "a aab..c.",
        text: b"aabb",
        from: 0,
        found: Some((1, 0)),
    },
    PatternRow {
        name: "no patterns",
        patterns: "",
        text: b"a",
        from: 0,
        found: None,
    },
];

/// The set of the bytes from 64 on whose bits are set.
fn upper_set(word: u64) -> ByteSet
    requires { 0 < word }
{
    ByteSet::from_words([0, word, 0, 0])
}

/// Takes the pattern on top.
fn take(stack: &mut Vec<Pattern>) -> Result<Pattern, Fail> {
    match stack.pop() {
        Some(pattern) => Ok(pattern),
        None => Err(Fail::new("a part is missing")),
    }
}

/// The pattern of the last two.
fn joined(alloc: Global, stack: &mut Vec<Pattern>) -> Result<Items<Pattern>, Fail> {
    let second = take(stack)?;
    let first = take(stack)?;
    let mut members = Vec::new(alloc);
    members.push(first)?;
    members.push(second)?;
    Ok(Items::from_vec(members))
}

/// The pattern for a byte of the row, of the patterns before it.
fn part(alloc: Global, stack: &mut Vec<Pattern>, byte: u8) -> Result<Pattern, Fail> {
    match byte {
        b'#' => Ok(Pattern::Set(upper_set(3 << 33))),
        b'@' => Ok(Pattern::Set(upper_set(0x03ff_ffff << 33))),
        b'.' => Ok(Pattern::Seq(joined(alloc, stack)?)),
        b'|' => Ok(Pattern::Alt(joined(alloc, stack)?)),
        b'*' => Ok(Pattern::Star(Boxed::new(alloc, take(stack)?)?)),
        b'+' => Ok(Pattern::Plus(Boxed::new(alloc, take(stack)?)?)),
        b'?' => Ok(Pattern::Opt(Boxed::new(alloc, take(stack)?)?)),
        _ => Ok(Pattern::literal(alloc, &[byte])?),
    }
}

/// The patterns of a row.
fn read_patterns(alloc: Global, text: &str) -> Result<Vec<Pattern>, Fail> {
    let mut stack = Vec::new(alloc);
    for byte in text.as_bytes() {
        if *byte != b' ' {
            let pattern = part(alloc, &mut stack, *byte)?;
            stack.push(pattern)?;
        }
    }
    Ok(stack)
}

/// What a scanner of the row's patterns finds.
fn found_among(alloc: Global, row: &PatternRow) -> Result<Option<(usize, u32)>, Fail> {
    if row.text.len() < row.from {
        return Err(Fail::new("a place behind the text"));
    }
    let patterns = scannable(alloc, read_patterns(alloc, row.patterns)?)?;
    let scanner = Scanner::build(alloc, &patterns)?;
    Ok(scanner.longest(row.text, row.from))
}

#[test]
fn finds_the_longest_match_of_patterns(rt: HostRuntime) -> Result<(), Fail> {
    for row in &PATTERN_ROWS {
        let found = found_among(rt.alloc(), row)?;
        assert_eq!(rt; found, row.found, "{}", row.name);
    }
    Ok(())
}

/// Patterns, and whether a scanner can be built of them.
struct ConditionRow {
    patterns: &'static str,
    can: bool,
}

static CONDITIONS: [ConditionRow; 5] = [
    ConditionRow {
        patterns: "#*a.",
        can: true,
    },
    ConditionRow {
        patterns: "",
        can: true,
    },
    ConditionRow {
        patterns: "a*",
        can: false,
    },
    ConditionRow {
        patterns: "a b?",
        can: false,
    },
    ConditionRow {
        patterns: "a*b?.",
        can: false,
    },
];

#[test]
fn asks_whether_a_pattern_has_the_empty_string(rt: HostRuntime) -> Result<(), Fail> {
    for row in &CONDITIONS {
        let patterns = read_patterns(rt.alloc(), row.patterns)?;
        let can = can_build(rt.alloc(), &patterns)?;
        assert_eq!(rt; can, row.can, "{}", row.patterns);
    }
    Ok(())
}

/// What a build answered.
#[derive(Clone, Copy, Debug, PartialEq, Eq)]
enum Built {
    Scanner,
    TooManyStates,
    NoMemory,
}

fn try_build(alloc: Global, text: &str) -> Result<Built, Fail> {
    let patterns = scannable(alloc, read_patterns(alloc, text)?)?;
    match Scanner::build(alloc, &patterns) {
        Ok(_) => Ok(Built::Scanner),
        Err(ScannerFault::TooManyStates) => Ok(Built::TooManyStates),
        Err(ScannerFault::NoMemory) => Ok(Built::NoMemory),
    }
}

#[test]
fn counts_the_states_of_a_scanner(rt: HostRuntime) -> Result<(), Fail> {
    let most = try_build(rt.alloc(), "#*a.#.#.#.#.#.#.#.#.#.#.#.#.#.")?;
    assert_eq!(rt; most, Built::Scanner, "16,385 states");
    let more = try_build(rt.alloc(), "#*a.#.#.#.#.#.#.#.#.#.#.#.#.#.#.")?;
    assert_eq!(rt; more, Built::TooManyStates, "32,769 states");
    Ok(())
}

/// A text, how many lines it has, in which line it ends, and where its lines begin.
struct LinesRow {
    name: &'static str,
    text: &'static [u8],
    count: u32,
    end_line: u32,
    starts: &'static [u32],
}

static LINES: [LinesRow; 7] = [
    LinesRow {
        name: "no bytes",
        text: b"",
        count: 0,
        end_line: 1,
        starts: &[],
    },
    LinesRow {
        name: "no line feed",
        text: b"ab",
        count: 1,
        end_line: 1,
        starts: &[0],
    },
    LinesRow {
        name: "a last line feed",
        text: b"ab\n",
        count: 1,
        end_line: 1,
        starts: &[0],
    },
    LinesRow {
        name: "a line feed alone",
        text: b"\n",
        count: 1,
        end_line: 1,
        starts: &[0],
    },
    LinesRow {
        name: "two line feeds",
        text: b"\n\n",
        count: 2,
        end_line: 2,
        starts: &[0, 1],
    },
    LinesRow {
        name: "an empty line between two",
        text: b"ab\n\nc",
        count: 3,
        end_line: 3,
        starts: &[0, 3, 4],
    },
    LinesRow {
        name: "carriage returns end no line",
        text: b"a\rb\r\nc",
        count: 2,
        end_line: 2,
        starts: &[0, 5],
    },
];

fn starts_of(alloc: Global, lines: &Lines) -> Result<Vec<u32>, AllocError> {
    let mut starts = Vec::new(alloc);
    for line in 0..lines.count() {
        starts.push(lines.start(line))?;
    }
    Ok(starts)
}

fn has_lines_as_stated(alloc: Global, row: &LinesRow) -> Result<bool, Fail> {
    if TEXT_BYTES < row.text.len() {
        return Err(Fail::new("a text past its limit"));
    }
    let lines = Lines::of(alloc, row.text)?;
    let starts = starts_of(alloc, &lines)?;
    Ok(
        lines.count() == row.count
            && lines.end_line() == row.end_line
            && starts.as_slice() == row.starts,
    )
}

#[test]
fn finds_the_lines_of_a_text(rt: HostRuntime) -> Result<(), Fail> {
    for row in &LINES {
        let has_lines = has_lines_as_stated(rt.alloc(), row)?;
        assert!(rt; has_lines, "{}", row.name);
    }
    Ok(())
}

/// The text of the rows on some lines alone: its lines begin at 0, 3, 8 and 9.
const FOUR_LINES: &[u8] = b"le\nletx\n\nlet";

/// Lines of the text, counted from 0, and the numbers of its tokens that are theirs.
struct SomeLinesRow {
    name: &'static str,
    from: u32,
    to: u32,
    first: usize,
    end: usize,
}

static SOME_LINES: [SomeLinesRow; 7] = [
    SomeLinesRow {
        name: "no line",
        from: 0,
        to: 0,
        first: 0,
        end: 0,
    },
    SomeLinesRow {
        name: "the first line",
        from: 0,
        to: 1,
        first: 0,
        end: 1,
    },
    SomeLinesRow {
        name: "the second line",
        from: 1,
        to: 2,
        first: 1,
        end: 3,
    },
    SomeLinesRow {
        name: "the empty line",
        from: 2,
        to: 3,
        first: 3,
        end: 3,
    },
    SomeLinesRow {
        name: "all lines but the first",
        from: 1,
        to: 4,
        first: 1,
        end: 4,
    },
    SomeLinesRow {
        name: "all lines",
        from: 0,
        to: 4,
        first: 0,
        end: 4,
    },
    SomeLinesRow {
        name: "no line at the end",
        from: 4,
        to: 4,
        first: 4,
        end: 4,
    },
];

fn token(id: u32, line: u32, start: u32, len: u32) -> Token {
    Token {
        id: TokenId(id),
        place: Place { line, start, len },
    }
}

/// The tokens of the text, by the numbers of the sheet's two tokens and of the bad byte.
fn all_tokens() -> [Token; 4] {
    [
        token(1, 1, 0, 2),
        token(0, 2, 3, 3),
        token(3, 2, 6, 1),
        token(0, 4, 9, 3),
    ]
}

/// The tokens of some lines of the text, by the sheet of two literals.
fn tokens_between(alloc: Global, from: u32, to: u32) -> Result<Vec<Token>, Fail> {
    let sheet = read_sheet(alloc, LETS)?;
    let order = sheet.scan_order()?;
    let scanner = Scanner::build(alloc, &order.patterns)?;
    if TEXT_BYTES < FOUR_LINES.len() {
        return Err(Fail::new("a text past its limit"));
    }
    let lines = Lines::of(alloc, FOUR_LINES)?;
    if to < from || lines.count() < to {
        return Err(Fail::new("lines out of range"));
    }
    Ok(lex_lines(alloc, &scanner, &order.means, FOUR_LINES, &lines, from, to)?)
}

#[test]
fn finds_the_tokens_of_some_lines(rt: HostRuntime) -> Result<(), Fail> {
    let tokens = all_tokens();
    let all = tokens.as_slice();
    for row in &SOME_LINES {
        let found = tokens_between(rt.alloc(), row.from, row.to)?;
        let stated = all.get(row.first..row.end).ok_or("no such tokens")?;
        assert_eq!(rt; found.as_slice(), stated, "{}", row.name);
    }
    Ok(())
}
