//! Rows of the patterns of literals, and of reading a sheet.

ghost use Rattle.std.specs.Prelude.{◌≡◌};
ghost use Rattle.scanning_theory.specs.Scan.{token_count};

use lr_base::{NoMemory, TokenId};
use sheet_data::Bytes;
use sheet_reader::{ScanOrder, Sheet, SheetFault, read_sheet};
use std::alloc::Global;
use std::test::Fail;
use token_patterns::{ByteSet, Meaning, Pattern, PatternFault};

/// A sheet of two literals, of which the second begins the first.
pub const LETS: &[u8] = b"%token LET 'let'\n%token L 'le'\n%%\ns : LET L ;\n";

/// Bytes of a literal, and why they make no pattern, if they make none.
struct PatternRow {
    name: &'static str,
    bytes: &'static [u8],
    fault: Option<PatternFault>,
}

static PATTERNS: [PatternRow; 6] = [
    PatternRow {
        name: "one byte",
        bytes: b"a",
        fault: None,
    },
    PatternRow {
        name: "two bytes",
        bytes: b"ab",
        fault: None,
    },
    PatternRow {
        name: "the least and the greatest byte, and one twice",
        bytes: b"\x00\xff\x00'\\",
        fault: None,
    },
    PatternRow {
        name: "no bytes",
        bytes: b"",
        fault: Some(PatternFault::MatchesEmpty),
    },
    PatternRow {
        name: "a line feed alone",
        bytes: b"\n",
        fault: Some(PatternFault::Syntax),
    },
    PatternRow {
        name: "a line feed at the end",
        bytes: b"ab\n",
        fault: Some(PatternFault::Syntax),
    },
];

fn is_byte(pattern: &Pattern, byte: u8) -> bool {
    match pattern {
        Pattern::Set(set) => byte != b'\n' && *set == ByteSet::only(byte),
        _ => false,
    }
}

/// Whether the pattern is the tree of these bytes.
fn is_literal(pattern: &Pattern, bytes: &[u8]) -> bool {
    match (pattern, bytes) {
        (Pattern::Seq(members), [_, _, ..]) => {
            let members = members.as_slice();
            members.len() == bytes.len()
                && members
                    .iter()
                    .zip(bytes)
                    .all(|(member, byte)| is_byte(member, *byte))
        }
        (_, [byte]) => is_byte(pattern, *byte),
        _ => false,
    }
}

fn is_made_as_stated(alloc: Global, row: &PatternRow) -> bool {
    match Pattern::literal(alloc, row.bytes) {
        Ok(pattern) => row.fault.is_none() && is_literal(&pattern, row.bytes),
        Err(fault) => row.fault == Some(fault),
    }
}

#[test]
fn makes_patterns_of_literals(rt: HostRuntime) {
    for row in &PATTERNS {
        assert!(rt; is_made_as_stated(rt.alloc(), row), "{}", row.name);
    }
}

/// The printed names of the sheet's two tokens, of the end of the text and of the bad byte.
static NAMES: [&str; 4] = ["LET", "L", "end of text", "bad byte"];

/// How many meanings are a token.
fn count_tokens(means: &[Meaning]) -> usize
    ensures { result ≡ token_count means.now }
{
    means
        .iter()
        .filter(|meaning| matches!(meaning, Meaning::Token(_)))
        .count()
}

/// Whether these are the printed names, all at once.
fn are_names(texts: &[Bytes]) -> bool {
    texts.len() == NAMES.len()
        && texts
            .iter()
            .zip(&NAMES)
            .all(|(text, name)| text.as_slice() == name.as_bytes())
}

/// Whether each number gives its printed name.
fn gives_names(sheet: &Sheet) -> Result<bool, NoMemory> {
    let order = sheet.scan_order()?;
    let tokens = count_tokens(&order.means);
    let mut all_same = tokens == 2;
    for (number, name) in NAMES.iter().enumerate() {
        if number <= tokens + 1 {
            let text = sheet.token_text(TokenId(number as u32))?;
            all_same &= text.as_slice() == name.as_bytes();
        }
    }
    Ok(all_same)
}

/// Whether the literals are ranked in the order of their tokens.
fn is_order(order: &ScanOrder) -> bool {
    let means = [Meaning::Token(TokenId(0)), Meaning::Token(TokenId(1))];
    match order.patterns.as_slice() {
        [first, second] => {
            is_literal(first, b"let")
                && is_literal(second, b"le")
                && order.means.as_slice() == means.as_slice()
        }
        _ => false,
    }
}

#[test]
fn reads_a_sheet_and_names_its_tokens(rt: HostRuntime) -> Result<(), Fail> {
    let sheet = read_sheet(rt.alloc(), LETS)?;
    let texts = sheet.token_texts()?;
    let order = sheet.scan_order()?;
    let fault = read_sheet(rt.alloc(), b"%%\n").err();
    assert!(rt; are_names(&texts), "all names");
    assert!(rt; gives_names(&sheet)?, "one name at a time");
    assert!(rt; is_order(&order), "the order of rank");
    assert_eq!(rt; fault, Some(SheetFault::NoRules), "no rules");
    Ok(())
}
