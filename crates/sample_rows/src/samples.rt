//! Rows of the shortest words of ranks, and of the sample texts of sheets.

use first_sets::analyse;
use grammar_data::TokenId;
use sample_text::{SampleFault, generate};
use sheet_reader::read_sheet;
use short_words::shortest_word;
use std::alloc::Global;
use std::test::Fail;
use token_patterns::Scanner;

/// A word of a rank, if it has one.
struct WordRow {
    name: &'static str,
    rank: u32,
    word: Option<&'static [u8]>,
}

/// A literal, words that begin with a letter, and what only words scan as.
const WORDS: &[u8] =
    b"%token A 'a'\n%token W /[a-z][a-z0-9]*/\n%token X /x/\n%token N /-?0*[1-9]/\n%%\ns : A W X N ;\n";

static WORD_ROWS: [WordRow; 4] = [
    WordRow {
        name: "the literal",
        rank: 0,
        word: Some(b"a"),
    },
    WordRow {
        name: "the least letter is the literal",
        rank: 1,
        word: Some(b"b"),
    },
    WordRow {
        name: "an earlier rank has the only string",
        rank: 2,
        word: None,
    },
    WordRow {
        name: "the shortest comes before the bytewise least",
        rank: 3,
        word: Some(b"1"),
    },
];

#[test]
fn finds_the_shortest_words(rt: HostRuntime) -> Result<(), Fail> {
    let alloc = rt.alloc();
    let sheet = read_sheet(alloc, WORDS)?;
    let order = sheet.scan_order()?;
    let scanner = Scanner::build(alloc, &order.patterns)?;
    for row in &WORD_ROWS {
        let found = shortest_word(alloc, &scanner, row.rank)?;
        let word = found.as_deref();
        assert_eq!(rt; word, row.word, "{}", row.name);
    }
    Ok(())
}

/// What a sample comes to: a text, a token without a word, or more bytes than a text may have.
#[derive(Clone, Copy)]
enum Comes {
    Text(&'static [u8]),
    Length(usize),
    NoWord(u32),
    TooLong,
}

/// A sample of a sheet, by a number and a size.
struct SampleRow {
    name: &'static str,
    sheet: &'static [u8],
    from: u64,
    size: u32,
    comes: Comes,
}

/// A line of 128 bytes, sixteen to the fourth power times: as many bytes as a text may have.
const FULL: &[u8] =
    b"%%\na : b b b b b b b b b b b b b b b b ;\nb : c c c c c c c c c c c c c c c c ;\nc : d d d d d d d d d d d d d d d d ;\nd : e e e e e e e e e e e e e e e e ;\ne : 'xxxxxxxxxxxxxxxxxxxxxxxxxxxxxxxxxxxxxxxxxxxxxxxxxxxxxxxxxxxxxxxxxxxxxxxxxxxxxxxxxxxxxxxxxxxxxxxxxxxxxxxxxxxxxxxxxxxxxxxxxxxxxxx' ;\n";

/// The same, and one token more.
const FULL_AND_ONE: &[u8] =
    b"%%\nz : a 'x' ;\na : b b b b b b b b b b b b b b b b ;\nb : c c c c c c c c c c c c c c c c ;\nc : d d d d d d d d d d d d d d d d ;\nd : e e e e e e e e e e e e e e e e ;\ne : 'xxxxxxxxxxxxxxxxxxxxxxxxxxxxxxxxxxxxxxxxxxxxxxxxxxxxxxxxxxxxxxxxxxxxxxxxxxxxxxxxxxxxxxxxxxxxxxxxxxxxxxxxxxxxxxxxxxxxxxxxxxxxxxx' ;\n";

static SAMPLE_ROWS: [SampleRow; 6] = [
    SampleRow {
        name: "the second of two rules is drawn",
        sheet: b"%%\ns : 'b' | 'a' s ;\n",
        from: 0,
        size: 1,
        comes: Comes::Text(b"a\nb\n"),
    },
    SampleRow {
        name: "a token whose strings are those of another one",
        sheet: b"%token A /[a-z]+/\n%token B /x/\n%%\ns : B | A B ;\n",
        from: 0,
        size: 1,
        comes: Comes::NoWord(1),
    },
    SampleRow {
        name: "closing rules alone, by least trees",
        sheet: b"%%\ns : 'a' t | t u | u ;\nt : 'b' u ;\nu : v ;\nv : 'c' | 'd' ;\n",
        from: 7,
        size: 0,
        comes: Comes::Text(b"c\n"),
    },
    SampleRow {
        name: "no token",
        sheet: b"%%\ns : ;\n",
        from: 3,
        size: 5,
        comes: Comes::Text(b""),
    },
    SampleRow {
        name: "as many bytes as a text may have",
        sheet: FULL,
        from: 0,
        size: 1,
        comes: Comes::Length(8_388_608),
    },
    SampleRow {
        name: "one line more",
        sheet: FULL_AND_ONE,
        from: 0,
        size: 1,
        comes: Comes::TooLong,
    },
];

/// The sample of a row.
fn sample(alloc: Global, row: &SampleRow) -> Result<Result<Vec<u8>, SampleFault>, Fail> {
    let sheet = read_sheet(alloc, row.sheet)?;
    let order = sheet.scan_order()?;
    let scanner = Scanner::build(alloc, &order.patterns)?;
    let grammar = sheet.grammar();
    let _firsts = analyse(alloc, grammar)?;
    Ok(generate(alloc, grammar, &scanner, &order.means, row.from, row.size))
}

#[test]
fn makes_samples(rt: HostRuntime) -> Result<(), Fail> {
    for row in &SAMPLE_ROWS {
        let found = sample(rt.alloc(), row)?;
        let holds = match (&found, row.comes) {
            (Ok(text), Comes::Text(stated)) => text.as_slice() == stated,
            (Ok(text), Comes::Length(stated)) => text.len() == stated,
            (Err(fault), Comes::NoWord(token)) => *fault == SampleFault::NoSample(TokenId(token)),
            (Err(fault), Comes::TooLong) => *fault == SampleFault::TooLong,
            _ => false,
        };
        assert!(rt; holds, "{}", row.name);
    }
    Ok(())
}
