//! Sheets whose tokens are letters, and their texts.

ghost use Rattle.std.specs.Prelude.{◌≡◌, IfOk};
ghost use Rattle.plain_parse.specs.Parses.{AreTextTokens};

use lr_base::{NoMemory, Place, Token, TokenId};
use lr_machine::Tables;
use std::alloc::Global;

/// A sheet, and the letters of its tokens in the order of their numbers.
pub struct LetterSheet {
    pub sheet: &'static [u8],
    pub letters: &'static [u8],
}

/// A sentence of two parts, each of which is any number of 'c' and then 'd'.
pub const PARTS: LetterSheet = LetterSheet {
    sheet: b"%%\ns : c c ;\nc : 'c' c | 'd' ;\n",
    letters: b"cd",
};

/// Sums of numbers, with brackets, each before a semicolon.
pub const SUMS: LetterSheet = LetterSheet {
    sheet: b"%token N /[0-9]+/\n%%\nlist : list e ';' | e ';' ;\ne : e '+' t | t ;\nt : N | '(' e ')' ;\n",
    letters: b"1;+()",
};

/// Lists that nest, with parts that may be empty.
pub const LISTS: LetterSheet = LetterSheet {
    sheet: b"%%\nall : open body ']' ;\nopen : '[' flag ;\nflag : | '!' ;\nbody : | body item ;\nitem : 'x' tail | all ;\ntail : | tail ',' 'x' ;\n",
    letters: b"][!x,",
};

/// The number of a letter's token, and that of the bad byte for a letter of none.
fn number_of(letters: &[u8], letter: u8, bad: u32) -> u32 {
    let mut number: u32 = 0;
    for other in letters {
        if *other == letter {
            return number;
        }
        number = number.wrapping_add(1);
    }
    bad
}

/// A token of one byte on the first line.
fn token_at(number: u32, start: u32) -> Token
    ensures { result.id ≡ number }
{
    Token {
        id: TokenId(number),
        place: Place {
            line: 1,
            start,
            len: 1,
        },
    }
}

/// The tokens of a text of letters; a letter of no token is the bad byte.
pub fn tokens_of(
    alloc: Global,
    tables: &Tables,
    letters: &[u8],
    text: &[u8],
) -> Result<Vec<Token>, NoMemory>
    ensures { IfOk result (λ tokens. AreTextTokens tables.now tokens.items) }
{
    let end = tables.end().0;
    let mut tokens = Vec::new(alloc);
    let mut start: u32 = 0;
    for letter in text {
        let number = number_of(letters, *letter, end + 1);
        if number < end || number == end + 1 {
            tokens.push(token_at(number, start))?;
        }
        start = start.wrapping_add(1);
    }
    Ok(tokens)
}
