ghost use Rattle.std.specs.Prelude.{◌≡◌, ◌-◌, ◌^◌, ◌<◌, ◌≤◌, All, IfOk, length};
ghost use Rattle.lr_base.specs.declared.limits.TheConstants.{READ_BYTES, TEXT_BYTES as most_text_bytes};
ghost use Rattle.grammar_checks.specs.Building.{IsBuilt};
ghost use Rattle.grammar_data.specs.declared.token.Token.{Token as TextToken};
ghost use Rattle.plain_parse.specs.Parses.{AreTextTokens};
ghost use Rattle.segment_bench.specs.Inputs.{IsInput};

use crate::fault::Fault;
use grammar_checks::{Built, build_grammar};
use line_lexer::{Lines, lex_lines};
use lr_base::{NoMemory, SHEET_BYTES, Shelf, TEXT_BYTES, Text, Token, read_all};
use lr_machine::Tables;
use sheet_reader::{ScanOrder, Sheet, read_sheet};
use std::alloc::Global;
use token_patterns::Scanner;

/// A sheet with its tables, and the tokens of a text.
#[derive(Drop)]
pub struct Input {
    pub sheet: Sheet,
    pub built: Built,
    pub tokens: Vec<Token>,
}

/// The tokens of a text by the patterns of a sheet.
fn lex(alloc: Global, sheet: &Sheet, text: &[u8]) -> Result<Vec<Token>, Fault>
    requires { length text.now ≤ most_text_bytes }
{
    let ScanOrder { patterns, means } = sheet.scan_order()?;
    let Ok(scanner) = Scanner::build(alloc, &patterns) else {
        return Err(Fault::Sheet);
    };
    let lines = Lines::of(alloc, text)?;
    let count = lines.count();
    Ok(lex_lines(alloc, &scanner, &means, text, &lines, 0, count)?)
}

/// The tokens that a text may have by the tables.
fn text_tokens(alloc: Global, tables: &Tables, lexed: &[Token]) -> Result<Vec<Token>, NoMemory>
    ensures text { IfOk result (λ tokens. AreTextTokens tables.now tokens.items) }
    ensures small { IfOk result (λ tokens. All (λ (token : TextToken). token.id < 2 ^ 32 - 2) tokens.items) }
{
    let end = tables.end().0;
    let mut tokens = Vec::new(alloc);
    for token in lexed {
        let number = token.id.0;
        if number < end || number == end + 1 {
            tokens.push(*token)?;
        }
    }
    Ok(tokens)
}

/// All bytes of a file, at most so many.
fn read<S: Shelf>(alloc: Global, shelf: &mut S, name: &str, most: usize) -> Result<Vec<u8>, Fault>
    requires { most ≤ READ_BYTES }
    ensures { IfOk result (λ bytes. length bytes.items ≤ most) }
{
    match read_all(alloc, shelf, name, most)? {
        Text::Whole(bytes) => Ok(bytes),
        Text::TooLong => Err(Fault::Text),
    }
}

/// Reads a sheet and a text, builds the tables of the one and finds the tokens of the other.
pub fn read_input<S: Shelf>(
    alloc: Global,
    shelf: &mut S,
    sheet: &str,
    text: &str,
) -> Result<Input, Fault>
    ensures { IfOk result (λ input. IsInput input) }
{
    let sheet_bytes = read(alloc, shelf, sheet, SHEET_BYTES)?;
    let Ok(sheet) = read_sheet(alloc, &sheet_bytes) else {
        return Err(Fault::Sheet);
    };
    let Ok(built) = build_grammar(alloc, sheet.grammar()) else {
        return Err(Fault::Sheet);
    };
    let bytes = read(alloc, shelf, text, TEXT_BYTES)?;
    let lexed = lex(alloc, &sheet, &bytes)?;
    let tokens = text_tokens(alloc, &built.tables, &lexed)?;
    if tokens.len() > TEXT_BYTES {
        return Err(Fault::Text);
    }
    Ok(Input {
        sheet,
        built,
        tokens,
    })
}
