//! The token list of a text.
ghost use Rattle.std.specs.Prelude.{◌≡◌, ◌+◌, ◌-◌, ◌++◌, ◌∷◌, [], decimal, OnOk, unwrap_or, slice_get, slice_index};
ghost use Rattle.sheet_theory.specs.TokenList.{token_line, end_line, listed_tokens};
ghost use Rattle.lr_base.specs.Outside.{IsSameSink};
ghost use Rattle.writing_theory.specs.Writing.{IsWritten};

use block_writer::{Blocks, WriteFault, push_number};
use grammar_data::{Place, Token, TokenId};
use line_lexer::Lines;
use lr_base::{NoMemory, Sink};
use sheet_data::Bytes;
use std::alloc::Global;

/// Adds a number and a space.
pub fn push_column(list: &mut Vec<u8>, number: u64) -> Result<(), NoMemory>
    ensures { OnOk result (list.new.items ≡ list.old.items ++ (decimal number ++ 32 ∷ [])) }
{
    push_number(list, number)?;
    list.push(b' ')?;
    Ok(())
}

/// Adds the printed name of the token of this number, if it has one.
pub fn push_name(list: &mut Vec<u8>, names: &[Bytes], id: TokenId) -> Result<(), NoMemory>
    ensures { OnOk result (list.new.items ≡ list.old.items ++ unwrap_or (slice_get names.now id) []) }
{
    match names.get(id.0 as usize) {
        Some(name) => list.extend_from_slice(name.as_slice())?,
        None => {}
    }
    Ok(())
}

/// Where a line begins, counted from 0; 0 for a line that isn't there.
fn line_start(lines: &Lines, line: u32) -> u32
    ensures { result ≡ slice_index lines.now line }
{
    if line < lines.count() {
        lines.start(line)
    } else {
        0
    }
}

/// A token's column: 1 plus its offset in its line.
fn column_of(lines: &Lines, place: Place) -> u64
    ensures { result ≡ place.start - slice_index lines.now (place.line - 1) + 1 }
{
    let start = line_start(lines, place.line.saturating_sub(1));
    u64::from(place.start.saturating_sub(start)) + 1
}

/// Adds a token's line of the list.
fn push_token(
    list: &mut Vec<u8>,
    names: &[Bytes],
    lines: &Lines,
    token: &Token,
) -> Result<(), NoMemory>
    ensures { OnOk result (list.new.items ≡ list.old.items ++ token_line names.now lines.now token.now) }
{
    let place = token.place;
    push_column(list, u64::from(place.line))?;
    push_column(list, column_of(lines, place))?;
    push_column(list, u64::from(place.len))?;
    push_name(list, names, token.id)?;
    list.push(b'\n')?;
    Ok(())
}

/// Adds the line of the end of the text.
fn push_end(list: &mut Vec<u8>, lines: &Lines) -> Result<(), NoMemory>
    ensures { OnOk result (list.new.items ≡ list.old.items ++ end_line lines.now) }
{
    push_number(list, u64::from(lines.end_line()))?;
    list.extend_from_slice(b" end of text\n")?;
    Ok(())
}

/// Writes the token list, where `names` are the printed names of the tokens by number.
pub fn write_list<O: Sink>(
    alloc: Global,
    names: &[Bytes],
    lines: &Lines,
    tokens: &[Token],
    out: &mut O,
) -> Result<(), WriteFault>
    ensures written { IsWritten (λ text. text ≡ listed_tokens names.now lines.now tokens.now) (O.seen out.old) (O.seen out.new) result }
    ensures same { IsSameSink (O.seen out.old) (O.seen out.new) }
{
    let mut blocks = Blocks::new(alloc);
    for token in tokens {
        push_token(&mut blocks.gathered, names, lines, token)?;
        blocks.pass(out)?;
    }
    push_end(&mut blocks.gathered, lines)?;
    blocks.finish(out)?;
    Ok(())
}
