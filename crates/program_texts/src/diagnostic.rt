//! What is said of a text that is no sentence.
ghost use Rattle.std.specs.Prelude.{◌≡◌, ◌++◌, [], ◌∷◌, IfOk, OnOk, map};
ghost use Rattle.translation_theory.specs.Diagnostics.{listed, name_of, unexpected_text as text_of_unexpected};
ghost use Rattle.std.specs.List.{flat_map};
ghost use Rattle.std.specs.Prelude.{codes};
ghost use Rattle.program_texts.specs.Diagnostics.{name_by, listed_behind};

use crate::token_list::push_name;
use block_writer::push_number;
use lr_base::{NoMemory, TokenId};
use sheet_data::Bytes;
use sheet_reader::Sheet;
use std::alloc::Global;

/// Adds a comma, a space and a name for each token.
fn push_others(text: &mut Vec<u8>, names: &[Bytes], tokens: &[TokenId]) -> Result<(), NoMemory>
    ensures { OnOk result (text.new.items ≡ text.old.items ++ listed_behind names.now tokens.now) }
{
    for token in tokens {
        text.extend_from_slice(b", ")?;
        push_name(text, names, *token)?;
    }
    Ok(())
}

/// Adds the names of tokens with a comma and a space between.
fn push_listed(text: &mut Vec<u8>, names: &[Bytes], tokens: &[TokenId]) -> Result<(), NoMemory>
    ensures { OnOk result (text.new.items ≡ text.old.items ++ listed (map (name_by names.now) tokens.now)) }
{
    if let Some((first, others)) = tokens.split_first() {
        push_name(text, names, *first)?;
        push_others(text, names, others)?;
    }
    Ok(())
}

/// What is said of a token of a sheet, of its end mark or of the bad byte, that stands on a line where these tokens could
/// stand, in order of number.
pub fn unexpected_text(
    alloc: Global,
    sheet: &Sheet,
    line: u32,
    token: TokenId,
    expected: &[TokenId],
) -> Result<Vec<u8>, NoMemory>
    ensures { IfOk result (λ text. text.items ≡ text_of_unexpected sheet.now line token expected.now) }
{
    let names = sheet.token_texts()?;
    let mut text = Vec::from_slice(alloc, b"line ".as_slice())?;
    push_number(&mut text, u64::from(line))?;
    text.extend_from_slice(b": unexpected ")?;
    push_name(&mut text, &names, token)?;
    text.extend_from_slice(b"; expected ")?;
    push_listed(&mut text, &names, expected)?;
    text.extend_from_slice(b"\n")?;
    Ok(text)
}
