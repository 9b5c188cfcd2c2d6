//! The normal layout of a sheet.
ghost use Rattle.std.specs.Prelude.{◌≡◌, ◌∷◌, ◌++◌, map, decimal, IfOk, OnOk};
ghost use Rattle.std.specs.List.{flat_map};
ghost use Rattle.outline_theory.specs.Layout.{line_text, part_text, mark_words, pattern_text, decl_words, layout};
ghost use Rattle.sheet_reader.specs.Printing.{spaced, ended, tail_text};

use crate::printer::Printer;
use crate::sheet::Sheet;
use crate::token_text::push_escaped;
use itoa::Buffer;
use lr_base::NoMemory;
use pattern_data::Pattern;
use sheet_data::{Decl, Part};
use std::alloc::Global;

/// Adds a word and a space.
pub fn push_word(text: &mut Vec<u8>, word: &[u8]) -> Result<(), NoMemory>
    ensures { OnOk result (text.new.items ≡ text.old.items ++ spaced word.now) }
{
    text.extend_from_slice(word)?;
    text.push(b' ')?;
    Ok(())
}

/// Adds the last word of a line.
pub fn push_last(text: &mut Vec<u8>, word: &[u8]) -> Result<(), NoMemory>
    ensures { OnOk result (text.new.items ≡ text.old.items ++ ended word.now) }
{
    text.extend_from_slice(word)?;
    text.push(b'\n')?;
    Ok(())
}

/// Adds a pattern between slashes, which ends a line.
fn push_pattern(text: &mut Vec<u8>, alloc: Global, pattern: &Pattern) -> Result<(), NoMemory>
    ensures { OnOk result (text.new.items ≡ text.old.items ++ ended (pattern_text pattern.now)) }
{
    let spelling = pattern.print(alloc)?;
    text.push(b'/')?;
    text.extend_from_slice(&spelling)?;
    text.push(b'/')?;
    text.push(b'\n')?;
    Ok(())
}

/// Adds a declaration's line.
fn push_decl(text: &mut Vec<u8>, alloc: Global, decl: &Decl) -> Result<(), NoMemory>
    ensures { OnOk result (text.new.items ≡ text.old.items ++ line_text (decl_words decl.now)) }
{
    match decl {
        Decl::Literal { name, bytes } => {
            push_word(text, b"%token")?;
            push_word(text, name.as_slice())?;
            push_escaped(text, b'\'', bytes.as_slice())?;
            text.push(b'\n')?;
            Ok(())
        }
        Decl::Matched { name, pattern } => {
            push_word(text, b"%token")?;
            push_word(text, name.as_slice())?;
            push_pattern(text, alloc, pattern)
        }
        Decl::Skip { pattern } => {
            push_word(text, b"%skip")?;
            push_pattern(text, alloc, pattern)
        }
    }
}

/// Adds the declarations' lines.
fn push_decls(text: &mut Vec<u8>, alloc: Global, decls: &[Decl]) -> Result<(), NoMemory>
    ensures { OnOk result (text.new.items ≡ text.old.items ++ flat_map line_text (map decl_words decls.now)) }
{
    for decl in decls {
        push_decl(text, alloc, decl)?;
    }
    Ok(())
}

/// Adds a sign and a number.
fn push_place(text: &mut Vec<u8>, sign: u8, place: u32) -> Result<(), NoMemory>
    ensures { OnOk result (text.new.items ≡ text.old.items ++ spaced (sign ∷ decimal place)) }
{
    let mut digits = Buffer::new();
    text.push(sign)?;
    push_word(text, digits.format(place).as_bytes())
}

/// Adds a part of a template.
fn push_part(text: &mut Vec<u8>, part: &Part) -> Result<(), NoMemory>
    ensures { OnOk result (text.new.items ≡ text.old.items ++ spaced (part_text part.now)) }
{
    match part {
        Part::Text(bytes) => {
            push_escaped(text, b'"', bytes.as_slice())?;
            text.push(b' ')?;
            Ok(())
        }
        Part::Fold(place) => push_place(text, b'$', *place),
        Part::Number(place) => push_place(text, b'#', *place),
    }
}

/// Adds the parts of a template.
fn push_parts(text: &mut Vec<u8>, parts: &[Part]) -> Result<(), NoMemory>
    ensures { OnOk result (text.new.items ≡ text.old.items ++ flat_map spaced (map part_text parts.now)) }
{
    for part in parts {
        push_part(text, part)?;
    }
    Ok(())
}

/// Adds a mark.
fn push_mark(text: &mut Vec<u8>, place: u32) -> Result<(), NoMemory>
    ensures { OnOk result (text.new.items ≡ text.old.items ++ flat_map spaced (mark_words place)) }
{
    let mut digits = Buffer::new();
    push_word(text, b"%declares")?;
    push_word(text, digits.format(place).as_bytes())
}

/// Adds the marks of a rule.
fn push_marks(text: &mut Vec<u8>, places: &[u32]) -> Result<(), NoMemory>
    ensures { OnOk result (text.new.items ≡ text.old.items ++ flat_map spaced (flat_map mark_words places.now)) }
{
    for place in places {
        push_mark(text, *place)?;
    }
    Ok(())
}

/// Adds the rest of a rule's line.
pub fn push_tail(text: &mut Vec<u8>, template: &[Part], declares: &[u32]) -> Result<(), NoMemory>
    ensures { OnOk result (text.new.items ≡ text.old.items ++ tail_text template.now declares.now) }
{
    push_parts(text, template)?;
    push_word(text, b"}")?;
    push_marks(text, declares)?;
    push_last(text, b";")
}

/// The normal layout of a sheet: its declarations, its start, and each rule with its template and its marks on a line of
/// its own, with one space between the words. Where it has at most 262,144 bytes, it reads as this sheet.
pub fn print_sheet(alloc: Global, sheet: &Sheet) -> Result<Vec<u8>, NoMemory>
    ensures { IfOk result (λ text. text.items ≡ layout sheet.now) }
{
    let tokens = sheet.token_texts()?;
    let printer = Printer::new(sheet, &tokens);
    let mut text = Vec::new(alloc);
    push_decls(&mut text, alloc, sheet.decls())?;
    printer.push_start(&mut text)?;
    push_last(&mut text, b"%%")?;
    printer.push_rules(&mut text)?;
    Ok(text)
}
