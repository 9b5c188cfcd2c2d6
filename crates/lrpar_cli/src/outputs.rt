ghost use Rattle.std.specs.Prelude.{◌≡◌, ◌≤◌, length, IfOk};
ghost use Rattle.lr_base.specs.Outside.{IsSameSink};
ghost use Rattle.lr_base.specs.declared.limits.TheConstants.{TEXT_BYTES};
ghost use Rattle.scanning_theory.specs.Lines.{line_starts};
ghost use Rattle.scanning_theory.specs.Scan.{AreTokens};
ghost use Rattle.sheet_theory.specs.ScanOrder.{scanning_of};
ghost use Rattle.outline_theory.specs.Layout.{layout};
ghost use Rattle.grammar_checks.specs.Building.{IsBuilt};
ghost use Rattle.writing_theory.specs.Writing.{IsWritten};
ghost use Rattle.answer_theory.specs.Work.{IsListOf, IsTablesText};
ghost use Rattle.lrpar_cli.specs.Inputs.{IsReady};

use crate::inputs::{Parsing, Scanned};
use block_writer::WriteFault;
use grammar_data::Token;
use line_lexer::{Lines, lex_lines};
use lr_base::{NoMemory, Sink, write_all};
use program_texts::{write_list, write_tables};
use sheet_reader::{Sheet, print_sheet};
use std::alloc::Global;

/// The lines of a text and its tokens by a sheet.
#[derive(Drop)]
pub struct Lexed {
    pub lines: Lines,
    pub tokens: Vec<Token>,
}

/// Finds a text's tokens.
pub fn lex_text(alloc: Global, scanned: &Scanned, text: &[u8]) -> Result<Lexed, NoMemory>
    requires short { length text.now ≤ TEXT_BYTES }
    requires ready { IsReady scanned.now }
    ensures lines { IfOk result (λ lexed. lexed.lines ≡ line_starts text.now) }
    ensures tokens { IfOk result (λ lexed. AreTokens (scanning_of scanned.now.sheet) text.now lexed.tokens.items) }
{
    let Scanned { scanner, means, .. } = scanned;
    let lines = Lines::of(alloc, text)?;
    let count = lines.count();
    let tokens = lex_lines(alloc, scanner, means, text, &lines, 0, count)?;
    Ok(Lexed { lines, tokens })
}

/// Writes the token list of a text.
pub fn write_tokens<O: Sink>(
    alloc: Global,
    scanned: &Scanned,
    text: &[u8],
    out: &mut O,
) -> Result<(), WriteFault>
    requires short { length text.now ≤ TEXT_BYTES }
    requires ready { IsReady scanned.now }
    ensures written { IsWritten (IsListOf scanned.now.sheet text.now) (O.seen out.old) (O.seen out.new) result }
    ensures same { IsSameSink (O.seen out.old) (O.seen out.new) }
{
    let lexed = lex_text(alloc, scanned, text)?;
    let names = scanned.sheet.token_texts()?;
    write_list(alloc, &names, &lexed.lines, &lexed.tokens, out)
}

/// Writes a sheet's normal layout.
pub fn write_layout<O: Sink>(alloc: Global, sheet: &Sheet, out: &mut O) -> Result<(), WriteFault>
    ensures written { IsWritten (λ text. text ≡ layout sheet.now) (O.seen out.old) (O.seen out.new) result }
    ensures same { IsSameSink (O.seen out.old) (O.seen out.new) }
{
    let text = print_sheet(alloc, sheet)?;
    write_all(out, &text)?;
    Ok(())
}

/// Writes a text as it is.
pub fn write_text<O: Sink>(text: &[u8], out: &mut O) -> Result<(), WriteFault>
    ensures written { IsWritten (λ given. given ≡ text.now) (O.seen out.old) (O.seen out.new) result }
    ensures same { IsSameSink (O.seen out.old) (O.seen out.new) }
{
    write_all(out, text)?;
    Ok(())
}

/// Writes the states of a sheet's grammar, with their items and what they do.
pub fn write_states<O: Sink>(
    alloc: Global,
    parsing: &Parsing,
    out: &mut O,
) -> Result<(), WriteFault>
    requires { IsBuilt parsing.now.scanned.sheet.grammar parsing.now.built }
    ensures written { IsWritten (IsTablesText parsing.now.scanned.sheet) (O.seen out.old) (O.seen out.new) result }
    ensures same { IsSameSink (O.seen out.old) (O.seen out.new) }
{
    let Parsing { scanned, built } = parsing;
    write_tables(alloc, &scanned.sheet, &built.collection, &built.tables, out)
}
