//! A text and its tree.
ghost use Rattle.std.specs.Prelude.{◌≡◌, ◌≤◌, length, IfErr, IfOk};
ghost use Rattle.lr_base.specs.Outside.{IsSameSink};
ghost use Rattle.lr_base.specs.declared.limits.TheConstants.{TEXT_BYTES};
ghost use Rattle.run_theory.specs.RunAnswers.{Given, IsRunAnswer};
ghost use Rattle.run_theory.specs.SheetTokens.{CountsTokens};
ghost use Rattle.grammar_checks.specs.Building.{IsBuilt};
ghost use Rattle.writing_theory.specs.Writing.{IsWritten};
ghost use Rattle.lrpar_cli.specs.Inputs.{IsReady};
ghost use Rattle.translation_theory.specs.Diagnostics.{unexpected_text as text_of_unexpected};
ghost use Rattle.command_words.specs.Commands.{CanParse};
ghost use Rattle.lrpar_cli.specs.Segments.{AreCountsOf};
ghost use Rattle.lrpar_cli.specs.Stops.{IsDueStop};
ghost use Rattle.lrpar_cli.specs.Translating.{HasTextTree, IsTextStop, id_in, line_in};

use crate::inputs::Parsing;
use crate::segments::{Counts, TextRun, run_text};
use crate::stop::{Stop, due};
use answer_theory::Status;
use block_writer::WriteFault;
use command_words::RunOptions;
use line_lexer::Lines;
use lr_base::{Sink, Token, TokenId};
use lr_machine::Tables;
use name_table::declared;
use node_data::NodeRef;
use node_store::Store;
use plain_parse::Parsed;
use program_texts::{unexpected_text, write_names};
use run_theory::Emit;
use sheet_reader::Sheet;
use std::alloc::Global;
use std::thread::Threads;
use templates::{emit as emit_translation, rule_law};

/// The tree of a text, and what was counted where it was parsed in segments.
#[derive(Drop)]
pub struct TextTree {
    pub root: NodeRef,
    pub store: Store,
    pub counts: Counts,
}

/// The line of a token, or of the end of the text.
fn line_of(lines: &Lines, token: &Option<Token>) -> u32
    ensures { result ≡ line_in lines.now token.now }
{
    match token {
        Some(token) => token.place.line,
        None => lines.end_line(),
    }
}

/// The number of a token, or of the end mark.
fn id_of(tables: &Tables, token: &Option<Token>) -> TokenId
    ensures { result ≡ id_in tables.now token.now }
{
    match token {
        Some(token) => token.id,
        None => tables.end(),
    }
}

/// The refusal of a text with this token on this line, where these could stand.
fn unexpected(alloc: Global, sheet: &Sheet, line: u32, token: TokenId, expected: &[TokenId]) -> Stop
    ensures { IsDueStop Status.TextRefused (text_of_unexpected sheet.now line token expected.now) result }
{
    due(
        Status::TextRefused,
        unexpected_text(alloc, sheet, line, token, expected),
    )
}

/// The tree of a text that is parsed in segments, or what is said of its first wrong token.
pub fn parse_text<R: Threads + Sync>(
    rt: &R,
    alloc: Global,
    options: &RunOptions,
    parsing: &Parsing,
    text: &[u8],
) -> Result<TextTree, Stop>
    requires can { CanParse options.now }
    requires short { length text.now ≤ TEXT_BYTES }
    requires ready { IsReady parsing.now.scanned }
    requires built { IsBuilt parsing.now.scanned.sheet.grammar parsing.now.built }
    requires counts { CountsTokens parsing.now.scanned.sheet }
    ensures tree { IfOk result (λ tree. HasTextTree parsing.now.scanned.sheet text.now tree) }
    ensures counts { IfOk result (λ tree. AreCountsOf parsing.now.scanned.sheet text.now options.now.cut tree.counts) }
    ensures stopped { IfErr result (λ stop. IsTextStop parsing.now.scanned.sheet text.now stop) }
{
    let lines = Lines::of(alloc, text)?;
    let TextRun { parsed, counts } = run_text(rt, alloc, options, parsing, text, &lines)?;
    match parsed {
        Parsed::Tree { root, store } => Ok(TextTree {
            root,
            store,
            counts,
        }),
        Parsed::Wrong { token, state, .. } => {
            let tables = &parsing.built.tables;
            let expected = tables.expected(alloc, state)?;
            let line = line_of(&lines, &token);
            let id = id_of(tables, &token);
            Err(unexpected(alloc, &parsing.scanned.sheet, line, id, &expected))
        }
    }
}

/// Writes what is asked for of the tree of a text.
pub fn write_tree<O: Sink>(
    alloc: Global,
    emit: Emit,
    parsing: &Parsing,
    text: &[u8],
    tree: &TextTree,
    out: &mut O,
) -> Result<(), WriteFault>
    requires short { length text.now ≤ TEXT_BYTES }
    requires tree { HasTextTree parsing.now.scanned.sheet text.now tree.now }
    ensures written { IsWritten (λ given. IsRunAnswer parsing.now.scanned.sheet text.now emit (Given given)) (O.seen out.old) (O.seen out.new) result }
    ensures same { IsSameSink (O.seen out.old) (O.seen out.new) }
{
    let TextTree { root, store, .. } = tree;
    let sheet = &parsing.scanned.sheet;
    let names = declared(alloc, sheet, store, *root, text)?;
    rule_law();
    match emit {
        Emit::Output => emit_translation(alloc, sheet, store, *root, text, &names, out),
        Emit::Names => write_names(alloc, &names, out),
    }
}
