//! The report of a text, and what is asked of a text.
ghost use Rattle.std.specs.Prelude.{◌≡◌, ◌++◌, ◌≤◌, length, IfOk, OnOk};
ghost use Rattle.lr_base.specs.Outside.{IsSameSink};
ghost use Rattle.lr_base.specs.declared.limits.TheConstants.{TEXT_BYTES};
ghost use Rattle.node_store.specs.Walking.{IsFinished};
ghost use Rattle.run_theory.specs.RunAnswers.{Given};
ghost use Rattle.tally_theory.specs.Asked.{IsAnswerTo};
ghost use Rattle.tally_theory.specs.Reports.{number_line, report_text as text_of_report};
ghost use Rattle.writing_theory.specs.Writing.{IsWritten};
ghost use Rattle.command_words.specs.Commands.{asked_of};
ghost use Rattle.lrpar_cli.specs.Reporting.{IsReportOf, tally_of};
ghost use Rattle.lrpar_cli.specs.Segments.{AreCountsOf};
ghost use Rattle.lrpar_cli.specs.Translating.{HasTextTree};

use crate::inputs::Parsing;
use crate::outputs::write_text;
use crate::segments::Counts;
use crate::translating::{TextTree, write_tree};
use block_writer::{WriteFault, push_number};
use command_words::{RunOptions, Want};
use lr_base::{NoMemory, Sink};
use segment_counts::node_count;
use std::alloc::Global;

/// Adds a line of a report: a word and a number.
fn push_line(text: &mut Vec<u8>, word: &[u8], number: u64) -> Result<(), NoMemory>
    ensures { OnOk result (text.new.items ≡ text.old.items ++ number_line word.now number) }
{
    text.extend_from_slice(word)?;
    text.push(b' ')?;
    push_number(text, number)?;
    text.push(b'\n')?;
    Ok(())
}

/// The five lines of a report.
fn report_text(alloc: Global, counts: &Counts, nodes: u64) -> Result<Vec<u8>, NoMemory>
    requires { 1 ≤ counts.now.segments }
    ensures { IfOk result (λ text. text.items ≡ text_of_report (tally_of counts.now nodes)) }
{
    let mut text = Vec::new(alloc);
    push_line(&mut text, b"segments", counts.segments)?;
    push_line(&mut text, b"joins", counts.segments - 1)?;
    push_line(&mut text, b"tokens", counts.tokens)?;
    push_line(&mut text, b"pieces", counts.pieces)?;
    push_line(&mut text, b"nodes", nodes)?;
    Ok(text)
}

/// Writes the report of a text with this tree.
fn write_report<O: Sink>(alloc: Global, tree: &TextTree, out: &mut O) -> Result<(), WriteFault>
    requires finished { IsFinished tree.now.store tree.now.root }
    requires some { 1 ≤ tree.now.counts.segments }
    ensures written { IsWritten (IsReportOf tree.now) (O.seen out.old) (O.seen out.new) result }
    ensures same { IsSameSink (O.seen out.old) (O.seen out.new) }
{
    let nodes = node_count(alloc, &tree.store, tree.root)?;
    let report = report_text(alloc, &tree.counts, nodes)?;
    write_text(&report, out)
}

/// Writes what is asked of a text with this tree.
pub fn write_asked<O: Sink>(
    alloc: Global,
    options: &RunOptions,
    parsing: &Parsing,
    text: &[u8],
    tree: &TextTree,
    out: &mut O,
) -> Result<(), WriteFault>
    requires short { length text.now ≤ TEXT_BYTES }
    requires tree { HasTextTree parsing.now.scanned.sheet text.now tree.now }
    requires counts { AreCountsOf parsing.now.scanned.sheet text.now options.now.cut tree.now.counts }
    ensures written { IsWritten (λ given. IsAnswerTo parsing.now.scanned.sheet text.now (asked_of options.now.want options.now.cut) (Given given)) (O.seen out.old) (O.seen out.new) result }
    ensures same { IsSameSink (O.seen out.old) (O.seen out.new) }
{
    match options.want {
        Want::Text(emit) => write_tree(alloc, emit, parsing, text, tree, out),
        Want::Report => write_report(alloc, tree, out),
    }
}
