//! A text that is scanned and parsed in segments.
ghost use Rattle.std.specs.Prelude.{◌≡◌, ◌≤◌, length, IfOk};
ghost use Rattle.lr_base.specs.declared.limits.TheConstants.{TEXT_BYTES};
ghost use Rattle.scanning_theory.specs.Lines.{line_starts};
ghost use Rattle.run_theory.specs.SheetTokens.{CountsTokens};
ghost use Rattle.tally_theory.specs.Cuts.{CanBeCut, HasBounds};
ghost use Rattle.grammar_checks.specs.Building.{IsBuilt};
ghost use Rattle.command_words.specs.Commands.{CanParse};
ghost use Rattle.lrpar_cli.specs.Inputs.{IsReady};
ghost use Rattle.lrpar_cli.specs.Segments.{IsTextRun};

use crate::inputs::{Parsing, Scanned};
use command_words::RunOptions;
use line_cuttings::Cutting;
use line_lexer::Lines;
use lr_base::NoMemory;
use plain_parse::Parsed;
use segment_counts::Job;
use segment_runs::{SegmentRun, parse_lines};
use std::alloc::Global;
use std::thread::Threads;
use tally_theory::Cut;

/// How many segments a text has, how many tokens they have together, and how many pieces before any join.
#[derive(Clone, Copy, Debug)]
pub struct Counts {
    pub segments: u64,
    pub tokens: u64,
    pub pieces: u64,
}

/// What the parse of a text in segments came to, and its counts.
#[derive(Debug, Drop)]
pub struct TextRun {
    pub parsed: Parsed,
    pub counts: Counts,
}

/// The lines of a text, cut as it is asked for.
fn cut_lines(alloc: Global, lines: &Lines, cut: &Cut) -> Result<Cutting, NoMemory>
    requires { CanBeCut cut.now }
    ensures { IfOk result (λ cutting. HasBounds cut.now (length lines.now) cutting) }
{
    match cut {
        Cut::Even(segments) => Cutting::even(alloc, lines, *segments),
        Cut::At(begins) => Cutting::at(alloc, lines, begins.as_slice()),
    }
}

/// Scans and parses a text, whose lines these are, in segments.
pub fn run_text<R: Threads + Sync>(
    rt: &R,
    alloc: Global,
    options: &RunOptions,
    parsing: &Parsing,
    text: &[u8],
    lines: &Lines,
) -> Result<TextRun, NoMemory>
    requires can { CanParse options.now }
    requires short { length text.now ≤ TEXT_BYTES }
    requires ready { IsReady parsing.now.scanned }
    requires built { IsBuilt parsing.now.scanned.sheet.grammar parsing.now.built }
    requires counts { CountsTokens parsing.now.scanned.sheet }
    requires lines { lines.now ≡ line_starts text.now }
    ensures { IfOk result (IsTextRun parsing.now.scanned.sheet text.now options.now.cut parsing.now.built.tables) }
{
    let Scanned { scanner, means, .. } = &parsing.scanned;
    let cutting = cut_lines(alloc, lines, &options.cut)?;
    let job = Job {
        tables: &parsing.built.tables,
        scanner,
        means,
        text,
        lines,
        cutting: &cutting,
    };
    let SegmentRun {
        parsed,
        tokens,
        pieces,
    } = parse_lines(rt, alloc, &job, options.workers)?;
    let counts = Counts {
        segments: u64::from(cutting.segments()),
        tokens,
        pieces,
    };
    Ok(TextRun { parsed, counts })
}
