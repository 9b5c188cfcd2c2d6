ghost use Rattle.std.specs.Prelude.{◌≡◌, [], ◌∷◌};
ghost use Rattle.lr_base.specs.Outside.{IsSameShelf, IsSameSink};
ghost use Rattle.answer_theory.specs.declared.task.Task.TheVariants.{Run, Gen, Load};
ghost use Rattle.command_words.specs.Commands.{CanParse, CanBeRun, asked_of, names_of, task_of};
ghost use Rattle.lrpar_cli.specs.Endings.{ComesOut};
ghost use Rattle.lrpar_cli.specs.Stops.{StopsEarly, said_of, status_of};

use crate::inputs::{read_parsing, read_scanned, read_text};
use crate::outputs::{write_layout, write_states, write_text, write_tokens};
use crate::reporting::write_asked;
use crate::samples::make_sample;
use crate::stop::Stop;
use crate::translating::parse_text;
use answer_theory::{Seed, Task};
use command_words::{Command, RunOptions};
use lr_base::{Shelf, Sink};
use std::alloc::Global;
use std::thread::Threads;

/// `tokens SHEET TEXT`: reads the sheet and then the text, and writes the text's token list.
fn list_tokens<S: Shelf, O: Sink>(
    alloc: Global,
    sheet: &str,
    text: &str,
    shelf: &mut S,
    out: &mut O,
) -> Result<(), Stop>
    ensures comes { ComesOut Task.Tokens (sheet.now ∷ text.now ∷ []) (S.seen shelf.old) (S.seen shelf.new) (O.seen out.old) (O.seen out.new) (said_of result) (status_of result) }
    ensures stays { IsSameShelf (S.seen shelf.old) (S.seen shelf.new) × IsSameSink (O.seen out.old) (O.seen out.new) }
    ensures early { StopsEarly result → out.new ≡ out.old }
{
    let scanned = read_scanned(alloc, shelf, sheet)?;
    let text = read_text(alloc, shelf, text)?;
    write_tokens(alloc, &scanned, &text, out)?;
    Ok(())
}

/// `check SHEET`: reads the sheet, which has to have tables, and writes its normal layout.
fn check_sheet<S: Shelf, O: Sink>(
    alloc: Global,
    sheet: &str,
    shelf: &mut S,
    out: &mut O,
) -> Result<(), Stop>
    ensures comes { ComesOut Task.Check (sheet.now ∷ []) (S.seen shelf.old) (S.seen shelf.new) (O.seen out.old) (O.seen out.new) (said_of result) (status_of result) }
    ensures stays { IsSameShelf (S.seen shelf.old) (S.seen shelf.new) × IsSameSink (O.seen out.old) (O.seen out.new) }
    ensures early { StopsEarly result → out.new ≡ out.old }
{
    let parsing = read_parsing(alloc, shelf, sheet)?;
    write_layout(alloc, &parsing.scanned.sheet, out)?;
    Ok(())
}

/// `tables SHEET`: reads the sheet, builds its tables, and writes what its states do.
fn print_tables<S: Shelf, O: Sink>(
    alloc: Global,
    sheet: &str,
    shelf: &mut S,
    out: &mut O,
) -> Result<(), Stop>
    ensures comes { ComesOut Task.Tables (sheet.now ∷ []) (S.seen shelf.old) (S.seen shelf.new) (O.seen out.old) (O.seen out.new) (said_of result) (status_of result) }
    ensures stays { IsSameShelf (S.seen shelf.old) (S.seen shelf.new) × IsSameSink (O.seen out.old) (O.seen out.new) }
    ensures early { StopsEarly result → out.new ≡ out.old }
{
    let parsing = read_parsing(alloc, shelf, sheet)?;
    write_states(alloc, &parsing, out)?;
    Ok(())
}

/// `run SHEET TEXT`: reads the sheet and then the text, parses the text in segments, and writes what is asked of it.
fn translate_text<R: Threads + Sync, S: Shelf, O: Sink>(
    rt: &R,
    alloc: Global,
    options: &RunOptions,
    sheet: &str,
    text: &str,
    shelf: &mut S,
    out: &mut O,
) -> Result<(), Stop>
    requires { CanParse options.now }
    ensures comes { ComesOut (Run (asked_of options.now.want options.now.cut)) (sheet.now ∷ text.now ∷ []) (S.seen shelf.old) (S.seen shelf.new) (O.seen out.old) (O.seen out.new) (said_of result) (status_of result) }
    ensures stays { IsSameShelf (S.seen shelf.old) (S.seen shelf.new) × IsSameSink (O.seen out.old) (O.seen out.new) }
    ensures early { StopsEarly result → out.new ≡ out.old }
{
    let parsing = read_parsing(alloc, shelf, sheet)?;
    let text = read_text(alloc, shelf, text)?;
    let tree = parse_text(rt, alloc, options, &parsing, &text)?;
    write_asked(alloc, options, &parsing, &text, &tree, out)?;
    Ok(())
}

/// `gen SHEET`: reads the sheet and writes its sample text.
fn give_sample<S: Shelf, O: Sink>(
    alloc: Global,
    seed: Seed,
    sheet: &str,
    shelf: &mut S,
    out: &mut O,
) -> Result<(), Stop>
    ensures comes { ComesOut (Gen seed) (sheet.now ∷ []) (S.seen shelf.old) (S.seen shelf.new) (O.seen out.old) (O.seen out.new) (said_of result) (status_of result) }
    ensures stays { IsSameShelf (S.seen shelf.old) (S.seen shelf.new) × IsSameSink (O.seen out.old) (O.seen out.new) }
    ensures early { StopsEarly result → out.new ≡ out.old }
{
    let parsing = read_parsing(alloc, shelf, sheet)?;
    let text = make_sample(alloc, &parsing, seed)?;
    write_text(&text, out)?;
    Ok(())
}

/// `load SHEET`: reads the sheet, parses its sample text in segments, and writes what is asked of it.
fn translate_sample<R: Threads + Sync, S: Shelf, O: Sink>(
    rt: &R,
    alloc: Global,
    seed: Seed,
    options: &RunOptions,
    sheet: &str,
    shelf: &mut S,
    out: &mut O,
) -> Result<(), Stop>
    requires { CanParse options.now }
    ensures comes { ComesOut (Load seed (asked_of options.now.want options.now.cut)) (sheet.now ∷ []) (S.seen shelf.old) (S.seen shelf.new) (O.seen out.old) (O.seen out.new) (said_of result) (status_of result) }
    ensures stays { IsSameShelf (S.seen shelf.old) (S.seen shelf.new) × IsSameSink (O.seen out.old) (O.seen out.new) }
    ensures early { StopsEarly result → out.new ≡ out.old }
{
    let parsing = read_parsing(alloc, shelf, sheet)?;
    let text = make_sample(alloc, &parsing, seed)?;
    let tree = parse_text(rt, alloc, options, &parsing, &text)?;
    write_asked(alloc, options, &parsing, &text, &tree, out)?;
    Ok(())
}

/// Does what a command asks for.
pub fn run<R: Threads + Sync, S: Shelf, O: Sink>(
    rt: &R,
    alloc: Global,
    command: Command<'_>,
    shelf: &mut S,
    out: &mut O,
) -> Result<(), Stop>
    requires { CanBeRun command }
    ensures comes { ComesOut (task_of command.entry) (names_of command.entry) (S.seen shelf.old) (S.seen shelf.new) (O.seen out.old) (O.seen out.new) (said_of result) (status_of result) }
    ensures stays { IsSameShelf (S.seen shelf.old) (S.seen shelf.new) × IsSameSink (O.seen out.old) (O.seen out.new) }
    ensures early { StopsEarly result → out.new ≡ out.old }
{
    match command {
        Command::Tokens { sheet, text } => list_tokens(alloc, sheet, text, shelf, out),
        Command::Check { sheet } => check_sheet(alloc, sheet, shelf, out),
        Command::Tables { sheet } => print_tables(alloc, sheet, shelf, out),
        Command::Run {
            options,
            sheet,
            text,
        } => translate_text(rt, alloc, &options, sheet, text, shelf, out),
        Command::Gen { seed, sheet } => give_sample(alloc, seed, sheet, shelf, out),
        Command::Load {
            seed,
            options,
            sheet,
        } => translate_sample(rt, alloc, seed, &options, sheet, shelf, out),
    }
}
