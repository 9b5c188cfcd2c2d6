//! Sample texts, and what is said where there is none.
ghost use Rattle.std.specs.Prelude.{◌≡◌, ◌≤◌, ◌++◌, [], length, slice_get, unwrap_or, IfErr, IfOk, OnOk};
ghost use Rattle.grammar_theory.specs.UsefulNames.{AllProductive};
ghost use Rattle.lr_base.specs.declared.limits.TheConstants.{TEXT_BYTES};
ghost use Rattle.sample_theory.specs.Samples.{Text};
ghost use Rattle.answer_theory.specs.declared.task.Seed.{Seed};
ghost use Rattle.answer_theory.specs.SampleTexts.{IsSampleOf, no_sample_text as text_of_none};
ghost use Rattle.grammar_checks.specs.Building.{IsBuilt};
ghost use Rattle.lrpar_cli.specs.Inputs.{IsReady};
ghost use Rattle.lrpar_cli.specs.Samples.{IsSampleFault, IsSampleStop};
ghost use Rattle.lrpar_cli.specs.Stops.{IsDueStop};

use crate::inputs::{Parsing, Scanned};
use crate::stop::{Stop, due, long_text};
use answer_theory::{Seed, Status};
use lr_base::{NoMemory, TokenId};
use sample_text::{SampleFault, generate};
use sheet_data::Bytes;
use sheet_reader::Sheet;
use std::alloc::Global;

/// Adds the printed name of the token of this number, if it has one.
fn push_name(text: &mut Vec<u8>, names: &[Bytes], token: TokenId) -> Result<(), NoMemory>
    ensures { OnOk result (text.new.items ≡ text.old.items ++ unwrap_or (slice_get names.now token) []) }
{
    match names.get(token.0 as usize) {
        Some(name) => text.extend_from_slice(name.as_slice())?,
        None => {}
    }
    Ok(())
}

/// What is said of a token that has no word.
fn no_sample_text(alloc: Global, sheet: &Sheet, token: TokenId) -> Result<Vec<u8>, NoMemory>
    ensures { IfOk result (λ text. text.items ≡ text_of_none sheet.now token) }
{
    let names = sheet.token_texts()?;
    let mut text = Vec::from_slice(alloc, b"no sample for ".as_slice())?;
    push_name(&mut text, &names, token)?;
    text.extend_from_slice(b"\n")?;
    Ok(text)
}

/// The stop at a token that has no word.
fn no_sample(alloc: Global, sheet: &Sheet, token: TokenId) -> Stop
    ensures { IsDueStop Status.NoSample (text_of_none sheet.now token) result }
{
    due(Status::NoSample, no_sample_text(alloc, sheet, token))
}

/// The sample text of a sheet, or why it has none.
fn sample_by(alloc: Global, scanned: &Scanned, seed: Seed) -> Result<Vec<u8>, SampleFault>
    requires ready { IsReady scanned.now }
    requires productive { AllProductive scanned.now.sheet.grammar }
    ensures text { IfOk result (λ text. IsSampleOf scanned.now.sheet seed (Text text.items)) }
    ensures fault { IfErr result (IsSampleFault scanned.now.sheet seed) }
{
    let from = u64::from(seed.from);
    let grammar = scanned.sheet.grammar();
    generate(
        alloc,
        grammar,
        &scanned.scanner,
        &scanned.means,
        from,
        seed.size,
    )
}

/// The stop where there is no sample text.
fn stop_of(alloc: Global, sheet: &Sheet, fault: SampleFault) -> Stop
    ensures { (seed : Seed) → IsSampleFault sheet.now seed fault → IsSampleStop sheet.now seed result }
{
    match fault {
        SampleFault::NoSample(token) => no_sample(alloc, sheet, token),
        SampleFault::TooLong => long_text(alloc),
        SampleFault::NoMemory => Stop::Spent,
    }
}

/// The sample text of a sheet, or what is said where it has none.
pub fn make_sample(alloc: Global, parsing: &Parsing, seed: Seed) -> Result<Vec<u8>, Stop>
    requires ready { IsReady parsing.now.scanned }
    requires built { IsBuilt parsing.now.scanned.sheet.grammar parsing.now.built }
    ensures text { IfOk result (λ text. IsSampleOf parsing.now.scanned.sheet seed (Text text.items)) }
    ensures short { IfOk result (λ text. length text.items ≤ TEXT_BYTES) }
    ensures stopped { IfErr result (λ stop. IsSampleStop parsing.now.scanned.sheet seed stop) }
{
    let scanned = &parsing.scanned;
    match sample_by(alloc, scanned, seed) {
        Ok(text) => Ok(text),
        Err(fault) => Err(stop_of(alloc, &scanned.sheet, fault)),
    }
}
