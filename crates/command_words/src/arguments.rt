//! What each command takes, read by the crate `clap`.
ghost use Rattle.std.specs.Prelude.{◌≡◌, ◌≢◌, false, true, [], ◌∷◌, map, string_bytes, IfErr, IfOk};
ghost use Rattle.clap.specs.Words.{app_of, found_of, rule_of, rows_of, matches_of};
ghost use Rattle.word_theory.specs.Arguments.{IsTaken, app_of as app_for, at_id, cut_id, emit_id, option as option_rule, position as position_rule, sheet_id, taking, text_id, told_in, word_of, workers_id};
ghost use Rattle.command_words.specs.Commands.{told_of};

use crate::fault::WordFault;
use clap::error::ErrorKind;
use clap::{Arg, ArgMatches, Command};
use std::alloc::{AllocError, Global};
use word_theory::CommandName;

/// The values of a command's arguments, where they are told.
#[derive(Clone, Copy, Debug)]
pub struct Values<'a> {
    pub sheet: Option<&'a str>,
    pub text: Option<&'a str>,
    pub emit: Option<&'a str>,
    pub workers: Option<&'a str>,
    pub cut: Option<&'a str>,
    pub at: Option<&'a str>,
    pub from: Option<&'a str>,
    pub size: Option<&'a str>,
}

/// A position, which has to be told.
fn position<'a>(alloc: Global, id: &'a str) -> Arg<'a>
    ensures rule { rule_of result ≡ position_rule id.entry.now }
    ensures local { result.global ≡ false }
{
    Arg::new(alloc, id).required(true)
}

/// An option with one value, by its name.
fn option<'a>(alloc: Global, id: &'a str, required: bool) -> Arg<'a>
    ensures rule { rule_of result ≡ option_rule id.entry.now required }
    ensures local { result.global ≡ false }
{
    Arg::new(alloc, id).long(id).required(required)
}

/// A command over a sheet, without flags for help or a version.
fn over_sheet<'a>(alloc: Global, word: &'a str) -> Result<Command<'a>, AllocError>
    ensures { IfOk result (λ command. app_of command ≡ taking word.entry.now (position_rule sheet_id ∷ [])) }
{
    Command::new(alloc, word)
        .no_binary_name(true)
        .disable_help_flag(true)
        .arg(position(alloc, "SHEET"))
}

fn of_tokens<'a>(alloc: Global) -> Result<Command<'a>, AllocError>
    ensures { IfOk result (λ command. app_of command ≡ app_for CommandName.Tokens) }
{
    over_sheet(alloc, "tokens")?.arg(position(alloc, "TEXT"))
}

/// What `run` takes, but for how its text is parsed.
fn of_wanted_run<'a>(alloc: Global) -> Result<Command<'a>, AllocError>
    ensures { IfOk result (λ command. app_of command ≡ taking (word_of CommandName.Run)
        (position_rule sheet_id ∷ position_rule text_id ∷ option_rule emit_id false ∷ [])) }
{
    over_sheet(alloc, "run")?
        .arg(position(alloc, "TEXT"))?
        .arg(option(alloc, "emit", false))
}

fn of_run<'a>(alloc: Global) -> Result<Command<'a>, AllocError>
    ensures { IfOk result (λ command. app_of command ≡ app_for CommandName.Run) }
{
    of_wanted_run(alloc)?
        .arg(option(alloc, "workers", false))?
        .arg(option(alloc, "cut", false))?
        .arg(option(alloc, "at", false))
}

fn of_gen<'a>(alloc: Global) -> Result<Command<'a>, AllocError>
    ensures { IfOk result (λ command. app_of command ≡ app_for CommandName.Gen) }
{
    over_sheet(alloc, "gen")?
        .arg(option(alloc, "from", true))?
        .arg(option(alloc, "size", true))
}

/// What `load` takes of what `run` takes.
fn of_loaded_run<'a>(alloc: Global) -> Result<Command<'a>, AllocError>
    ensures { IfOk result (λ command. app_of command ≡ taking (word_of CommandName.Load)
        (position_rule sheet_id ∷ option_rule emit_id false ∷ option_rule workers_id false ∷ option_rule cut_id false ∷ option_rule at_id false ∷ [])) }
{
    over_sheet(alloc, "load")?
        .arg(option(alloc, "emit", false))?
        .arg(option(alloc, "workers", false))?
        .arg(option(alloc, "cut", false))?
        .arg(option(alloc, "at", false))
}

fn of_load<'a>(alloc: Global) -> Result<Command<'a>, AllocError>
    ensures { IfOk result (λ command. app_of command ≡ app_for CommandName.Load) }
{
    of_loaded_run(alloc)?
        .arg(option(alloc, "from", true))?
        .arg(option(alloc, "size", true))
}

/// What a command takes.
fn arguments_of<'a>(alloc: Global, name: CommandName) -> Result<Command<'a>, AllocError>
    ensures { IfOk result (λ command. app_of command ≡ app_for name) }
{
    match name {
        CommandName::Tokens => of_tokens(alloc),
        CommandName::Check => over_sheet(alloc, "check"),
        CommandName::Tables => over_sheet(alloc, "tables"),
        CommandName::Run => of_run(alloc),
        CommandName::Gen => of_gen(alloc),
        CommandName::Load => of_load(alloc),
    }
}

/// What words are to a command that takes them.
fn matches<'a>(
    alloc: Global,
    name: CommandName,
    words: &'a [String],
) -> Result<ArgMatches<'a>, WordFault>
    ensures taken { IfOk result (λ _. IsTaken name (map string_bytes words.entry.now)) }
    ensures rows { IfOk result (λ matches. rows_of (found_of matches) ≡ matches_of (app_for name) (map string_bytes words.entry.now)) }
    ensures fault { IfErr result (λ fault. fault ≡ WordFault.BadWords → ¬ (IsTaken name (map string_bytes words.entry.now))) }
{
    let command = arguments_of(alloc, name)?;
    match command.try_get_matches_from(words) {
        Ok(matches) => Ok(matches),
        Err(error) => match error.kind() {
            ErrorKind::OutOfMemory => Err(WordFault::NoMemory),
            _ => Err(WordFault::BadWords),
        },
    }
}

/// The values that words tell of a command's arguments, where the command takes them.
pub fn values_told<'a>(
    alloc: Global,
    name: CommandName,
    words: &'a [String],
) -> Result<Values<'a>, WordFault>
    ensures taken { IfOk result (λ _. IsTaken name (map string_bytes words.entry.now)) }
    ensures values { IfOk result (λ values. told_of values ≡ told_in name (map string_bytes words.entry.now)) }
    ensures fault { IfErr result (λ fault. fault ≡ WordFault.BadWords → ¬ (IsTaken name (map string_bytes words.entry.now))) }
{
    let matches = matches(alloc, name, words)?;
    Ok(Values {
        sheet: matches.get_str("SHEET"),
        text: matches.get_str("TEXT"),
        emit: matches.get_str("emit"),
        workers: matches.get_str("workers"),
        cut: matches.get_str("cut"),
        at: matches.get_str("at"),
        from: matches.get_str("from"),
        size: matches.get_str("size"),
    })
}
