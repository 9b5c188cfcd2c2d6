//! What the values of a command's arguments ask for.
ghost use Rattle.std.specs.Prelude.{◌≡◌, ℕ, List, IfErr, IfOk};
ghost use Rattle.tally_theory.specs.declared.asked.Asked.{Asked};
ghost use Rattle.answer_theory.specs.declared.task.Task.{Task};
ghost use Rattle.word_theory.specs.Words.{AsksFor, IsParsedBy, IsRunBy};
ghost use Rattle.command_words.specs.Commands.{IsParsedAs, asked_of, names_of, task_of, told_of};

use crate::arguments::Values;
use crate::command::Command;
use crate::cutting::cut_by;
use crate::fault::WordFault;
use crate::options::RunOptions;
use crate::values::{seed_by, want_by, workers_by};
use std::alloc::Global;
use word_theory::CommandName;

/// What is wanted of a text and how it is parsed, by the values of a run's options.
fn options_by(alloc: Global, values: Values<'_>) -> Result<RunOptions, WordFault>
    ensures asked { IfOk result (λ options. IsRunBy (told_of values.entry) (asked_of options.want options.cut)) }
    ensures parsed { IfOk result (λ options. IsParsedBy (told_of values.entry) options.cut options.workers) }
    ensures fault { IfErr result (λ fault. fault ≡ WordFault.BadWords → (asked : Asked) → ¬ (IsRunBy (told_of values.entry) asked)) }
{
    let want = want_by(values.emit).ok_or(WordFault::BadWords)?;
    let workers = workers_by(values.workers).ok_or(WordFault::BadWords)?;
    let cut = cut_by(alloc, values.cut, values.at)?;
    Ok(RunOptions { want, cut, workers })
}

/// What is asked for by a command's word and the values of its arguments. `BadWords` comes where nothing is.
pub fn asked<'a>(
    alloc: Global,
    name: CommandName,
    values: Values<'a>,
) -> Result<Command<'a>, WordFault>
    ensures asked { IfOk result (λ command. AsksFor (told_of values.entry) name (task_of command) (names_of command)) }
    ensures parsed { IfOk result (IsParsedAs (told_of values.entry)) }
    ensures fault { IfErr result (λ fault. fault ≡ WordFault.BadWords → (task : Task) (names : List (List ℕ)) → ¬ (AsksFor (told_of values.entry) name task names)) }
{
    let sheet = values.sheet.ok_or(WordFault::BadWords)?;
    match name {
        CommandName::Tokens => {
            let text = values.text.ok_or(WordFault::BadWords)?;
            Ok(Command::Tokens { sheet, text })
        }
        CommandName::Check => Ok(Command::Check { sheet }),
        CommandName::Tables => Ok(Command::Tables { sheet }),
        CommandName::Run => {
            let text = values.text.ok_or(WordFault::BadWords)?;
            let options = options_by(alloc, values)?;
            Ok(Command::Run {
                options,
                sheet,
                text,
            })
        }
        CommandName::Gen => {
            let seed = seed_by(values.from, values.size).ok_or(WordFault::BadWords)?;
            Ok(Command::Gen { seed, sheet })
        }
        CommandName::Load => {
            let seed = seed_by(values.from, values.size).ok_or(WordFault::BadWords)?;
            let options = options_by(alloc, values)?;
            Ok(Command::Load {
                seed,
                options,
                sheet,
            })
        }
    }
}
