ghost use Rattle.std.specs.Prelude.{◌≡◌, ◌≢◌, map, string_bytes, IfErr, IfOk, MatchOption};
ghost use Rattle.word_theory.specs.declared.command_name.CommandName.{CommandName};
ghost use Rattle.word_theory.specs.Arguments.{word_of};
ghost use Rattle.word_theory.specs.Words.{HasForm, IsBadWords};
ghost use Rattle.command_words.specs.Commands.{CanBeRun, SayParse, names_of, task_of};

use crate::arguments::values_told;
use crate::asking::asked;
use crate::command::Command;
use crate::fault::WordFault;
use std::alloc::Global;
use word_theory::CommandName;

/// The command of a word, if it is one.
fn name_of(word: &str) -> Option<CommandName>
    ensures { MatchOption result ((name : CommandName) → word.now ≢ word_of name) (λ name. word.now ≡ word_of name) }
{
    match word {
        "tokens" => Some(CommandName::Tokens),
        "check" => Some(CommandName::Check),
        "tables" => Some(CommandName::Tables),
        "run" => Some(CommandName::Run),
        "gen" => Some(CommandName::Gen),
        "load" => Some(CommandName::Load),
        _ => None,
    }
}

/// What the words ask for; where a text is parsed, with the cutting and the workers that they say, or the usual ones.
/// `BadWords` comes exactly where they are of no form, unless memory runs out.
pub fn command_of(alloc: Global, words: &[String]) -> Result<Command<'_>, WordFault>
    ensures form { IfOk result (λ command. HasForm (map string_bytes words.entry.now) (task_of command) (names_of command)) }
    ensures parse { IfOk result (SayParse (map string_bytes words.entry.now)) }
    ensures can { IfOk result CanBeRun }
    ensures fault { IfErr result (λ fault. fault ≡ WordFault.BadWords → IsBadWords (map string_bytes words.entry.now)) }
{
    let (word, rest) = words.split_first().ok_or(WordFault::BadWords)?;
    let name = name_of(word).ok_or(WordFault::BadWords)?;
    let values = values_told(alloc, name, rest)?;
    asked(alloc, name, values)
}
