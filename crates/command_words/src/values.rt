//! What the values of options say.
ghost use Rattle.std.specs.Prelude.{◌≡◌, ℕ, Some, option_map, MatchOption};
ghost use Rattle.std.specs.Char.{is_ascii_digit};
ghost use Rattle.std.specs.List.{list_all};
ghost use Rattle.std.specs.Str.Parse.{digits_value};
ghost use Rattle.tally_theory.specs.declared.asked.Asked.{Asked};
ghost use Rattle.tally_theory.specs.declared.cut.Cut.{Cut};
ghost use Rattle.answer_theory.specs.declared.task.Seed.{Seed};
ghost use Rattle.word_theory.specs.Values.{IsAskedBy, IsNumberBy, IsNumberWord, IsSeedBy, IsWorkersBy};
ghost use Rattle.command_words.specs.Commands.{asked_of};

use crate::options::Want;
use answer_theory::Seed;
use run_theory::Emit;
use word_theory::{NUMBER_DIGITS, SAMPLE_SIZE, USUAL_WORKERS, WORKERS_LIMIT};

/// What is wanted of a text, by the value of an option.
pub fn want_by(value: Option<&str>) -> Option<Want>
    ensures { MatchOption result
        ((cut : Cut) (asked : Asked) → ¬ (IsAskedBy (option_map (λ s. s.now) value.entry) cut asked))
        (λ want. (cut : Cut) → IsAskedBy (option_map (λ s. s.now) value.entry) cut (asked_of want cut)) }
{
    match value {
        None => Some(Want::Text(Emit::Output)),
        Some("output") => Some(Want::Text(Emit::Output)),
        Some("names") => Some(Want::Text(Emit::Names)),
        Some("report") => Some(Want::Report),
        Some(_) => None,
    }
}

fn are_digits(bytes: &[u8]) -> bool
    ensures { result ≡ list_all is_ascii_digit bytes.now }
{
    bytes.iter().all(|byte| byte.is_ascii_digit())
}

/// The number that a word of one to nine digits is.
pub fn number_of(word: &str) -> Option<u32>
    ensures { MatchOption result (¬ (IsNumberWord word.now)) (λ n. IsNumberWord word.now × (n ≡ digits_value 10 word.now)) }
{
    if word.is_empty() || word.len() > NUMBER_DIGITS {
        return None;
    }
    if !are_digits(word.as_bytes()) {
        return None;
    }
    word.parse::<u32>().ok()
}

/// The number that the value of an option is.
fn number_by(value: Option<&str>) -> Option<u32>
    ensures { MatchOption result
        ((n : ℕ) → ¬ (IsNumberBy (option_map (λ s. s.now) value.entry) n))
        (λ n. IsNumberBy (option_map (λ s. s.now) value.entry) n) }
{
    number_of(value?)
}

/// So many workers as a word says.
fn told_workers(word: &str) -> Option<u32>
    ensures { MatchOption result
        ((workers : ℕ) → ¬ (IsWorkersBy (Some word.now) workers))
        (λ workers. IsWorkersBy (Some word.now) workers) }
{
    let workers = number_of(word)?;
    if workers == 0 || workers > WORKERS_LIMIT {
        return None;
    }
    Some(workers)
}

/// How many workers parse a text, by the value of an option: from 1 to 64, and 4 where it isn't told.
pub fn workers_by(value: Option<&str>) -> Option<u32>
    ensures { MatchOption result
        ((workers : ℕ) → ¬ (IsWorkersBy (option_map (λ s. s.now) value.entry) workers))
        (λ workers. IsWorkersBy (option_map (λ s. s.now) value.entry) workers) }
{
    match value {
        None => Some(USUAL_WORKERS),
        Some(word) => told_workers(word),
    }
}

/// The seed of a sample text, by the values of its options.
pub fn seed_by(from: Option<&str>, size: Option<&str>) -> Option<Seed>
    ensures { MatchOption result
        ((seed : Seed) → ¬ (IsSeedBy (option_map (λ s. s.now) from.entry) (option_map (λ s. s.now) size.entry) seed))
        (λ seed. IsSeedBy (option_map (λ s. s.now) from.entry) (option_map (λ s. s.now) size.entry) seed) }
{
    let from = number_by(from)?;
    let size = number_by(size)?;
    if size == 0 || size > SAMPLE_SIZE {
        return None;
    }
    Some(Seed { from, size })
}
