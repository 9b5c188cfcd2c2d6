//! How a text is cut, by the values of options.
ghost use Rattle.std.specs.Prelude.{◌≡◌, ◌++◌, ◌∷◌, [], Some, None, option_map, IfErr, IfOk, MatchOption};
ghost use Rattle.tally_theory.specs.declared.cut.Cut.{Cut};
ghost use Rattle.word_theory.specs.Values.{IsCutBy, IsLinesWord, IsNumberWord, lines_in};
ghost use Rattle.std.specs.Str.Parse.{digits_value};

use crate::fault::WordFault;
use crate::values::number_of;
use cutting_theory::SEGMENTS;
use line_cuttings::Cutting;
use std::alloc::Global;
use tally_theory::{Begins, Cut};
use word_theory::USUAL_SEGMENTS;

/// So many segments as a word says.
fn even_cut(word: &str) -> Option<Cut>
    ensures { MatchOption result
        ((cut : Cut) → ¬ (IsCutBy (Some word.now) None cut))
        (λ cut. IsCutBy (Some word.now) None cut) }
{
    let segments = number_of(word)?;
    if segments == 0 || segments as usize > SEGMENTS {
        return None;
    }
    Some(Cut::Even(segments))
}

/// Puts the number that a word of one to nine digits is behind some numbers.
fn push_line(lines: &mut Vec<u32>, word: &str) -> Result<(), WordFault>
    ensures line { IfOk result (λ _. IsNumberWord word.now × (lines.new.items ≡ lines.old.items ++ digits_value 10 word.now ∷ [])) }
    ensures fault { IfErr result (λ fault. fault ≡ WordFault.BadWords → ¬ (IsNumberWord word.now)) }
{
    let line = number_of(word).ok_or(WordFault::BadWords)?;
    match lines.push(line) {
        Ok(()) => Ok(()),
        Err(_) => Err(WordFault::NoMemory),
    }
}

/// The numbers of a word that has commas between them.
fn listed_lines(alloc: Global, word: &str) -> Result<Vec<u32>, WordFault>
    ensures lines { IfOk result (λ lines. IsLinesWord word.now × (lines.items ≡ lines_in word.now)) }
    ensures fault { IfErr result (λ fault. fault ≡ WordFault.BadWords → ¬ (IsLinesWord word.now)) }
{
    let mut lines = Vec::new(alloc);
    let mut rest = word;
    while let Some((number, more)) = rest.split_once(',') {
        push_line(&mut lines, number)?;
        rest = more;
    }
    push_line(&mut lines, rest)?;
    Ok(lines)
}

/// A segment at the first line, and one at each that a word lists.
fn listed_cut(alloc: Global, word: &str) -> Result<Cut, WordFault>
    ensures cut { IfOk result (λ cut. IsCutBy None (Some word.now) cut) }
    ensures fault { IfErr result (λ fault. fault ≡ WordFault.BadWords → (cut : Cut) → ¬ (IsCutBy None (Some word.now) cut)) }
{
    let lines = listed_lines(alloc, word)?;
    if !Cutting::can_be_at(&lines) {
        return Err(WordFault::BadWords);
    }
    Ok(Cut::At(Begins::from_vec(lines)))
}

/// How a text is cut, by the values of its two options. `BadWords` comes where they say nothing, as where both are told.
pub fn cut_by(alloc: Global, count: Option<&str>, lines: Option<&str>) -> Result<Cut, WordFault>
    ensures cut { IfOk result (λ cut. IsCutBy (option_map (λ s. s.now) count.entry) (option_map (λ s. s.now) lines.entry) cut) }
    ensures fault { IfErr result (λ fault. fault ≡ WordFault.BadWords
        → (cut : Cut) → ¬ (IsCutBy (option_map (λ s. s.now) count.entry) (option_map (λ s. s.now) lines.entry) cut)) }
{
    match (count, lines) {
        (None, None) => Ok(Cut::Even(USUAL_SEGMENTS)),
        (Some(count), None) => even_cut(count).ok_or(WordFault::BadWords),
        (None, Some(lines)) => listed_cut(alloc, lines),
        (Some(_), Some(_)) => Err(WordFault::BadWords),
    }
}
