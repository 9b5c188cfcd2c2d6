//! The words of tokens, each found once, and kept with a line feed behind it.
ghost use Rattle.std.specs.Prelude.{◌≡◌, ◌≢◌, ℕ, ◌<◌, ◌≤◌, ◌++◌, length, slice_get, Some, MatchOption, IfOk, IfErr};
ghost use Rattle.lr_base.specs.declared.limits.TheConstants.{TEXT_BYTES};
ghost use Rattle.pattern_data.specs.declared.pattern.Meaning.TheVariants.{Token as token_meaning};
ghost use Rattle.sample_theory.specs.Samples.{IsRankOf, IsWordFor};
ghost use Rattle.scanning_theory.specs.Scan.{Scanning};
ghost use Rattle.sample_text.specs.Wording.{AreKnown, IsLonger, IsScannedBy, IsThere, IsUnwritten, IsWithoutWord, IsWritten};

use crate::fault::SampleFault;
use grammar_data::TokenId;
use lr_base::TEXT_BYTES;
use pattern_data::Meaning;
use short_words::shortest_word;
use std::alloc::Global;
use token_patterns::{PATTERNS, Scanner};

/// The first rank that means a token.
fn rank_of(means: &[Meaning], token: TokenId) -> Option<u32>
    requires { length means.now ≤ PATTERNS }
    ensures { MatchOption result ((rank : ℕ) → slice_get means.now rank ≢ Some (token_meaning token)) (λ rank. IsRankOf means.now token rank) }
{
    for rank in 0..means.len() {
        if means[rank] == Meaning::Token(token) {
            return Some(rank as u32);
        }
    }
    None
}

/// The shortest word of a token.
fn find_word(
    alloc: Global,
    scanner: &Scanner,
    means: &[Meaning],
    token: TokenId,
) -> Result<Vec<u8>, SampleFault>
    requires { length means.now ≤ PATTERNS }
    ensures word { IfOk result (λ word. (scanning : Scanning) → IsScannedBy scanner.now means.now scanning → IsWordFor scanning token word.items) }
    ensures fault { IfErr result (IsWithoutWord scanner.now means.now token) }
{
    let rank = match rank_of(means, token) {
        Some(rank) => rank,
        None => return Err(SampleFault::NoSample(token)),
    };
    match shortest_word(alloc, scanner, rank)? {
        Some(word) => Ok(word),
        None => Err(SampleFault::NoSample(token)),
    }
}

/// Appends a line, unless the text passes its limit with it.
pub fn append(text: &mut Vec<u8>, line: &[u8]) -> Result<(), SampleFault>
    requires { length text.old.items ≤ TEXT_BYTES }
    ensures text { IfOk result (λ _. text.new.items ≡ text.old.items ++ line.now) }
    ensures fits { IfOk result (λ _. length text.new.items ≤ TEXT_BYTES) }
    ensures fault { IfErr result (IsLonger text.old.items line.now) }
{
    if line.len() > TEXT_BYTES - text.len() {
        return Err(SampleFault::TooLong);
    }
    text.extend_from_slice(line)?;
    Ok(())
}

/// Finds the shortest word of a token and puts a line feed behind it, unless it is known.
fn know_word(
    alloc: Global,
    scanner: &Scanner,
    means: &[Meaning],
    found: &mut Vec<Option<Vec<u8>>>,
    token: TokenId,
) -> Result<(), SampleFault>
    requires means { length means.now ≤ PATTERNS }
    requires token { token < length found.old.items }
    requires known { AreKnown scanner.now means.now found.old.items }
    ensures known { IfOk result (λ _. AreKnown scanner.now means.now found.new.items) }
    ensures size { IfOk result (λ _. length found.new.items ≡ length found.old.items) }
    ensures this { IfOk result (λ _. IsThere found.new.items token) }
    ensures fault { IfErr result (IsWithoutWord scanner.now means.now token) }
{
    let place = token.0 as usize;
    if found[place].is_some() {
        return Ok(());
    }
    let mut line = find_word(alloc, scanner, means, token)?;
    line.push(b'\n')?;
    found[place] = Some(line);
    Ok(())
}

/// Appends the shortest word of a token and a line feed.
pub fn write_word(
    alloc: Global,
    scanner: &Scanner,
    means: &[Meaning],
    found: &mut Vec<Option<Vec<u8>>>,
    token: TokenId,
    text: &mut Vec<u8>,
) -> Result<(), SampleFault>
    requires means { length means.now ≤ PATTERNS }
    requires token { token < length found.old.items }
    requires known { AreKnown scanner.now means.now found.old.items }
    requires text { length text.old.items ≤ TEXT_BYTES }
    ensures known { IfOk result (λ _. AreKnown scanner.now means.now found.new.items) }
    ensures size { IfOk result (λ _. length found.new.items ≡ length found.old.items) }
    ensures text { IfOk result (λ _. IsWritten scanner.now means.now token text.old.items text.new.items) }
    ensures fits { IfOk result (λ _. length text.new.items ≤ TEXT_BYTES) }
    ensures fault { IfErr result (IsUnwritten scanner.now means.now token text.old.items) }
{
    know_word(alloc, scanner, means, found, token)?;
    match &found[token.0 as usize] {
        Some(line) => append(text, line),
        None => unreachable!(),
    }
}
