//! The sample text.
ghost use Rattle.std.specs.Prelude.{◌≡◌, ◌≤◌, length, IfOk, IfErr};
ghost use Rattle.grammar_theory.specs.UsefulNames.{AllProductive};
ghost use Rattle.sample_theory.specs.Samples.{IsSample, Text};
ghost use Rattle.scanning_theory.specs.Scan.{Scanning};
ghost use Rattle.sample_text.specs.Answering.{IsFault};
ghost use Rattle.sample_text.specs.Wording.{AreUnknown, IsScannedBy};

use crate::choices::{Chooser, Draws};
use crate::closing_texts::{close, put_first};
use crate::fault::SampleFault;
use crate::words::write_word;
use grammar_data::Sym;
use lr_base::{Grammar, NoMemory};
use pattern_data::Meaning;
use std::alloc::Global;
use token_patterns::{PATTERNS, Scanner};

/// The sample text of a grammar by a number and a size: a token on each line, by its shortest word. The tokens are those
/// of a leftmost derivation, whose first `size` rules are picked by the numbers that follow `from`, and whose later ones
/// are closing rules.
///
/// The ranks of the scanner mean the tokens that `means` says. `NoSample` names the first token without a word, and
/// `TooLong` says that the text passes 8,388,608 bytes, whichever comes first.
pub fn generate(
    alloc: Global,
    grammar: &Grammar,
    scanner: &Scanner,
    means: &[Meaning],
    from: u64,
    size: u32,
) -> Result<Vec<u8>, SampleFault>
    requires productive { AllProductive grammar.now }
    requires means { length means.now ≤ PATTERNS }
    ensures text { IfOk result (λ text. (scanning : Scanning) → IsScannedBy scanner.now means.now scanning → IsSample scanning grammar.now from size (Text text.items)) }
    ensures fault { IfErr result (IsFault scanner.now means.now grammar.now from size) }
{
    grammar.holds();
    let chooser = Chooser::new(alloc, grammar, size)?;
    let mut found = no_words(alloc, grammar.tokens())?;
    let mut draws = Draws {
        number: from,
        drawn: 0,
    };
    let mut texts = Vec::new(alloc);
    let mut text = Vec::new(alloc);
    let mut todo = Vec::new(alloc);
    todo.push(Sym::Name(grammar.start()))?;
    for _ in 0..u64::MAX {
        let symbol = match todo.pop() {
            Some(symbol) => symbol,
            None => return Ok(text),
        };
        match symbol {
            Sym::Token(token) => {
                write_word(alloc, scanner, means, &mut found, token, &mut text)?;
            }
            Sym::Name(name) => {
                if draws.drawn < size {
                    let rule = chooser.draw(&mut draws, name);
                    put_first(&mut todo, grammar.right(rule))?;
                } else {
                    close(
                        alloc, &chooser, &found, &mut texts, name, &mut todo, &mut text,
                    )?;
                }
            }
        }
    }
    Err(SampleFault::NoMemory)
}

/// No word for each of so many tokens.
fn no_words(alloc: Global, tokens: u32) -> Result<Vec<Option<Vec<u8>>>, NoMemory>
    ensures size { IfOk result (λ found. length found.items ≡ tokens) }
    ensures none { IfOk result (λ found. AreUnknown found.items) }
{
    let mut found = Vec::with_capacity(alloc, tokens as usize)?;
    for _ in 0..tokens {
        found.push(None)?;
    }
    Ok(found)
}
