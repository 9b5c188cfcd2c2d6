//! Reads the spelling of a pattern.
ghost use Rattle.std.specs.Prelude.{◌≡◌, [], IfOk, IfErr};
ghost use Rattle.pattern_data.specs.declared.pattern.Pattern.{Pattern};
ghost use Rattle.pattern_data.specs.Spellings.{IsSpelling};
ghost use Rattle.pattern_data.specs.Groups.{SyntaxOnlyIf};
ghost use Rattle.pattern_data.specs.Language.{Matches};

use crate::fault::PatternFault;
use crate::pattern::Pattern;
use crate::reader::Reader;
use crate::signs::front_sign;
use std::alloc::Global;

/// The pattern that a text spells, whatever it matches.
fn spelled(alloc: Global, text: &[u8]) -> Result<Pattern, PatternFault>
    ensures ok { IfOk result (λ pattern. IsSpelling text.now pattern) }
    ensures err { IfErr result (λ fault. SyntaxOnlyIf ((pattern : Pattern) → ¬ (IsSpelling text.now pattern)) fault) }
{
    let mut reader = Reader::new(alloc);
    let mut left = text;
    while !left.is_empty() {
        let Some((sign, rest)) = front_sign(left) else {
            return Err(PatternFault::Syntax);
        };
        reader.take(alloc, sign)?;
        left = rest;
    }
    reader.end(alloc)
}

impl Pattern {
    /// The pattern that a text spells. `Syntax` where it is no spelling, `MatchesEmpty` where it is one and the empty
    /// string is in its language.
    pub fn read(alloc: Global, text: &[u8]) -> Result<Pattern, PatternFault>
        ensures spelled { IfOk result (λ pattern. IsSpelling text.now pattern × ¬ (Matches pattern [])) }
        ensures syntax { result ≡ Err PatternFault.Syntax → (pattern : Pattern) → ¬ (IsSpelling text.now pattern) }
        ensures empty { result ≡ Err PatternFault.MatchesEmpty → (pattern : Pattern) × IsSpelling text.now pattern × Matches pattern [] }
    {
        let pattern = spelled(alloc, text)?;
        if pattern.matches_empty() {
            return Err(PatternFault::MatchesEmpty);
        }
        Ok(pattern)
    }
}
