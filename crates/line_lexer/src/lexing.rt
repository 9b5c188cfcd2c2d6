//! A text with what it is scanned by.
ghost use Rattle.std.specs.Prelude.{◌≡◌, ◌+◌, ◌≤◌, length};
ghost use Rattle.lr_base.specs.declared.limits.TheConstants.{TEXT_BYTES};
ghost use Rattle.scanning_theory.specs.declared.limits.TheConstants.{PATTERNS};
ghost use Rattle.scanning_theory.specs.Scan.{token_count};
ghost use Rattle.token_patterns.specs.Scanner.{ranks_of};

use crate::taken::Taken;
use dead_ends::DeadEnds;
use grammar_data::{Place, Token, TokenId};
use lr_base::NoMemory;
use pattern_data::Meaning;
use token_patterns::Scanner;

/// A text, the scanner that it is scanned by, and what the string of each rank is. The bad byte is the token whose
/// number comes after that of the end mark.
#[derive(Clone, Copy, Debug)]
pub struct Lexing<'a> {
    scanner: &'a Scanner,
    means: &'a [Meaning],
    text: &'a [u8],
    bad_byte: TokenId,
    ghost small: { length text.now ≤ TEXT_BYTES },
    ghost ranks: { ranks_of scanner.now ≡ length means.now },
    ghost bad: { bad_byte ≡ token_count means.now + 1 },
}

impl<'a> Lexing<'a> {
    ghost use Rattle.std.specs.Prelude.{◌<◌, ◌++◌, ◌↔◌, List, IsTrue, IfOk, OnOk};
    ghost use Rattle.grammar_data.specs.declared.token.Token.{Token};
    ghost use Rattle.pattern_data.specs.declared.pattern.Pattern.{Pattern};
    ghost use Rattle.scanning_theory.specs.Lines.{IsLineEnd};
    ghost use Rattle.scanning_theory.specs.Scan.{AreTokensFrom};
    ghost use Rattle.dead_ends.specs.Pairs.{AreOfOneLine};
    ghost use Rattle.token_patterns.specs.Scanner.{IsScannerOf};
    ghost use Rattle.token_patterns.specs.Walking.{AreDeadEnds};
    ghost use Rattle.line_lexer.specs.Means.{scanning_of};
    ghost use Rattle.line_lexer.specs.Taken.{IsTaken, len_of, AppendsTokens};

    /// The scan of a text by these patterns and meanings.
    pub fn new(scanner: &'a Scanner, means: &'a [Meaning], text: &'a [u8]) -> Lexing<'a>
        requires text { length text.now ≤ TEXT_BYTES }
        requires ranks { ranks_of scanner.now ≡ length means.now }
        requires few { length means.now ≤ PATTERNS }
        ensures scanner { result.scanner.now ≡ scanner.now }
        ensures means { result.means.now ≡ means.now }
        ensures text { result.text.now ≡ text.now }
    {
        Lexing {
            scanner,
            means,
            text,
            bad_byte: TokenId(count_tokens(means) as u32 + 1),
        }
    }

    /// Appends the tokens of a line, counted from 1, from a place of it to its end.
    pub fn take_line(
        &self,
        line: u32,
        start: usize,
        dead_ends: &mut DeadEnds,
        tokens: &mut Vec<Token>,
    ) -> Result<(), NoMemory>
        requires start { start ≤ length self.now.text.now }
        requires begun { dead_ends.old.begin ≤ start }
        requires dead { AreDeadEnds self.now.scanner.now self.now.text.now dead_ends.old }
        ensures { OnOk result ((patterns : List Pattern) → IsScannerOf self.now.scanner.now patterns → (more : List Token) × (tokens.new.items ≡ tokens.old.items ++ more) × AreTokensFrom (scanning_of patterns self.now.means.now) self.now.text.now line start more) }
    {
        let mut at = start;
        while !self.ends_line(at) {
            at = self.take(line, at, dead_ends, tokens)?;
        }
        Ok(())
    }

    /// Takes what stands at a place where the line goes on: appends its token, unless it is skipped, and gives the place
    /// behind it.
    fn take(
        &self,
        line: u32,
        at: usize,
        dead_ends: &mut DeadEnds,
        tokens: &mut Vec<Token>,
    ) -> Result<usize, NoMemory>
        requires inside { at < length self.now.text.now }
        requires begun { dead_ends.old.begin ≤ at }
        requires dead { AreDeadEnds self.now.scanner.now self.now.text.now dead_ends.old }
        requires goes_on { ¬ (IsLineEnd self.now.text.now at) }
        ensures tokens { IfOk result (λ next. (patterns : List Pattern) → IsScannerOf self.now.scanner.now patterns → AppendsTokens (scanning_of patterns self.now.means.now) self.now.text.now line at next tokens.old.items tokens.new.items) }
        ensures further { IfOk result (λ next. at < next) }
        ensures within { IfOk result (λ next. next ≤ length self.now.text.now) }
        ensures dead { AreDeadEnds self.now.scanner.now self.now.text.now dead_ends.new }
        ensures same_line { AreOfOneLine dead_ends.old dead_ends.new }
    {
        match self.taken_at(at, dead_ends) {
            Taken::Token(id, len) => {
                tokens.push(Token {
                    id,
                    place: Place {
                        line,
                        start: at as u32,
                        len: len as u32,
                    },
                })?;
                Ok(at + len)
            }
            Taken::Skip(len) => Ok(at + len),
        }
    }

    /// What the scan takes at a place where the line goes on: the longest match, or else one bad byte.
    fn taken_at(&self, at: usize, dead_ends: &mut DeadEnds) -> Taken
        requires inside { at < length self.now.text.now }
        requires begun { dead_ends.old.begin ≤ at }
        requires dead { AreDeadEnds self.now.scanner.now self.now.text.now dead_ends.old }
        ensures taken { (patterns : List Pattern) → IsScannerOf self.now.scanner.now patterns → IsTaken (scanning_of patterns self.now.means.now) self.now.text.now at result }
        ensures some { 0 < len_of result }
        ensures inside { at + len_of result ≤ length self.now.text.now }
        ensures dead { AreDeadEnds self.now.scanner.now self.now.text.now dead_ends.new }
        ensures same_line { AreOfOneLine dead_ends.old dead_ends.new }
    {
        match self.scanner.longest_with(self.text, at, dead_ends) {
            None => Taken::Token(self.bad_byte, 1),
            Some((len, rank)) => match self.means[rank as usize] {
                Meaning::Token(id) => Taken::Token(id, len),
                Meaning::Skip => Taken::Skip(len),
            },
        }
    }

    /// Whether no byte of the line is left at a place.
    fn ends_line(&self, at: usize) -> bool
        requires { at ≤ length self.now.text.now }
        ensures { IsTrue result ↔ IsLineEnd self.now.text.now at }
    {
        at == self.text.len() || self.text[at] == b'\n'
    }
}

/// The number of meanings that are a token.
fn count_tokens(means: &[Meaning]) -> usize
    ensures count { result ≡ token_count means.now }
    ensures bound { result ≤ length means.now }
{
    means
        .iter()
        .filter(|meaning| matches!(meaning, Meaning::Token(_)))
        .count()
}
