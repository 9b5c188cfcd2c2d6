ghost use Rattle.std.specs.Prelude.{◌≡◌, ◌-◌, ◌^◌, ◌<◌, ◌≤◌, All, IfOk, IsTrue, length};
ghost use Rattle.cutting_theory.specs.Cuttings.{AreBegins, IsCutting, IsEven, bounds_at};
ghost use Rattle.cutting_theory.specs.declared.limits.TheConstants.{SEGMENTS};
ghost use Rattle.grammar_data.specs.declared.token.Token.{Token as TextToken};
ghost use Rattle.lr_base.specs.declared.limits.TheConstants.{TEXT_BYTES as most_text_bytes};
ghost use Rattle.plain_parse.specs.Parses.{AreTextTokens};
ghost use Rattle.scanning_theory.specs.Lines.{line_starts};
ghost use Rattle.segment_counts.specs.Ranges.{CanRun};
ghost use Rattle.run_inputs.specs.Inputs.{HasTokens, IsLanguage, IsSource};

use crate::fault::InputFault;
use crate::language::Language;
use line_cuttings::Cutting;
use line_lexer::{Lines, lex_lines};
use lr_base::{NoMemory, TEXT_BYTES, Token};
use lr_machine::Tables;
use segment_counts::Job;
use std::alloc::Global;

/// A text with its lines and its tokens.
#[derive(Drop)]
pub struct Source {
    pub text: Vec<u8>,
    pub lines: Lines,
    pub tokens: Vec<Token>,
}

/// Whether tokens are of the tables, or bad bytes.
fn are_of_tables(tables: &Tables, tokens: &[Token]) -> bool
    ensures tokens { IsTrue result → AreTextTokens tables.now tokens.now }
    ensures small { IsTrue result → All (λ (token : TextToken). token.id < 2 ^ 32 - 2) tokens.now }
{
    let end = tables.end().0;
    tokens
        .iter()
        .all(|token| token.id.0 < end || token.id.0 == end + 1)
}

impl Source {
    /// A text of a language, of at most 1 GiB; and its tokens are of the language, or bad bytes.
    pub fn read(alloc: Global, language: &Language, text: Vec<u8>) -> Result<Source, InputFault>
        requires { IsLanguage language.now }
        ensures source { IfOk result (λ source. IsSource language.now source) }
        ensures text { IfOk result (λ source. source.text.items ≡ text.items) }
    {
        if text.len() > TEXT_BYTES {
            return Err(InputFault::LongText);
        }
        let lines = Lines::of(alloc, &text)?;
        let tokens = language.known_tokens(alloc, &text, &lines)?;
        Ok(Source {
            text,
            lines,
            tokens,
        })
    }

    /// The text's lines, cut into so many segments whose numbers of lines differ by at most one.
    pub fn cut_even(&self, alloc: Global, segments: u32) -> Result<Cutting, NoMemory>
        requires some { 1 ≤ segments }
        requires few { segments ≤ SEGMENTS }
        ensures even { IfOk result (λ cutting. IsEven (length self.now.lines) segments cutting) }
        ensures cutting { IfOk result (λ cutting. IsCutting (length self.now.lines) cutting) }
    {
        Cutting::even(alloc, &self.lines, segments)
    }

    /// The text's lines, cut where the listed ones begin, counted from 1.
    #[tactic(auto, using(cutting_theory::proofs::BoundLemmas::at_cuts))]
    pub fn cut_at(&self, alloc: Global, begins: &[u32]) -> Result<Cutting, NoMemory>
        requires { AreBegins begins.now }
        ensures at { IfOk result (λ cutting. cutting ≡ bounds_at (length self.now.lines) begins.now) }
        ensures cutting { IfOk result (λ cutting. IsCutting (length self.now.lines) cutting) }
    {
        Cutting::at(alloc, &self.lines, begins)
    }

    /// The job of parsing the text in segments, where its lines are cut so.
    pub fn job<'a>(&'a self, language: &'a Language, cutting: &'a Cutting) -> Job<'a>
        requires language { IsLanguage language.now }
        requires source { IsSource language.now self.now }
        requires cutting { IsCutting (length self.now.lines) cutting.now }
        ensures can { CanRun result }
        ensures tables { result.tables.now ≡ language.now.built.tables }
        ensures cutting { result.cutting.now ≡ cutting.now }
    {
        Job {
            tables: &language.built.tables,
            scanner: &language.scanner,
            means: &language.means,
            text: &self.text,
            lines: &self.lines,
            cutting,
        }
    }
}

impl Language {
    /// The tokens of a text's lines.
    pub fn lex(&self, alloc: Global, text: &[u8], lines: &Lines) -> Result<Vec<Token>, NoMemory>
        requires language { IsLanguage self.now }
        requires short { length text.now ≤ most_text_bytes }
        requires lines { lines.now ≡ line_starts text.now }
        ensures { IfOk result (λ tokens. HasTokens self.now text.now tokens.items) }
    {
        let count = lines.count();
        lex_lines(alloc, &self.scanner, &self.means, text, lines, 0, count)
    }

    /// The tokens of a text's lines, if all are of the language, or bad bytes.
    fn known_tokens(
        &self,
        alloc: Global,
        text: &[u8],
        lines: &Lines,
    ) -> Result<Vec<Token>, InputFault>
        requires language { IsLanguage self.now }
        requires short { length text.now ≤ most_text_bytes }
        requires lines { lines.now ≡ line_starts text.now }
        ensures tokens { IfOk result (λ tokens. HasTokens self.now text.now tokens.items) }
        ensures of_tables { IfOk result (λ tokens. AreTextTokens self.now.built.tables tokens.items) }
        ensures small { IfOk result (λ tokens. All (λ (token : TextToken). token.id < 2 ^ 32 - 2) tokens.items) }
        ensures few { IfOk result (λ tokens. length tokens.items ≤ most_text_bytes) }
    {
        let tokens = self.lex(alloc, text, lines)?;
        if tokens.len() > TEXT_BYTES || !are_of_tables(&self.built.tables, &tokens) {
            return Err(InputFault::OtherTokens);
        }
        Ok(tokens)
    }
}
