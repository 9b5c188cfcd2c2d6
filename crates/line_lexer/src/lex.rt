ghost use Rattle.std.specs.Prelude.{◌≡◌, ◌≤◌, List, length, IfOk};
ghost use Rattle.pattern_data.specs.declared.pattern.Pattern.{Pattern};
ghost use Rattle.scanning_theory.specs.Lines.{line_starts};
ghost use Rattle.scanning_theory.specs.Scan.{AreTokensOfLines};
ghost use Rattle.token_patterns.specs.Scanner.{IsScannerOf, ranks_of};
ghost use Rattle.line_lexer.specs.Means.{scanning_of};

use crate::lexing::Lexing;
use crate::lines::Lines;
use dead_ends::DeadEnds;
use grammar_data::Token;
use lr_base::{NoMemory, TEXT_BYTES};
use pattern_data::Meaning;
use std::alloc::Global;
use token_patterns::{PATTERNS, Scanner};

/// The tokens of the lines from line `from` up to line `to`, counted from 0.
///
/// A byte that no pattern begins is a token of its own, the bad byte, whose number comes after that of the end mark.
/// The places in the tokens count lines from 1.
pub fn lex_lines(
    alloc: Global,
    scanner: &Scanner,
    means: &[Meaning],
    text: &[u8],
    lines: &Lines,
    from: u32,
    to: u32,
) -> Result<Vec<Token>, NoMemory>
    requires text { length text.now ≤ TEXT_BYTES }
    requires lines { lines.now ≡ line_starts text.now }
    requires order { from ≤ to }
    requires within { to ≤ length lines.now }
    requires ranks { ranks_of scanner.now ≡ length means.now }
    requires means { length means.now ≤ PATTERNS }
    ensures { IfOk result (λ tokens. (patterns : List Pattern) → IsScannerOf scanner.now patterns → AreTokensOfLines (scanning_of patterns means.now) text.now to from tokens.items) }
{
    let lexing = Lexing::new(scanner, means, text);
    let mut dead_ends = DeadEnds::new(alloc, scanner.state_count());
    let mut tokens = Vec::new(alloc);
    for line in from..to {
        let start = lines.start(line) as usize;
        dead_ends.start_line(start);
        lexing.take_line(line + 1, start, &mut dead_ends, &mut tokens)?;
    }
    Ok(tokens)
}
