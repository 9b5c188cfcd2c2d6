use line_cuttings::Cutting;
use line_lexer::Lines;
use lr_machine::Tables;
use pattern_data::Meaning;
use token_patterns::Scanner;

/// A text with what it is scanned and parsed by, and how its lines are cut into segments.
#[derive(Clone, Copy, Debug)]
pub struct Job<'a> {
    pub tables: &'a Tables,
    pub scanner: &'a Scanner,
    pub means: &'a [Meaning],
    pub text: &'a [u8],
    pub lines: &'a Lines,
    pub cutting: &'a Cutting,
}
