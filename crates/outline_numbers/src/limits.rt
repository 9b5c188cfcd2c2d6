//! The limits of an outline with numbers.
ghost use Rattle.std.specs.Prelude.{◌≡◌, ◌+◌, ◌<◌, ◌≤◌, ◌^◌, length, sum_by};
ghost use Rattle.outline_numbers.specs.Symbols.{lists_in};
ghost use Rattle.numbering_theory.specs.KnownWords.{unnamed_in};
ghost use Rattle.lr_base.specs.IsGrammar.{symbols_of};
ghost use Rattle.outline_theory.specs.Limits.{long_side, skips_in, positions_in};
ghost use Rattle.numbering_theory.specs.Passing.{Keeps, one_measure, word_measures, rule_measures, position_measures};

use crate::numbers::Numbers;
use lr_base::{NAMES, RULES, Rule, SIDE_SYMBOLS, SKIPS, SYMBOLS, TOKENS};
use outline_data::{LimitKind, SheetFault};
use position_sets::count_positions;
use scanning_theory::POSITIONS;
use sheet_data::Decl;

/// Looks at one quantity.
fn within(kind: LimitKind, count: usize, most: usize) -> Result<(), SheetFault>
    ensures { Keeps (one_measure kind count most) result }
{
    if most < count {
        return Err(SheetFault::Limit(kind, count as u64));
    }
    Ok(())
}

/// The length of the first right side that is too long; 0 where none is.
fn first_long_side(rules: &[Rule]) -> usize
    ensures { result ≡ long_side rules.now }
{
    for rule in rules {
        if SIDE_SYMBOLS < rule.right.len() {
            return rule.right.len();
        }
    }
    0
}

/// How many symbols all right sides have together.
fn count_symbols(rules: &[Rule]) -> usize
    requires { symbols_of rules.now < 2 ^ 64 }
    ensures { result ≡ symbols_of rules.now }
{
    rules.iter().map(|rule| rule.right.len()).sum()
}

/// How many skip patterns there are.
fn count_skips(decls: &[Decl]) -> usize
    ensures { result ≡ sum_by skips_in decls.now }
{
    let mut count = 0;
    for decl in decls {
        if let Decl::Skip { .. } = decl {
            count += 1;
        }
    }
    count
}

/// How many positions a declaration has: as many as its literal has bytes, or those of its pattern.
fn decl_positions(decl: &Decl) -> usize
    requires { positions_in decl.now < 2 ^ 64 }
    ensures { result ≡ positions_in decl.now }
{
    match decl {
        Decl::Literal { bytes, .. } => bytes.as_slice().len(),
        Decl::Matched { pattern, .. } | Decl::Skip { pattern } => count_positions(pattern),
    }
}

/// How many positions declarations have together.
fn declared_positions(decls: &[Decl]) -> usize
    requires { sum_by positions_in decls.now < 2 ^ 64 }
    ensures { result ≡ sum_by positions_in decls.now }
{
    let mut count = 0;
    for decl in decls {
        count += decl_positions(decl);
    }
    count
}

/// How many bytes words have together.
fn count_bytes(words: &[&[u8]]) -> usize
    requires { sum_by (λ word. length word.now) words.now < 2 ^ 64 }
    ensures { result ≡ sum_by (λ word. length word.now) words.now }
{
    words.iter().map(|word| word.len()).sum()
}

/// Looks at how many tokens, skip patterns and names there are.
pub fn check_words(numbers: &Numbers<'_>, decls: &[Decl]) -> Result<(), SheetFault>
    ensures { Keeps (word_measures (lists_in numbers.now) decls.now) result }
{
    within(LimitKind::Tokens, numbers.literals.len(), TOKENS)?;
    within(LimitKind::Skips, count_skips(decls), SKIPS)?;
    within(LimitKind::Names, numbers.names.len(), NAMES)
}

/// Looks at how many rules there are, and how long they are.
pub fn check_rules(rules: &[Rule]) -> Result<(), SheetFault>
    ensures { Keeps (rule_measures rules.now) result }
{
    within(LimitKind::Rules, rules.len(), RULES)?;
    within(LimitKind::RightSide, first_long_side(rules), SIDE_SYMBOLS)?;
    within(LimitKind::Symbols, count_symbols(rules), SYMBOLS)
}

/// Looks at how many positions the patterns and literals have.
pub fn check_positions(numbers: &Numbers<'_>, decls: &[Decl]) -> Result<(), SheetFault>
    requires tokens { length (lists_in numbers.now).tokens ≤ length (lists_in numbers.now).literals }
    requires small { sum_by positions_in decls.now + sum_by length (unnamed_in (lists_in numbers.now)) < 2 ^ 64 }
    ensures { Keeps (position_measures (lists_in numbers.now) decls.now) result }
{
    let count = declared_positions(decls) + count_bytes(numbers.unnamed());
    within(LimitKind::Positions, count, POSITIONS)
}
