ghost use Rattle.std.specs.Prelude.{◌≡◌, ◌≤◌, length, All, IfOk, OnOk};
ghost use Rattle.lr_base.specs.declared.limits.TheConstants.{SYMBOLS};
ghost use Rattle.first_sets.specs.Openings.{AreOpenings, AreReaders, HasOpeningsOf, IsOpeningOf};

use crate::known_names::{Lists, is_known_symbol};
use crate::relation::Relation;
use grammar_data::{NameId, Sym};
use lr_base::{Grammar, NoMemory};
use std::alloc::Global;

/// A symbol that stands in a right side behind nullable names alone, and the rule's left side, whose first tokens are
/// those of the symbol too.
#[derive(Clone, Copy, Debug)]
pub struct Opening {
    pub left: NameId,
    pub symbol: Sym,
}

/// Puts the openings of a right side to the end of `openings`.
fn push_openings(
    left: NameId,
    right: &[Sym],
    nullable: &[bool],
    openings: &mut Vec<Opening>,
) -> Result<(), NoMemory>
    ensures { OnOk result (HasOpeningsOf nullable.now left right.now openings.old.items openings.new.items) }
{
    for symbol in right {
        openings.push(Opening {
            left,
            symbol: *symbol,
        })?;
        if !is_known_symbol(*symbol, nullable, Lists::Empty) {
            return Ok(());
        }
    }
    Ok(())
}

/// The openings of all right sides.
pub fn openings_of(
    alloc: Global,
    grammar: &Grammar,
    nullable: &[bool],
) -> Result<Vec<Opening>, NoMemory>
    ensures openings { IfOk result (λ openings. AreOpenings nullable.now grammar.now.rules openings.items) }
    ensures few { IfOk result (λ openings. length openings.items ≤ SYMBOLS) }
{
    let mut openings = Vec::new(alloc);
    for rule in grammar.rules() {
        push_openings(rule.left, &rule.right, nullable, &mut openings)?;
    }
    Ok(openings)
}

/// The names that are symbols of openings, each with the place of the opening.
fn pairs_of_readers(alloc: Global, openings: &[Opening]) -> Result<Vec<(u32, u32)>, NoMemory>
    requires { length openings.now ≤ SYMBOLS }
    ensures readers { IfOk result (λ pairs. AreReaders openings.now pairs.items) }
    ensures few { IfOk result (λ pairs. length pairs.items ≤ length openings.now) }
{
    let mut pairs = Vec::new(alloc);
    for (place, opening) in openings.iter().enumerate() {
        if let Sym::Name(name) = opening.symbol {
            pairs.push((name.0, place as u32))?;
        }
    }
    Ok(pairs)
}

/// For each name the places of the openings whose symbol it is.
pub fn readers_of(alloc: Global, openings: &[Opening], names: u32) -> Result<Relation, NoMemory>
    requires few { length openings.now ≤ SYMBOLS }
    requires range { All (IsOpeningOf names) openings.now }
    ensures readers { IfOk result (λ readers. AreReaders openings.now readers.pairs) }
    ensures keys { IfOk result (λ readers. readers.keys ≡ names) }
{
    let pairs = pairs_of_readers(alloc, openings)?;
    Relation::new(alloc, pairs, names)
}
