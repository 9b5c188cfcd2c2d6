ghost use Rattle.std.specs.Prelude.{ℕ, ◌<◌, List, ◌∷◌, IfOk, MatchOption, length};
ghost use Rattle.grammar_data.specs.declared.rule.Sym.{Sym as Symbol};
ghost use Rattle.grammar_data.specs.declared.rule.Sym.TheVariants.{Name};
ghost use Rattle.grammar_theory.specs.Rules.{IsRule};
ghost use Rattle.grammar_theory.specs.UsefulNames.{AllProductive};
ghost use Rattle.first_sets.specs.NameFacts.{AreFirsts};
ghost use Rattle.item_sets.specs.Spots.{AreFronts, AreRuleSpots, IsSpotAt};
ghost use Rattle.item_sets.specs.Closing.{IsSetting};

use crate::spot::{Spot, Spots, spots_of};
use first_sets::Firsts;
use lr_base::{Grammar, NameId, RuleId, Sym};
use std::alloc::{AllocError, Global};

/// The spots of all rules, the augmented rule's last; and name by name those in front of its rules where a name stands.
#[derive(Debug, Drop)]
pub struct Table {
    pub rows: Vec<Spots>,
    pub fronts: Vec<Spots>,
}

/// The spots of all rules.
fn rows_of(alloc: Global, grammar: &Grammar, firsts: &Firsts) -> Result<Vec<Spots>, AllocError>
    requires facts { AreFirsts grammar.now firsts.now }
    ensures { IfOk result (λ rows. AreRuleSpots grammar.now rows.items) }
{
    let rules = grammar.rules();
    let mut rows = Vec::with_capacity(alloc, rules.len() + 1)?;
    for rule in rules {
        rows.push(spots_of(alloc, grammar, firsts, &rule.right)?)?;
    }
    let start = [Sym::Name(grammar.start())];
    rows.push(spots_of(alloc, grammar, firsts, &start)?)?;
    Ok(rows)
}

/// The spot in front of the rule, if the name has the rule and a name stands there.
fn front_spot<'a>(
    grammar: &Grammar,
    rows: &'a [Spots],
    rule: RuleId,
    name: NameId,
) -> Option<&'a Spot>
    requires rows { AreRuleSpots grammar.now rows.now }
    requires rule { rule < length grammar.now.rules }
    ensures { MatchOption result
        ((m : ℕ) (after : List Symbol) → IsRule grammar.now.rules rule name (Name m ∷ after) → ⊥)
        (λ spot. (m : ℕ) × (after : List Symbol) × IsRule grammar.now.rules rule name (Name m ∷ after) × IsSpotAt grammar.now (Name m ∷ after) 0 spot.now) }
{
    if grammar.left(rule) != name {
        return None;
    }
    let row = &rows[rule.0 as usize];
    match row.spots.first() {
        Some(spot) => match spot.symbol {
            Sym::Name(_) => Some(spot),
            Sym::Token(_) => None,
        },
        None => None,
    }
}

/// The spots in front of the name's rules where a name stands.
fn fronts_of(
    alloc: Global,
    grammar: &Grammar,
    rows: &[Spots],
    name: NameId,
) -> Result<Spots, AllocError>
    requires rows { AreRuleSpots grammar.now rows.now }
    ensures { IfOk result (λ spots. AreFronts grammar.now name spots) }
{
    let mut spots = Vec::new(alloc);
    for rule in 0..grammar.rule_count() {
        if let Some(spot) = front_spot(grammar, rows, RuleId(rule), name) {
            spots.push(*spot)?;
        }
    }
    Ok(Spots { spots })
}

impl Table {
    /// The table of a grammar.
    pub fn new(alloc: Global, grammar: &Grammar, firsts: &Firsts) -> Result<Table, AllocError>
        requires productive { AllProductive grammar.now }
        requires facts { AreFirsts grammar.now firsts.now }
        ensures { IfOk result (λ table. IsSetting grammar.now table.rows.items table.fronts.items) }
    {
        grammar.holds();
        let rows = rows_of(alloc, grammar, firsts)?;
        let mut fronts = Vec::with_capacity(alloc, grammar.names() as usize)?;
        for name in 0..grammar.names() {
            fronts.push(fronts_of(alloc, grammar, &rows, NameId(name))?)?;
        }
        Ok(Table { rows, fronts })
    }
}
