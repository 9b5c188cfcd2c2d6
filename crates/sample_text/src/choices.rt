//! The rules that are chosen for names: the first by numbers, the later ones so that each derivation ends.
ghost use Rattle.std.specs.Prelude.{◌≡◌, ℕ, ◌<◌, List, length, IfOk};
ghost use Rattle.grammar_data.specs.declared.rule.Sym.{Sym as Symbol};
ghost use Rattle.grammar_theory.specs.UsefulNames.{AllProductive};
ghost use Rattle.sample_theory.specs.Choices.{next_number, number_at, picked};
ghost use Rattle.sample_theory.specs.ClosingRules.{IsClosingRule};
ghost use Rattle.sample_text.specs.Choosing.{CanChoose, IsChoice, IsPicked};

use crate::alternatives::rules_by_name;
use crate::closing::{Closing, closing_rules};
use grammar_data::{NameId, RuleId, Sym};
use lr_base::{Grammar, NoMemory};
use std::alloc::Global;

/// The multiplier and the increment of the sequence of numbers, modulo 2 to the power 64.
const MULTIPLIER: u64 = 6_364_136_223_846_793_005;

const INCREMENT: u64 = 1_442_695_040_888_963_407;

/// The lower bits of a number, which pick nothing.
const LOW_BITS: u64 = 8_589_934_592;

/// The last number of the sequence, and how many choices were drawn.
#[derive(Clone, Copy, Debug)]
pub struct Draws {
    pub number: u64,
    pub drawn: u32,
}

/// The number behind a number of the sequence.
fn next(number: u64) -> u64
    ensures { result ≡ next_number number }
{
    number.wrapping_mul(MULTIPLIER).wrapping_add(INCREMENT)
}

/// Which of so many a number picks. A remainder by a number that is written here costs no division.
fn pick(number: u64, count: usize) -> usize
    requires { 0 < count }
    ensures picked { result ≡ picked number count }
    ensures inside { result < count }
{
    let upper = (number / LOW_BITS) as usize;
    match count {
        1 => 0,
        2 => upper % 2,
        3 => upper % 3,
        4 => upper % 4,
        5 => upper % 5,
        6 => upper % 6,
        7 => upper % 7,
        8 => upper % 8,
        _ => upper % count,
    }
}

/// What rules are chosen from: those of each name, the closing rules, and how many choices are drawn at the most.
#[derive(Debug, Drop)]
pub struct Chooser<'a> {
    grammar: &'a Grammar,
    lists: Vec<Vec<RuleId>>,
    closings: Vec<Option<Closing>>,
    size: u32,
}

impl<'a> Chooser<'a> {
    /// What rules of the grammar are chosen from.
    pub fn new(alloc: Global, grammar: &'a Grammar, size: u32) -> Result<Chooser<'a>, NoMemory>
        requires { AllProductive grammar.now }
        ensures grammar { IfOk result (λ chooser. chooser.grammar.now ≡ grammar.now) }
        ensures can { IfOk result (λ chooser. CanChoose grammar.now chooser.lists.items chooser.closings.items) }
        ensures size { IfOk result (λ chooser. chooser.size ≡ size) }
    {
        let lists = rules_by_name(alloc, grammar)?;
        let closings = closing_rules(alloc, grammar)?;
        Ok(Chooser {
            grammar,
            lists,
            closings,
            size,
        })
    }

    /// The grammar.
    pub fn grammar(&self) -> &Grammar
        ensures { result.now ≡ self.now.grammar.now }
    {
        self.grammar
    }

    /// The rule that is drawn for a name while choices are left: the one of its rules that the next number picks.
    pub fn draw(&self, draws: &mut Draws, name: NameId) -> RuleId
        requires name { name < self.now.grammar.now.names }
        requires can { CanChoose self.now.grammar.now self.now.lists.items self.now.closings.items }
        requires left { draws.old.drawn < self.now.size }
        ensures choice { (from : ℕ) → draws.old.number ≡ number_at from draws.old.drawn → IsChoice self.now.grammar.now from self.now.size draws.old.drawn name result draws.new.drawn }
        ensures number { (from : ℕ) → draws.old.number ≡ number_at from draws.old.drawn → draws.new.number ≡ number_at from draws.new.drawn }
        ensures rule { result < length self.now.grammar.now.rules }
    {
        draws.number = next(draws.number);
        draws.drawn += 1;
        self.picked_rule(name, draws.number)
    }

    /// The right side of a name's closing rule.
    pub fn closing_side(&self, name: NameId) -> &[Sym]
        requires name { name < self.now.grammar.now.names }
        requires can { CanChoose self.now.grammar.now self.now.lists.items self.now.closings.items }
        ensures { (rule : ℕ) × IsClosingRule self.now.grammar.now name rule result.now }
    {
        self.grammar.right(self.closing_rule(name))
    }

    /// The closing rule of a name.
    fn closing_rule(&self, name: NameId) -> RuleId
        requires name { name < self.now.grammar.now.names }
        requires can { CanChoose self.now.grammar.now self.now.lists.items self.now.closings.items }
        ensures closing { (right : List Symbol) × IsClosingRule self.now.grammar.now name result right }
        ensures rule { result < length self.now.grammar.now.rules }
    {
        match self.closings[name.0 as usize] {
            Some(closing) => closing.rule,
            None => unreachable!(),
        }
    }

    /// The rule of a name that a number picks.
    fn picked_rule(&self, name: NameId, number: u64) -> RuleId
        requires name { name < self.now.grammar.now.names }
        requires can { CanChoose self.now.grammar.now self.now.lists.items self.now.closings.items }
        ensures { (right : List Symbol) × IsPicked self.now.grammar.now name number result right }
    {
        let rules = &self.lists[name.0 as usize];
        rules[pick(number, rules.len())]
    }
}
