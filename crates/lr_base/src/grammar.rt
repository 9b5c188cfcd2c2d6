ghost use Rattle.std.specs.Prelude.{◌≡◌, ◌↔◌, ℕ, ◌+◌, ◌^◌, ◌<◌, ◌≤◌, List, Some, true, false, length, map, slice_get, slice_index_or, All, Contains, IfSome, IsSome, IsTrue};
ghost use Rattle.std.specs.Option.{option_map};
ghost use Rattle.grammar_data.specs.declared.rule.Sym.{Sym};
ghost use Rattle.lr_base.specs.declared.limits.TheConstants.{NAMES, RULES, SIDE_SYMBOLS, SYMBOLS, TOKENS};
ghost use Rattle.lr_base.specs.IsGrammar.{HasRuleForEach, IsGrammar, IsRuleOf, IsSymbolOf, symbols_of};

use crate::limits::{NAMES, RULES, SIDE_SYMBOLS, SYMBOLS, TOKENS};
use grammar_data::{NameId, Rule, RuleId, Sym, TokenId};
use std::marker::Model;

/// A grammar: how many tokens and names it has, its rules, and its start name. Identifiers are in range, each name has
/// a rule, and the limits hold.
#[derive(Debug, Drop)]
pub struct Grammar {
    tokens: u32,
    names: u32,
    rules: Vec<Rule>,
    start: NameId,
}

impl Model for Grammar {
    ghost use Rattle.grammar_data.specs.Grammar.{Grammar as GrammarParts};
    ghost use Rattle.lr_base.specs.IsGrammar.{IsGrammar};

    ghost Value = { GrammarParts };

    ghost view = { λ s. record { tokens = s.tokens; names = s.names; rules = s.rules.items; start = s.start } };

    ghost invariant = { λ s. IsGrammar (record {
      tokens = s.tokens;
      names = s.names;
      rules = s.rules.items;
      start = s.start;
    }) };
}

fn is_symbol(symbol: Sym, tokens: u32, names: u32) -> bool
    ensures { IsTrue result ↔ IsSymbolOf tokens names symbol }
{
    match symbol {
        Sym::Token(token) => token.0 < tokens,
        Sym::Name(name) => name.0 < names,
    }
}

fn is_rule(rule: &Rule, tokens: u32, names: u32) -> bool
    ensures { IsTrue result ↔ IsRuleOf tokens names rule.now }
{
    rule.left.0 < names
        && rule.right.len() <= SIDE_SYMBOLS
        && rule
            .right
            .iter()
            .all(|symbol| is_symbol(*symbol, tokens, names))
}

fn are_rules(rules: &[Rule], tokens: u32, names: u32) -> bool
    ensures { IsTrue result ↔ All (IsRuleOf tokens names) rules.now }
{
    rules.iter().all(|rule| is_rule(rule, tokens, names))
}

/// How many symbols all right sides have together.
fn count_symbols(rules: &[Rule]) -> usize
    requires { symbols_of rules.now < 2 ^ 64 }
    ensures { result ≡ symbols_of rules.now }
{
    rules.iter().map(|rule| rule.right.len()).sum()
}

fn are_few_symbols(rules: &[Rule]) -> bool
    requires few { length rules.now ≤ RULES }
    requires short { All (λ rule. length rule.1 ≤ SIDE_SYMBOLS) rules.now }
    ensures { IsTrue result ↔ symbols_of rules.now ≤ SYMBOLS }
{
    count_symbols(rules) <= SYMBOLS
}

/// Which names are left sides.
fn left_sides(rules: &[Rule]) -> [bool; NAMES]
    requires { All (λ rule. rule.0 < NAMES) rules.now }
    ensures len { length result ≡ NAMES }
    ensures only { (n : ℕ) → slice_index_or result n false ≡ true → (right : List Sym) × Contains rules.now (n, right) }
    ensures all { All (λ rule. slice_index_or result rule.0 false ≡ true) rules.now }
{
    let mut marked = [false; NAMES];
    for rule in rules {
        marked[rule.left.0 as usize] = true;
    }
    marked
}

fn are_true(marks: &[bool]) -> bool
    ensures { IsTrue result ↔ All (λ mark. mark ≡ true) marks.now }
{
    marks.iter().all(|mark| *mark)
}

fn has_rule_for_each(rules: &[Rule], names: u32) -> bool
    requires within { names ≤ NAMES }
    requires lefts { All (λ rule. rule.0 < names) rules.now }
    ensures { IsTrue result ↔ HasRuleForEach names rules.now }
{
    let marked = left_sides(rules);
    are_true(&marked[..names as usize])
}

fn is_grammar(tokens: u32, names: u32, rules: &[Rule], start: NameId) -> bool
    ensures { IsTrue result ↔ IsGrammar (record { tokens = tokens; names = names; rules = rules.now; start = start }) }
{
    tokens as usize <= TOKENS
        && names as usize <= NAMES
        && start.0 < names
        && !rules.is_empty()
        && rules.len() <= RULES
        && are_rules(rules, tokens, names)
        && are_few_symbols(rules)
        && has_rule_for_each(rules, names)
}

impl Grammar {
    /// The grammar of these parts; `None` where an identifier is out of range, a name or the whole grammar has no rule,
    /// or a limit is passed: 250 tokens, 500 names, 1,000 rules, 20 symbols of one right side, 4,000 of all together.
    pub fn new(tokens: u32, names: u32, rules: Vec<Rule>, start: NameId) -> Option<Grammar>
        ensures exact { IsSome result
            ↔ IsGrammar (record { tokens = tokens; names = names; rules = rules.items; start = start }) }
        ensures parts { IfSome result
            (λ g. g ≡ record { tokens = tokens; names = names; rules = rules.items; start = start }) }
    {
        if !is_grammar(tokens, names, &rules, start) {
            return None;
        }
        Some(Grammar {
            tokens,
            names,
            rules,
            start,
        })
    }

    /// What holds of every grammar. The body does nothing: a field that is read lets a proof see the invariant.
    pub fn holds(&self)
        ensures { IsGrammar self.now }
    {
        let _start = self.start;
    }

    /// How many tokens there are; they are numbered from 0.
    pub fn tokens(&self) -> u32
        ensures { result ≡ self.now.tokens }
    {
        self.tokens
    }

    /// How many names there are; they are numbered from 0.
    pub fn names(&self) -> u32
        ensures { result ≡ self.now.names }
    {
        self.names
    }

    /// The start name.
    pub fn start(&self) -> NameId
        ensures { result ≡ self.now.start }
    {
        self.start
    }

    /// The number of the end mark, the first after the tokens.
    pub fn end(&self) -> TokenId
        ensures { result ≡ self.now.tokens }
    {
        TokenId(self.tokens)
    }

    /// The number of the bad byte, the second after the tokens.
    pub fn bad(&self) -> TokenId
        ensures { result ≡ self.now.tokens + 1 }
    {
        TokenId(self.tokens + 1)
    }

    /// All rules, in the order of their numbers; and what holds of every grammar.
    pub fn rules(&self) -> &[Rule]
        ensures rules { result.now ≡ self.now.rules }
        ensures grammar { IsGrammar self.now }
    {
        &self.rules
    }

    /// How many rules there are; they are numbered from 0.
    pub fn rule_count(&self) -> u32
        ensures { result ≡ length self.now.rules }
    {
        self.rules.len() as u32
    }

    /// The left side of a rule.
    pub fn left(&self, rule: RuleId) -> NameId
        requires { rule < length self.now.rules }
        ensures left { option_map (λ rule. rule.0) (slice_get self.now.rules rule) ≡ Some result }
        ensures in_range { result < self.now.names }
    {
        self.rules[rule.0 as usize].left
    }

    /// The right side of a rule.
    pub fn right(&self, rule: RuleId) -> &[Sym]
        requires { rule < length self.now.rules }
        ensures right { option_map (λ rule. rule.1) (slice_get self.now.rules rule) ≡ Some result.now }
        ensures in_range { All (IsSymbolOf self.now.tokens self.now.names) result.now }
        ensures short { length result.now ≤ SIDE_SYMBOLS }
    {
        &self.rules[rule.0 as usize].right
    }
}
