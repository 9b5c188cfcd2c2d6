//! Rows of grammars and of sets of tokens.

use lr_base::{Grammar, NameId, Rule, RuleId, Sym, TokenId, TokenSet};
use std::alloc::{AllocError, Global};
use std::test::Fail;

/// What the symbols of a row are.
#[derive(Clone, Copy)]
enum Kind {
    Token,
    Name,
}

/// The parts of a grammar: so many rules, the left sides of which are the first names in turn, each with so many times
/// one symbol as its right side; and whether they are a grammar.
struct GrammarRow {
    name: &'static str,
    tokens: u32,
    names: u32,
    rules: u32,
    lefts: u32,
    kind: Kind,
    number: u32,
    symbols: usize,
    start: u32,
    is_grammar: bool,
}

static GRAMMARS: [GrammarRow; 19] = [
    GrammarRow {
        name: "one rule of one token",
        tokens: 1,
        names: 1,
        rules: 1,
        lefts: 1,
        kind: Kind::Token,
        number: 0,
        symbols: 1,
        start: 0,
        is_grammar: true,
    },
    GrammarRow {
        name: "no token and an empty right side",
        tokens: 0,
        names: 1,
        rules: 1,
        lefts: 1,
        kind: Kind::Token,
        number: 0,
        symbols: 0,
        start: 0,
        is_grammar: true,
    },
    GrammarRow {
        name: "a rule of its own name",
        tokens: 0,
        names: 1,
        rules: 1,
        lefts: 1,
        kind: Kind::Name,
        number: 0,
        symbols: 1,
        start: 0,
        is_grammar: true,
    },
    GrammarRow {
        name: "each count at its limit",
        tokens: 250,
        names: 500,
        rules: 1000,
        lefts: 500,
        kind: Kind::Token,
        number: 249,
        symbols: 4,
        start: 499,
        is_grammar: true,
    },
    GrammarRow {
        name: "20 symbols of one right side",
        tokens: 1,
        names: 1,
        rules: 200,
        lefts: 1,
        kind: Kind::Token,
        number: 0,
        symbols: 20,
        start: 0,
        is_grammar: true,
    },
    GrammarRow {
        name: "the greatest name",
        tokens: 1,
        names: 500,
        rules: 500,
        lefts: 500,
        kind: Kind::Name,
        number: 499,
        symbols: 8,
        start: 0,
        is_grammar: true,
    },
    GrammarRow {
        name: "251 tokens",
        tokens: 251,
        names: 1,
        rules: 1,
        lefts: 1,
        kind: Kind::Token,
        number: 0,
        symbols: 1,
        start: 0,
        is_grammar: false,
    },
    GrammarRow {
        name: "501 names",
        tokens: 1,
        names: 501,
        rules: 501,
        lefts: 501,
        kind: Kind::Token,
        number: 0,
        symbols: 1,
        start: 0,
        is_grammar: false,
    },
    GrammarRow {
        name: "1,001 rules",
        tokens: 1,
        names: 1,
        rules: 1001,
        lefts: 1,
        kind: Kind::Token,
        number: 0,
        symbols: 1,
        start: 0,
        is_grammar: false,
    },
    GrammarRow {
        name: "21 symbols of one right side",
        tokens: 1,
        names: 1,
        rules: 1,
        lefts: 1,
        kind: Kind::Token,
        number: 0,
        symbols: 21,
        start: 0,
        is_grammar: false,
    },
    GrammarRow {
        name: "4,002 symbols in all",
        tokens: 1,
        names: 1,
        rules: 667,
        lefts: 1,
        kind: Kind::Token,
        number: 0,
        symbols: 6,
        start: 0,
        is_grammar: false,
    },
    GrammarRow {
        name: "no rule",
        tokens: 1,
        names: 1,
        rules: 0,
        lefts: 1,
        kind: Kind::Token,
        number: 0,
        symbols: 1,
        start: 0,
        is_grammar: false,
    },
    GrammarRow {
        name: "no name",
        tokens: 1,
        names: 0,
        rules: 1,
        lefts: 1,
        kind: Kind::Token,
        number: 0,
        symbols: 1,
        start: 0,
        is_grammar: false,
    },
    GrammarRow {
        name: "a start out of range",
        tokens: 1,
        names: 2,
        rules: 2,
        lefts: 2,
        kind: Kind::Token,
        number: 0,
        symbols: 1,
        start: 2,
        is_grammar: false,
    },
    GrammarRow {
        name: "a left side out of range",
        tokens: 1,
        names: 1,
        rules: 2,
        lefts: 2,
        kind: Kind::Token,
        number: 0,
        symbols: 1,
        start: 0,
        is_grammar: false,
    },
    GrammarRow {
        name: "a token out of range",
        tokens: 1,
        names: 1,
        rules: 1,
        lefts: 1,
        kind: Kind::Token,
        number: 1,
        symbols: 1,
        start: 0,
        is_grammar: false,
    },
    GrammarRow {
        name: "any token where there is none",
        tokens: 0,
        names: 1,
        rules: 1,
        lefts: 1,
        kind: Kind::Token,
        number: 0,
        symbols: 1,
        start: 0,
        is_grammar: false,
    },
    GrammarRow {
        name: "a name out of range",
        tokens: 1,
        names: 2,
        rules: 2,
        lefts: 2,
        kind: Kind::Name,
        number: 2,
        symbols: 1,
        start: 0,
        is_grammar: false,
    },
    GrammarRow {
        name: "a name with no rule",
        tokens: 1,
        names: 2,
        rules: 3,
        lefts: 1,
        kind: Kind::Token,
        number: 0,
        symbols: 1,
        start: 0,
        is_grammar: false,
    },
];

fn rule_of(alloc: Global, left: u32, right: &[Sym]) -> Result<Rule, AllocError> {
    Ok(Rule {
        left: NameId(left),
        right: Vec::from_slice(alloc, right)?,
    })
}

/// The grammar of a row's parts, if they are one.
fn grammar_of(alloc: Global, row: &GrammarRow) -> Result<Option<Grammar>, AllocError> {
    let symbol = match row.kind {
        Kind::Token => Sym::Token(TokenId(row.number)),
        Kind::Name => Sym::Name(NameId(row.number)),
    };
    let right = vec![in alloc; symbol; row.symbols]?;
    let mut rules = Vec::new(alloc);
    for number in 0..row.rules {
        rules.push(rule_of(alloc, number % row.lefts.max(1), &right)?)?;
    }
    Ok(Grammar::new(row.tokens, row.names, rules, NameId(row.start)))
}

fn is_made_as_stated(row: &GrammarRow, made: &Option<Grammar>) -> bool {
    match made {
        Some(grammar) => {
            row.is_grammar
                && grammar.tokens() == row.tokens
                && grammar.names() == row.names
                && grammar.rule_count() == row.rules
                && grammar.start() == NameId(row.start)
                && grammar.end() == TokenId(row.tokens)
                && grammar.bad().0 == row.tokens.saturating_add(1)
        }
        None => !row.is_grammar,
    }
}

#[test]
fn makes_grammars_within_ranges_and_limits(rt: HostRuntime) -> Result<(), Fail> {
    for row in &GRAMMARS {
        let made = grammar_of(rt.alloc(), row)?;
        assert!(rt; is_made_as_stated(row, &made), "{}", row.name);
    }
    Ok(())
}

const LEFTS: [u32; 3] = [0, 1, 1];

/// The right sides of the three rules.
fn right_sides() -> [[Sym; 2]; 3] {
    [
        [Sym::Token(TokenId(0)), Sym::Name(NameId(1))],
        [Sym::Token(TokenId(2)), Sym::Token(TokenId(0))],
        [Sym::Name(NameId(1)), Sym::Name(NameId(1))],
    ]
}

/// A grammar of three rules, the second name of which is the start.
fn three_rules(alloc: Global) -> Result<Option<Grammar>, AllocError> {
    let mut rules = Vec::new(alloc);
    for (left, right) in LEFTS.iter().zip(&right_sides()) {
        rules.push(rule_of(alloc, *left, right)?)?;
    }
    Ok(Grammar::new(3, 2, rules, NameId(1)))
}

/// Whether these are the sides of one of the three rules, asked of the grammar in both ways.
fn has_rule(grammar: &Grammar, number: u32, left: u32, right: &[Sym]) -> bool {
    match grammar.rules().get(number as usize) {
        Some(rule) => {
            rule.left == NameId(left)
                && rule.right.as_slice() == right
                && number < grammar.rule_count()
                && grammar.left(RuleId(number)) == NameId(left)
                && grammar.right(RuleId(number)) == right
        }
        None => false,
    }
}

#[test]
fn keeps_the_rules_in_their_order(rt: HostRuntime) -> Result<(), Fail> {
    let grammar = three_rules(rt.alloc())?.ok_or("no grammar")?;
    let rights = right_sides();
    for (number, (left, right)) in (0..3).zip(LEFTS.iter().zip(&rights)) {
        assert!(rt; has_rule(&grammar, number, *left, right), "rule {number}");
    }
    Ok(())
}

/// The members of a set, those of another and those of their union; the words of a set end after 63, 127, 191 and 255.
struct SetRow {
    name: &'static str,
    members: &'static [u8],
    others: &'static [u8],
    union: &'static [u8],
    grows: bool,
}

static SETS: [SetRow; 6] = [
    SetRow {
        name: "two empty sets",
        members: &[],
        others: &[],
        union: &[],
        grows: false,
    },
    SetRow {
        name: "an empty set and one member",
        members: &[],
        others: &[255],
        union: &[255],
        grows: true,
    },
    SetRow {
        name: "one member and an empty set",
        members: &[0],
        others: &[],
        union: &[0],
        grows: false,
    },
    SetRow {
        name: "members at the ends of words",
        members: &[0, 63, 64, 127, 128, 191, 192, 255],
        others: &[255, 0, 127, 128],
        union: &[0, 63, 64, 127, 128, 191, 192, 255],
        grows: false,
    },
    SetRow {
        name: "one new member among old ones",
        members: &[1, 2, 3, 130],
        others: &[3, 2, 131],
        union: &[1, 2, 3, 130, 131],
        grows: true,
    },
    SetRow {
        name: "sets with no common member",
        members: &[5, 69, 133, 197],
        others: &[6, 70, 134, 198],
        union: &[5, 6, 69, 70, 133, 134, 197, 198],
        grows: true,
    },
];

fn set_of(members: &[u8]) -> TokenSet {
    let mut set = TokenSet::empty();
    for member in members {
        set.insert(TokenId(u32::from(*member)));
    }
    set
}

/// Whether a set has exactly these members.
fn has_members(set: &TokenSet, members: &[u8]) -> bool {
    for byte in 0..=255u8 {
        if set.has(TokenId(u32::from(byte))) != members.contains(&byte) {
            return false;
        }
    }
    !set.has(TokenId(256)) && !set.has(TokenId(u32::MAX))
}

fn joins_as_stated(row: &SetRow) -> bool {
    let mut set = set_of(row.members);
    let other = set_of(row.others);
    let is_made = has_members(&set, row.members) && set.is_empty() == row.members.is_empty();
    let grows = set.union(&other);
    let grows_again = set.union(&other);
    is_made && grows == row.grows && !grows_again && has_members(&set, row.union)
}

#[test]
fn joins_sets_of_tokens(rt: HostRuntime) {
    for row in &SETS {
        assert!(rt; joins_as_stated(row), "{}", row.name);
    }
}
