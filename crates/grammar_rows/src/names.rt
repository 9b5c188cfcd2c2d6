//! Rows of the names of grammars: which are useless, and the first tokens and the empty sizes of the others.

ghost use Rattle.std.specs.Prelude.{◌<◌, ◌≤◌};
ghost use Rattle.first_sets.specs.NameFacts.{names_in};

use first_sets::{Firsts, UselessFault, analyse};
use lr_base::{Grammar, NameId, Rule, Sym, TokenId};
use std::alloc::{AllocError, Global};
use std::test::Fail;

/// What an analysis finds.
#[derive(Clone, Copy, PartialEq)]
enum Kind {
    Useful,
    Unproductive,
    Unreachable,
    EmptyTooLarge,
}

/// A grammar of letters.
struct NamesRow {
    name: &'static str,
    names: u32,
    rules: &'static [&'static [u8]],
    /// What is found, and of a useless name its letter.
    kind: Kind,
    useless: u8,
    /// The first tokens of each name.
    firsts: &'static [&'static [u8]],
    /// The empty size of each name, and 0 of one that isn't nullable.
    sizes: &'static [u32],
}

const TOKENS: u32 = 5;

static ROWS: [NamesRow; 13] = [
    NamesRow {
        name: "two lists",
        names: 2,
        rules: &[b"ABB", b"BaB", b"Bb"],
        kind: Kind::Useful,
        useless: b' ',
        firsts: &[b"ab", b"ab"],
        sizes: &[0, 0],
    },
    NamesRow {
        name: "a list to the left, with an empty rule",
        names: 1,
        rules: &[b"AAb", b"A"],
        kind: Kind::Useful,
        useless: b' ',
        firsts: &[b"b"],
        sizes: &[1],
    },
    NamesRow {
        name: "first tokens behind nullable names",
        names: 3,
        rules: &[b"ABCd", b"Ba", b"B", b"Cb", b"CB"],
        kind: Kind::Useful,
        useless: b' ',
        firsts: &[b"abd", b"a", b"ab"],
        sizes: &[0, 1, 2],
    },
    NamesRow {
        name: "the least of two empty trees",
        names: 3,
        rules: &[b"ABBB", b"AC", b"B", b"CB"],
        kind: Kind::Useful,
        useless: b' ',
        firsts: &[b"", b"", b""],
        sizes: &[3, 1, 2],
    },
    NamesRow {
        name: "an empty tree of 511 nodes",
        names: 9,
        rules: &[
            b"ABB", b"BCC", b"CDD", b"DEE", b"EFF", b"FGG", b"GHH", b"HII", b"I",
        ],
        kind: Kind::Useful,
        useless: b' ',
        firsts: &[b"", b"", b"", b"", b"", b"", b"", b"", b""],
        sizes: &[511, 255, 127, 63, 31, 15, 7, 3, 1],
    },
    NamesRow {
        name: "a name of itself alone",
        names: 2,
        rules: &[b"Aa", b"AB", b"BB"],
        kind: Kind::Unproductive,
        useless: b'B',
        firsts: &[],
        sizes: &[],
    },
    NamesRow {
        name: "the least of two that derive nothing",
        names: 3,
        rules: &[b"Aa", b"BC", b"CB"],
        kind: Kind::Unproductive,
        useless: b'B',
        firsts: &[],
        sizes: &[],
    },
    NamesRow {
        name: "what derives nothing, before what is not reached",
        names: 3,
        rules: &[b"Aa", b"Bb", b"CC"],
        kind: Kind::Unproductive,
        useless: b'C',
        firsts: &[],
        sizes: &[],
    },
    NamesRow {
        name: "a start that derives nothing",
        names: 1,
        rules: &[b"AaA"],
        kind: Kind::Unproductive,
        useless: b'A',
        firsts: &[],
        sizes: &[],
    },
    NamesRow {
        name: "a name that is not reached",
        names: 2,
        rules: &[b"Aa", b"Bb"],
        kind: Kind::Unreachable,
        useless: b'B',
        firsts: &[],
        sizes: &[],
    },
    NamesRow {
        name: "the least of two that are not reached",
        names: 4,
        rules: &[b"AB", b"Bb", b"CD", b"DC", b"Dd"],
        kind: Kind::Unreachable,
        useless: b'C',
        firsts: &[],
        sizes: &[],
    },
    NamesRow {
        name: "an empty tree of 2,047 nodes, the least number shown",
        names: 11,
        rules: &[
            b"ABB", b"BCC", b"CDD", b"DEE", b"EFF", b"FGG", b"GHH", b"HII", b"IJJ", b"JKK", b"K",
        ],
        kind: Kind::EmptyTooLarge,
        useless: b'A',
        firsts: &[],
        sizes: &[],
    },
    NamesRow {
        name: "a large empty tree that a smaller one makes needless",
        names: 11,
        rules: &[
            b"ABB", b"BCC", b"CDD", b"DEE", b"EFF", b"FGG", b"GHH", b"HII", b"IJJ", b"JKK", b"K",
            b"A", b"B",
        ],
        kind: Kind::Useful,
        useless: b' ',
        firsts: &[b"", b"", b"", b"", b"", b"", b"", b"", b"", b"", b""],
        sizes: &[1, 1, 511, 255, 127, 63, 31, 15, 7, 3, 1],
    },
];

/// The token or the name that a letter stands for.
pub fn symbol_of(letter: u8) -> Sym {
    if letter.is_ascii_lowercase() {
        Sym::Token(TokenId(u32::from(letter.saturating_sub(b'a'))))
    } else {
        Sym::Name(NameId(u32::from(letter.saturating_sub(b'A'))))
    }
}

fn rule_of(alloc: Global, letters: &[u8]) -> Result<Rule, AllocError> {
    let mut symbols = Vec::new(alloc);
    for letter in letters.iter().skip(1) {
        symbols.push(symbol_of(*letter))?;
    }
    let left = letters.first().copied().unwrap_or(b'A');
    Ok(Rule {
        left: NameId(u32::from(left.saturating_sub(b'A'))),
        right: symbols,
    })
}

/// A grammar whose names are the letters from `A` on, of which `A` is the start, and whose tokens are those from `a` to
/// `e`: each rule is its left side with its right side behind it.
pub fn grammar_of(
    alloc: Global,
    names: u32,
    letters: &[&[u8]],
) -> Result<Option<Grammar>, AllocError> {
    let mut rules = Vec::new(alloc);
    for rule in letters {
        rules.push(rule_of(alloc, rule)?)?;
    }
    Ok(Grammar::new(TOKENS, names, rules, NameId(0)))
}

/// Whether these are the name's first tokens and its empty size.
fn is_known_as(firsts: &Firsts, name: u32, tokens: &[u8], size: u32) -> bool
    requires { name < names_in firsts.now }
{
    let id = NameId(name);
    let set = firsts.first_set(id);
    (0..TOKENS).all(|token| set.has(TokenId(token)) == tokens.contains(&(b'a' + token as u8)))
        && firsts.nullable(id) == (size > 0)
        && firsts.empty_size(id).unwrap_or(0) == size
}

/// Whether each name has the row's first tokens and its empty size.
fn are_known_as(firsts: &Firsts, names: u32, row: &NamesRow) -> bool
    requires { names ≤ names_in firsts.now }
{
    for name in 0..names {
        let tokens = row.firsts.get(name as usize).copied().unwrap_or(b"");
        let size = row.sizes.get(name as usize).copied().unwrap_or(0);
        if !is_known_as(firsts, name, tokens, size) {
            return false;
        }
    }
    true
}

fn is_name(name: NameId, letter: u8) -> bool {
    name.0 == u32::from(letter.saturating_sub(b'A'))
}

fn is_fault_of(fault: UselessFault, row: &NamesRow) -> bool {
    match fault {
        UselessFault::Unproductive(name) => row.kind == Kind::Unproductive
            && is_name(name, row.useless),
        UselessFault::Unreachable(name) => row.kind == Kind::Unreachable
            && is_name(name, row.useless),
        UselessFault::EmptyTooLarge(name) => row.kind == Kind::EmptyTooLarge
            && is_name(name, row.useless),
        UselessFault::NoMemory => false,
    }
}

fn is_analysed_as_stated(alloc: Global, grammar: &Grammar, row: &NamesRow) -> bool {
    match analyse(alloc, grammar) {
        Ok(firsts) => row.kind == Kind::Useful && are_known_as(&firsts, grammar.names(), row),
        Err(fault) => is_fault_of(fault, row),
    }
}

#[test]
fn finds_useless_names_first_tokens_and_empty_sizes(rt: HostRuntime) -> Result<(), Fail> {
    for row in &ROWS {
        let grammar = grammar_of(rt.alloc(), row.names, row.rules)?.ok_or(row.name)?;
        assert!(rt;
            is_analysed_as_stated(rt.alloc(), &grammar, row),
            "{}",
            row.name
        );
    }
    Ok(())
}
