//! Rows of tables: what is printed of them, what states do, and which grammars have a conflict.

ghost use Rattle.std.specs.Prelude.{IfSome};
ghost use Rattle.grammar_faults.specs.Building.{AreBuiltOf, IsShown};

use crate::names::grammar_of;
use conflict_report::{conflict_text, item_text, tables_text};
use first_sets::analyse;
use grammar_checks::{Built, GrammarFault, build_grammar};
use item_sets::collect;
use lr_base::{Grammar, NameId, NoMemory, RuleId, StateId, TokenId};
use lr_machine::{Act, Tables};
use lr_tables::{BuildFault, Conflict, Item, build};
use sheet_reader::{Sheet, read_sheet};
use std::alloc::Global;
use std::test::Fail;

/// The sheet of one rule.
const ONE_RULE: &[u8] = b"%%\ns : 'a' ;\n";

/// Its printed tables, of 226 bytes.
const ONE_RULE_TABLES: &[u8] = b"states 3\n\
state 0\n  s : . 'a' , end of text\n  $accept : . s , end of text\n  on 'a' shift 1\n  to s goto 2\n\
state 1\n  s : 'a' . , end of text\n  on end of text reduce 0\n\
state 2\n  $accept : s . , end of text\n  on end of text accept\n";

/// A sheet with a rule of its own name alone.
const OWN_NAME: &[u8] = b"%%\ns : s | 'a' ;\n";

/// What is said of its conflict.
const OWN_NAME_SAID: &[u8] =
    b"sheet fault 16: conflict in state 2 on end of text\n  s : s . , end of text\n  $accept : s . , end of text\n";

/// A grammar of letters with a conflict: its state, its token, and two items by rule, dot and lookahead. The number of the
/// end mark is 5.
struct ConflictRow {
    name: &'static str,
    names: u32,
    rules: &'static [&'static [u8]],
    state: u32,
    token: u32,
    first: (u32, u32, u32),
    second: (u32, u32, u32),
}

static CONFLICTS: [ConflictRow; 3] = [
    ConflictRow {
        name: "a token that may be shifted, or end a rule before it",
        names: 1,
        rules: &[b"AaA", b"AaAbA", b"Ac"],
        state: 7,
        token: 1,
        first: (0, 2, 1),
        second: (1, 2, 1),
    },
    ConflictRow {
        name: "a rule of its own name alone",
        names: 1,
        rules: &[b"AA", b"Aa"],
        state: 2,
        token: 5,
        first: (0, 1, 5),
        second: (2, 1, 5),
    },
    ConflictRow {
        name: "two rules of one right side",
        names: 3,
        rules: &[b"ABb", b"ACb", b"Ba", b"Ca"],
        state: 1,
        token: 1,
        first: (2, 1, 1),
        second: (3, 1, 1),
    },
];

fn item_of(parts: (u32, u32, u32)) -> Item {
    Item {
        rule: RuleId(parts.0),
        dot: parts.1,
        ahead: TokenId(parts.2),
    }
}

fn conflict_of(row: &ConflictRow) -> Conflict {
    Conflict {
        state: StateId(row.state),
        token: TokenId(row.token),
        first: item_of(row.first),
        second: item_of(row.second),
    }
}

/// The tables of a grammar that has a collection, or its conflict.
fn try_build(alloc: Global, grammar: &Grammar) -> Result<Result<Tables, BuildFault>, Fail> {
    let firsts = analyse(alloc, grammar)?;
    let collection = collect(alloc, grammar, &firsts)?;
    Ok(build(alloc, grammar, &collection))
}

#[test]
fn conflicts_are_found(rt: HostRuntime) -> Result<(), Fail> {
    for row in &CONFLICTS {
        let grammar = grammar_of(rt.alloc(), row.names, row.rules)?.ok_or(row.name)?;
        let fault = try_build(rt.alloc(), &grammar)?.err();
        assert!(rt;
            fault == Some(BuildFault::Conflict(conflict_of(row))),
            "{}",
            row.name
        );
        let fault = build_grammar(rt.alloc(), &grammar).err();
        assert!(rt;
            fault == Some(GrammarFault::Conflict(conflict_of(row))),
            "{}, by the grammar",
            row.name
        );
    }
    Ok(())
}

/// What the states of the grammar of one rule do.
fn stated_act(state: u32, token: u32) -> Act {
    match (state, token) {
        (0, 0) => Act::Shift(StateId(1)),
        (1, 5) => Act::Reduce(RuleId(0)),
        (2, 5) => Act::Accept,
        _ => Act::Error,
    }
}

/// Whether a state does what is stated on each token, on the end mark and on the bad byte.
fn does_as_stated(tables: &Tables, state: u32) -> bool {
    if state >= tables.states() {
        return false;
    }
    (0..7).all(|token| tables.act(StateId(state), TokenId(token)) == stated_act(state, token))
}

#[test]
fn one_rule_has_three_states(rt: HostRuntime) -> Result<(), Fail> {
    let grammar = grammar_of(rt.alloc(), 1, &[b"Aa"])?.ok_or("no grammar")?;
    let tables = try_build(rt.alloc(), &grammar)??;
    assert_eq!(rt; tables.states(), 3);
    assert_eq!(rt; tables.rule_count(), 1);
    for state in 0..3 {
        assert!(rt; does_as_stated(&tables, state), "state {state}");
    }
    let built = build_grammar(rt.alloc(), &grammar)?;
    assert_eq!(rt; built.collection.states(), 3);
    for state in 0..3 {
        assert!(rt;
            does_as_stated(&built.tables, state),
            "state {state}, by the grammar"
        );
    }
    Ok(())
}

#[test]
fn a_useless_name_comes_before_a_conflict(rt: HostRuntime) -> Result<(), Fail> {
    let grammar = grammar_of(rt.alloc(), 2, &[b"AA", b"Aa", b"Bb"])?.ok_or("no grammar")?;
    let fault = build_grammar(rt.alloc(), &grammar).err();
    assert_eq!(rt; fault, Some(GrammarFault::Unreachable(NameId(1))));
    Ok(())
}

/// What is printed of a grammar's first conflict, and of its items.
#[derive(Debug, Drop)]
struct Printed {
    whole: Vec<u8>,
    first: Vec<u8>,
    second: Vec<u8>,
}

fn print_conflict(alloc: Global, sheet: &Sheet, conflict: &Conflict) -> Result<Printed, NoMemory>
    requires { IsShown sheet.now.grammar conflict.now }
{
    sheet.grammar().holds();
    Ok(Printed {
        whole: conflict_text(alloc, sheet, conflict)?,
        first: item_text(alloc, sheet, &conflict.first)?,
        second: item_text(alloc, sheet, &conflict.second)?,
    })
}

/// The first conflict of a sheet's grammar, if that is its fault.
fn conflict_in(alloc: Global, sheet: &Sheet) -> Option<Conflict>
    ensures { IfSome result (λ conflict. IsShown sheet.now.grammar conflict) }
{
    match build_grammar(alloc, sheet.grammar()).err() {
        Some(GrammarFault::Conflict(conflict)) => Some(conflict),
        _ => None,
    }
}

#[test]
fn a_conflict_is_printed(rt: HostRuntime) -> Result<(), Fail> {
    let sheet = read_sheet(rt.alloc(), OWN_NAME)?;
    let conflict = conflict_in(rt.alloc(), &sheet).ok_or("no conflict")?;
    let printed = print_conflict(rt.alloc(), &sheet, &conflict)?;
    assert!(rt; printed.whole.as_slice() == OWN_NAME_SAID);
    assert!(rt; printed.first.as_slice() == b"s : s . , end of text".as_slice());
    assert!(rt; printed.second.as_slice() == b"$accept : s . , end of text".as_slice());
    Ok(())
}

/// The printed tables of a sheet's grammar.
fn print_built(alloc: Global, sheet: &Sheet, built: &Built) -> Result<Vec<u8>, NoMemory>
    requires { AreBuiltOf sheet.now.grammar built.now.collection built.now.tables }
{
    tables_text(alloc, sheet, &built.collection, &built.tables)
}

#[test]
fn built_tables_are_printed(rt: HostRuntime) -> Result<(), Fail> {
    let sheet = read_sheet(rt.alloc(), ONE_RULE)?;
    let built = build_grammar(rt.alloc(), sheet.grammar())?;
    let text = print_built(rt.alloc(), &sheet, &built)?;
    assert!(rt; text.as_slice() == ONE_RULE_TABLES);
    Ok(())
}
