ghost use Rattle.std.specs.Prelude.{◌≡◌, ℕ, ◌+◌, ◌<◌, ◌≤◌, None, OnErr, OnOk, length};
ghost use Rattle.table_data.specs.declared.act.Act.TheVariants.{Error};
ghost use Rattle.table_data.specs.Tables.{act_in, goto_in, IsActOf};
ghost use Rattle.collection_data.specs.Entries.{IsEntry};
ghost use Rattle.collection_data.specs.Collection.{state_count};
ghost use Rattle.lr_tables.specs.Filling.{AreActsSet, AreGotosSet, AreItemsOf, AreReducesPut, AreShiftsSteps, HasClashWithin, IsEntryPut, IsInTheWay, IsPut, IsReduceTaken, IsSetting, IsTaken, only};

use crate::deed::{EntryDeed, entry_deed};
use item_sets::{Collection, Entry};
use lr_base::{Grammar, NameId, RuleId, StateId, Sym, TokenId, TokenSet};
use lr_machine::{Act, Tables};

/// A state does something else on a token already.
#[derive(Clone, Copy, Debug, PartialEq, Eq)]
pub struct Clash;

/// Sets the action of a state on a token, unless there is another already.
fn put(tables: &mut Tables, state: StateId, token: TokenId, act: Act) -> Result<(), Clash>
    requires state { state < tables.old.states }
    requires token { token ≤ tables.old.tokens }
    requires act { IsActOf tables.old.states (length tables.old.rules) act }
    ensures put { OnOk result (IsPut (only token) state act tables.old tables.new) }
    ensures taken { OnErr result (IsTaken act (act_in tables.old state token)) }
{
    let old = tables.act(state, token);
    if old == act {
        return Ok(());
    }
    if old != Act::Error {
        return Err(Clash);
    }
    tables.set_act(state, token, act);
    Ok(())
}

/// Sets the reductions of a state by a rule on its lookaheads.
fn put_reduces(
    tables: &mut Tables,
    state: StateId,
    rule: RuleId,
    aheads: &TokenSet,
) -> Result<(), Clash>
    requires state { state < tables.old.states }
    requires rule { rule < length tables.old.rules }
    ensures put { OnOk result (AreReducesPut (tables.old.tokens + 1) aheads.now state rule tables.old tables.new) }
    ensures taken { OnErr result (IsReduceTaken (tables.old.tokens + 1) aheads.now state rule tables.old) }
{
    let end = tables.end();
    for token in 0..end.0 + 1 {
        if aheads.has(TokenId(token)) {
            put(tables, state, TokenId(token), Act::Reduce(rule))?;
        }
    }
    Ok(())
}

/// Sets what the items of an entry of a state do.
fn put_entry(
    tables: &mut Tables,
    grammar: &Grammar,
    collection: &Collection,
    state: StateId,
    entry: &Entry,
) -> Result<(), Clash>
    requires setting { IsSetting grammar.now collection.now tables.old }
    requires state { state < state_count collection.now }
    requires entry { IsEntry grammar.now entry.now }
    requires items { AreItemsOf collection.now state entry.now }
    requires shifts { AreShiftsSteps collection.now state tables.old }
    ensures put { OnOk result (IsEntryPut grammar.now collection.now entry.now state tables.old tables.new) }
    ensures taken { OnErr result (IsInTheWay grammar.now entry.now state tables.old) }
{
    let Some(deed) = entry_deed(grammar, entry) else {
        return Ok(());
    };
    match deed {
        EntryDeed::Shift(token) => match collection.step(state, Sym::Token(token)) {
            Some(to) => put(tables, state, token, Act::Shift(to)),
            None => unreachable!(),
        },
        EntryDeed::Reduce(rule) => put_reduces(tables, state, rule, &entry.ahead),
        EntryDeed::Accept => {
            let end = tables.end();
            put(tables, state, end, Act::Accept)
        }
    }
}

/// Sets the actions of a state, where all are errors, to what its items do; `Clash` where two do different things.
pub fn set_acts(
    tables: &mut Tables,
    grammar: &Grammar,
    collection: &Collection,
    state: StateId,
) -> Result<(), Clash>
    requires setting { IsSetting grammar.now collection.now tables.old }
    requires state { state < state_count collection.now }
    requires errors { (a : ℕ) → act_in tables.old state a ≡ Error }
    ensures acts { OnOk result (AreActsSet grammar.now collection.now state tables.old tables.new) }
    ensures clash { OnErr result (HasClashWithin grammar.now collection.now state) }
{
    for entry in collection.items(state) {
        put_entry(tables, grammar, collection, state, entry)?;
    }
    Ok(())
}

/// Sets the gotos of a state, where there is none, to its steps.
pub fn set_gotos(tables: &mut Tables, grammar: &Grammar, collection: &Collection, state: StateId)
    requires setting { IsSetting grammar.now collection.now tables.old }
    requires state { state < state_count collection.now }
    requires empty { (n : ℕ) → goto_in tables.old state n ≡ None }
    ensures { AreGotosSet grammar.now collection.now state tables.old tables.new }
{
    for name in 0..grammar.names() {
        if let Some(to) = collection.step(state, Sym::Name(NameId(name))) {
            tables.set_goto(state, NameId(name), to);
        }
    }
}
