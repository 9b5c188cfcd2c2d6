//! Tables, with the items of their states.
ghost use Rattle.std.specs.Prelude.{◌≡◌, ◌<◌, ◌≤◌, ◌++◌, map, codes, All, IfOk, OnOk};
ghost use Rattle.std.specs.List.{flat_map};
ghost use Rattle.lr_base.specs.declared.limits.TheConstants.{TOKENS};
ghost use Rattle.collection_data.specs.Entries.{IsEntry};
ghost use Rattle.report_theory.specs.ItemTexts.{behind_space, token_text};
ghost use Rattle.report_theory.specs.TableTexts.{aheads_in, entry_line, entry_lines, act_line, act_lines, goto_line, goto_lines, state_text, states_line, tables_text as text_of_tables};
ghost use Rattle.report_theory.specs.Belonging.{BelongTo};

use crate::printer::Printer;
use crate::words::{push_last, push_word};
use item_sets::{Collection, Entry};
use lr_base::{NameId, NoMemory, StateId, TokenId, TokenSet};
use lr_machine::{Act, Tables};
use sheet_reader::Sheet;
use std::alloc::Global;

/// The end mark's number.
fn end_of(sheet: &Sheet) -> TokenId
    ensures end { result ≡ sheet.now.grammar.tokens }
    ensures few { result ≤ TOKENS }
{
    let grammar = sheet.grammar();
    grammar.holds();
    grammar.end()
}

impl<'a> Printer<'a> {
    /// Adds the tokens of a set up to the end mark, each with a space before it.
    fn push_aheads(&self, text: &mut Vec<u8>, aheads: &TokenSet) -> Result<(), NoMemory>
        ensures { OnOk result (text.new.items ≡ text.old.items
            ++ flat_map behind_space (map (token_text self.now) (aheads_in self.now.grammar.tokens aheads.now))) }
    {
        for token in 0..end_of(self.sheet()).0 + 1 {
            if aheads.has(TokenId(token)) {
                push_word(text, self.token_word(TokenId(token)))?;
            }
        }
        Ok(())
    }

    /// Adds the line of an entry.
    fn push_entry(&self, text: &mut Vec<u8>, entry: &Entry) -> Result<(), NoMemory>
        requires { IsEntry self.now.grammar entry.now }
        ensures { OnOk result (text.new.items ≡ text.old.items ++ entry_line self.now entry.now) }
    {
        text.extend_from_slice(b"  ")?;
        self.push_rule(text, entry.rule, entry.dot)?;
        text.extend_from_slice(b" ,")?;
        self.push_aheads(text, &entry.ahead)?;
        text.extend_from_slice(b"\n")?;
        Ok(())
    }

    /// Adds the lines of a state's entries.
    fn push_entries(&self, text: &mut Vec<u8>, entries: &[Entry]) -> Result<(), NoMemory>
        requires { All (IsEntry self.now.grammar) entries.now }
        ensures { OnOk result (text.new.items ≡ text.old.items ++ entry_lines self.now entries.now) }
    {
        for entry in entries {
            self.push_entry(text, entry)?;
        }
        Ok(())
    }

    /// Adds the beginning of an action's line, up to its token.
    fn push_on(&self, text: &mut Vec<u8>, token: TokenId) -> Result<(), NoMemory>
        ensures { OnOk result (text.new.items ≡ text.old.items ++ (codes "  on " ++ token_text self.now token)) }
    {
        text.extend_from_slice(b"  on ")?;
        text.extend_from_slice(self.token_word(token))?;
        Ok(())
    }

    /// Adds the line of what a state does on a token; nothing for an error.
    fn push_act(&self, text: &mut Vec<u8>, token: TokenId, act: Act) -> Result<(), NoMemory>
        ensures { OnOk result (text.new.items ≡ text.old.items ++ act_line self.now token act) }
    {
        match act {
            Act::Error => Ok(()),
            Act::Accept => {
                self.push_on(text, token)?;
                text.extend_from_slice(b" accept\n")?;
                Ok(())
            }
            Act::Shift(state) => {
                self.push_on(text, token)?;
                text.extend_from_slice(b" shift ")?;
                push_last(text, state.0)
            }
            Act::Reduce(rule) => {
                self.push_on(text, token)?;
                text.extend_from_slice(b" reduce ")?;
                push_last(text, rule.0)
            }
        }
    }

    /// Adds the lines of a state's actions, in the order of the tokens, that on the end mark last.
    fn push_acts(&self, text: &mut Vec<u8>, tables: &Tables, state: StateId) -> Result<(), NoMemory>
        requires { state < tables.now.states }
        ensures { OnOk result (text.new.items ≡ text.old.items ++ act_lines self.now tables.now state) }
    {
        for token in 0..tables.end().0 + 1 {
            let act = tables.act(state, TokenId(token));
            self.push_act(text, TokenId(token), act)?;
        }
        Ok(())
    }

    /// Adds the line of where a state goes along a name; nothing where it goes nowhere.
    fn push_goto(
        &self,
        text: &mut Vec<u8>,
        name: NameId,
        to: Option<StateId>,
    ) -> Result<(), NoMemory>
        requires { name < self.now.grammar.names }
        ensures { OnOk result (text.new.items ≡ text.old.items ++ goto_line self.now name to) }
    {
        match to {
            None => Ok(()),
            Some(state) => {
                text.extend_from_slice(b"  to ")?;
                text.extend_from_slice(self.sheet().name(name))?;
                text.extend_from_slice(b" goto ")?;
                push_last(text, state.0)
            }
        }
    }

    /// Adds the lines of a state's gotos, in the order of the names.
    fn push_gotos(
        &self,
        text: &mut Vec<u8>,
        tables: &Tables,
        state: StateId,
    ) -> Result<(), NoMemory>
        requires names { tables.now.names ≡ self.now.grammar.names }
        requires state { state < tables.now.states }
        ensures { OnOk result (text.new.items ≡ text.old.items ++ goto_lines self.now tables.now state) }
    {
        for name in 0..self.sheet().grammar().names() {
            let to = tables.goto_name(state, NameId(name));
            self.push_goto(text, NameId(name), to)?;
        }
        Ok(())
    }

    /// Adds the lines of one state.
    #[tactic(auto, unfolding(report_theory::specs::TableTexts::state_text))]
    pub fn push_state(
        &self,
        text: &mut Vec<u8>,
        collection: &Collection,
        tables: &Tables,
        state: StateId,
    ) -> Result<(), NoMemory>
        requires belong { BelongTo self.now.grammar collection.now tables.now }
        requires state { state < tables.now.states }
        ensures { OnOk result (text.new.items ≡ text.old.items ++ state_text self.now collection.now tables.now state) }
    {
        text.extend_from_slice(b"state ")?;
        push_last(text, state.0)?;
        self.push_entries(text, collection.items(state))?;
        self.push_acts(text, tables, state)?;
        self.push_gotos(text, tables, state)
    }
}

/// Adds the first line of the tables' text: how many states there are.
pub fn push_states_line(text: &mut Vec<u8>, tables: &Tables) -> Result<(), NoMemory>
    ensures { OnOk result (text.new.items ≡ text.old.items ++ states_line tables.now) }
{
    text.extend_from_slice(b"states ")?;
    push_last(text, tables.states())
}

/// The printed text of a sheet's tables and their collection: the number of states; and for each state its entries with
/// all their lookaheads, its actions that are no errors, and its gotos.
pub fn tables_text(
    alloc: Global,
    sheet: &Sheet,
    collection: &Collection,
    tables: &Tables,
) -> Result<Vec<u8>, NoMemory>
    requires { BelongTo sheet.now.grammar collection.now tables.now }
    ensures { IfOk result (λ text. text.items ≡ text_of_tables sheet.now collection.now tables.now) }
{
    let printer = Printer::new(sheet)?;
    let mut text = Vec::new(alloc);
    push_states_line(&mut text, tables)?;
    for state in 0..tables.states() {
        printer.push_state(&mut text, collection, tables, StateId(state))?;
    }
    Ok(text)
}
