//! Rules and items in the names of a sheet.
ghost use Rattle.std.specs.Prelude.{◌≡◌, ◌≤◌, ◌++◌, length, All, IfOk, OnOk};
ghost use Rattle.lr_base.specs.IsGrammar.{IsSymbolOf};
ghost use Rattle.outline_theory.specs.Layout.{symbol_text};
ghost use Rattle.report_theory.specs.ItemTexts.{behind_space, token_text, symbols_text, rule_at, dotted_side, dotted_rule, indented, item_text};
ghost use Rattle.item_theory.specs.Items.{IsItemOf};

use crate::words::push_word;
use grammar_faults::Item;
use lr_base::{NoMemory, RuleId, Sym, TokenId};
use sheet_data::Bytes;
use sheet_reader::Sheet;
use std::marker::Model;

/// Prints what belongs to a sheet's grammar, with the printed names of the sheet's tokens at hand. Contracts see the
/// sheet.
#[derive(Debug, Drop)]
pub struct Printer<'a> {
    sheet: &'a Sheet,
    tokens: Vec<Bytes>,
}

impl<'a> Model for Printer<'a> {
    ghost use Rattle.std.specs.Prelude.{◌≡◌};
    ghost use Rattle.std.specs.Coded.{codes};
    ghost use Rattle.pattern_data.specs.contracts.pattern.Pattern as pattern;
    ghost use Rattle.sheet_data.specs.Sheet.{Sheet as SheetParts};
    ghost use Rattle.sheet_theory.specs.Names.{token_names};

    ghost Value = { SheetParts };

    ghost coded = { Prim.hlevel (codes, pattern.the_row.coded) };

    ghost view = { λ s. s.sheet.now };

    ghost invariant = { λ s. s.tokens.items ≡ token_names s.sheet.now };
}

impl<'a> Printer<'a> {
    /// The printer of a sheet.
    pub fn new(sheet: &'a Sheet) -> Result<Printer<'a>, NoMemory>
        ensures { IfOk result (λ printer. printer ≡ sheet.now) }
    {
        let tokens = sheet.token_texts()?;
        Ok(Printer { sheet, tokens })
    }

    /// The sheet.
    pub(crate) fn sheet(&self) -> &Sheet
        ensures { result.now ≡ self.now }
    {
        self.sheet
    }

    /// The printed name of a token, of the end mark or of the bad byte.
    pub(crate) fn token_word(&self, token: TokenId) -> &[u8]
        ensures { result.now ≡ token_text self.now token }
    {
        match self.tokens.get(token.0 as usize) {
            Some(name) => name.as_slice(),
            None => &[],
        }
    }

    /// The printed name of a symbol.
    fn symbol_word(&self, symbol: Sym) -> &[u8]
        requires { IsSymbolOf self.now.grammar.tokens self.now.grammar.names symbol }
        ensures { result.now ≡ symbol_text self.now symbol }
    {
        match symbol {
            Sym::Token(token) => self.token_word(token),
            Sym::Name(name) => self.sheet.name(name),
        }
    }

    /// Adds symbols, each with a space before it.
    fn push_symbols(&self, text: &mut Vec<u8>, symbols: &[Sym]) -> Result<(), NoMemory>
        requires { All (IsSymbolOf self.now.grammar.tokens self.now.grammar.names) symbols.now }
        ensures { OnOk result (text.new.items ≡ text.old.items ++ symbols_text self.now symbols.now) }
    {
        for symbol in symbols {
            push_word(text, self.symbol_word(*symbol))?;
        }
        Ok(())
    }

    /// Adds a right side with the dot behind so many of its symbols.
    fn push_side(&self, text: &mut Vec<u8>, right: &[Sym], dot: u32) -> Result<(), NoMemory>
        requires symbols { All (IsSymbolOf self.now.grammar.tokens self.now.grammar.names) right.now }
        requires dot { dot ≤ length right.now }
        ensures { OnOk result (text.new.items ≡ text.old.items ++ dotted_side self.now right.now dot) }
    {
        let (before, after) = right.split_at(dot as usize);
        self.push_symbols(text, before)?;
        text.extend_from_slice(b" .")?;
        self.push_symbols(text, after)
    }

    /// Adds a rule with a dot.
    pub(crate) fn push_rule(
        &self,
        text: &mut Vec<u8>,
        rule: RuleId,
        dot: u32,
    ) -> Result<(), NoMemory>
        requires rule { rule ≤ length self.now.grammar.rules }
        requires dot { dot ≤ length (rule_at self.now.grammar rule).1 }
        ensures { OnOk result (text.new.items ≡ text.old.items ++ dotted_rule self.now rule dot) }
    {
        let grammar = self.sheet.grammar();
        match grammar.rules().get(rule.0 as usize) {
            Some(rule) => {
                text.extend_from_slice(self.sheet.name(rule.left))?;
                text.extend_from_slice(b" :")?;
                self.push_side(text, &rule.right, dot)
            }
            None => {
                text.extend_from_slice(b"$accept :")?;
                self.push_side(text, &[Sym::Name(grammar.start())], dot)
            }
        }
    }

    /// Adds an item.
    pub(crate) fn push_item(&self, text: &mut Vec<u8>, item: &Item) -> Result<(), NoMemory>
        requires { IsItemOf self.now.grammar item.now }
        ensures { OnOk result (text.new.items ≡ text.old.items ++ item_text self.now item.now) }
    {
        self.push_rule(text, item.rule, item.dot)?;
        text.extend_from_slice(b" ,")?;
        push_word(text, self.token_word(item.ahead))
    }

    /// Adds an item on a line that begins with two spaces.
    pub(crate) fn push_item_line(&self, text: &mut Vec<u8>, item: &Item) -> Result<(), NoMemory>
        requires { IsItemOf self.now.grammar item.now }
        ensures { OnOk result (text.new.items ≡ text.old.items ++ indented (item_text self.now item.now)) }
    {
        text.extend_from_slice(b"  ")?;
        self.push_item(text, item)?;
        text.extend_from_slice(b"\n")?;
        Ok(())
    }
}
