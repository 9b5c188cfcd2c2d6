//! What prints the rules of a sheet.
ghost use Rattle.std.specs.Prelude.{◌≡◌, [], slice_get, unwrap_or};
ghost use Rattle.sheet_theory.specs.Names.{token_names};

use crate::print::{push_last, push_tail, push_word};
use crate::sheet::Sheet;
use lr_base::{NoMemory, Rule, RuleId, Sym};
use sheet_data::{Bytes, Part};

/// A sheet, and the printed names of its tokens.
#[derive(Clone, Copy, Debug)]
pub struct Printer<'a> {
    sheet: &'a Sheet,
    tokens: &'a [Bytes],
    ghost named: { tokens.now ≡ token_names sheet.now },
}

impl<'a> Printer<'a> {
    ghost use Rattle.std.specs.Prelude.{◌<◌, ◌++◌, List, ℕ, length, map, codes, Some, OnOk};
    ghost use Rattle.std.specs.List.{flat_map};
    ghost use Rattle.grammar_data.specs.declared.rule.Sym.TheVariants.{Name};
    ghost use Rattle.outline_theory.specs.Layout.{line_text, symbol_text, rule_lines};
    ghost use Rattle.sheet_reader.specs.Printing.{spaced, ended, head_text, rule_text};

    pub fn new(sheet: &'a Sheet, tokens: &'a [Bytes]) -> Printer<'a>
        requires { tokens.now ≡ token_names sheet.now }
        ensures { result.sheet.now ≡ sheet.now }
    {
        Printer { sheet, tokens }
    }

    /// The printed name of a symbol.
    fn symbol_word(&self, symbol: Sym) -> &[u8]
        ensures { result.now ≡ symbol_text self.now.sheet.now symbol }
    {
        match symbol {
            Sym::Token(token) => word_at(self.tokens, token.0 as usize),
            Sym::Name(name) => word_at(self.sheet.names(), name.0 as usize),
        }
    }

    /// Adds the printed name of a symbol and a space.
    fn push_symbol(&self, text: &mut Vec<u8>, symbol: Sym) -> Result<(), NoMemory>
        ensures { OnOk result (text.new.items ≡ text.old.items ++ spaced (symbol_text self.now.sheet.now symbol)) }
    {
        push_word(text, self.symbol_word(symbol))
    }

    /// Adds the symbols of a right side.
    fn push_symbols(&self, text: &mut Vec<u8>, symbols: &[Sym]) -> Result<(), NoMemory>
        ensures { OnOk result (text.new.items ≡ text.old.items ++ flat_map spaced (map (symbol_text self.now.sheet.now) symbols.now)) }
    {
        for symbol in symbols {
            self.push_symbol(text, *symbol)?;
        }
        Ok(())
    }

    /// Adds the beginning of a rule's line, up to its template.
    fn push_head(&self, text: &mut Vec<u8>, rule: &Rule) -> Result<(), NoMemory>
        ensures { OnOk result (text.new.items ≡ text.old.items ++ head_text self.now.sheet.now rule.now) }
    {
        self.push_symbol(text, Sym::Name(rule.left))?;
        push_word(text, b":")?;
        self.push_symbols(text, &rule.right)?;
        push_word(text, b"{")
    }

    /// Adds a rule's line.
    fn push_rule(
        &self,
        text: &mut Vec<u8>,
        rule: &Rule,
        template: &[Part],
        declares: &[u32],
    ) -> Result<(), NoMemory>
        ensures { OnOk result (text.new.items ≡ text.old.items ++ rule_text self.now.sheet.now rule.now template.now declares.now) }
    {
        self.push_head(text, rule)?;
        push_tail(text, template, declares)
    }

    /// Adds the line of the rule of this number.
    fn push_rule_of(&self, text: &mut Vec<u8>, number: u32) -> Result<(), NoMemory>
        requires { number < length self.now.sheet.now.grammar.rules }
        ensures { OnOk result ((words : List (List ℕ)) → slice_get (rule_lines self.now.sheet.now self.now.sheet.now.grammar.rules self.now.sheet.now.templates self.now.sheet.now.declares) number ≡ Some words → text.new.items ≡ text.old.items ++ line_text words) }
    {
        let sheet = self.sheet;
        let rule = &sheet.grammar().rules()[number as usize];
        let template = sheet.template(RuleId(number));
        let declares = sheet.declares(RuleId(number));
        self.push_rule(text, rule, template, declares)
    }

    /// Adds the rules' lines.
    pub fn push_rules(&self, text: &mut Vec<u8>) -> Result<(), NoMemory>
        ensures { OnOk result (text.new.items ≡ text.old.items ++ flat_map line_text (rule_lines self.now.sheet.now self.now.sheet.now.grammar.rules self.now.sheet.now.templates self.now.sheet.now.declares)) }
    {
        for number in 0..self.sheet.rule_count() {
            self.push_rule_of(text, number)?;
        }
        Ok(())
    }

    /// Adds the line of the start.
    pub fn push_start(&self, text: &mut Vec<u8>) -> Result<(), NoMemory>
        ensures { OnOk result (text.new.items ≡ (text.old.items ++ spaced (codes "%start")) ++ ended (symbol_text self.now.sheet.now (Name self.now.sheet.now.grammar.start))) }
    {
        push_word(text, b"%start")?;
        push_last(
            text,
            self.symbol_word(Sym::Name(self.sheet.grammar().start())),
        )
    }
}

/// The word at a place; nothing behind the last one.
fn word_at(words: &[Bytes], place: usize) -> &[u8]
    ensures { result.now ≡ unwrap_or (slice_get words.now place) [] }
{
    match words.get(place) {
        Some(word) => word.as_slice(),
        None => &[],
    }
}
