ghost use Rattle.std.specs.Prelude.{◌≡◌, ◌+◌, ◌<◌, ◌≤◌, slice_get, Some, length, map, IfOk};

use crate::parts::{RuleTexts, rule_texts};
use crate::scan_order::{ScanOrder, rank_literals, rank_patterns, rank_unnamed};
use crate::token_text::{declared_name, quoted};
use lr_base::{Grammar, NameId, NoMemory, RuleId, TokenId};
use outline_data::Outline;
use outline_numbers::Numbered;
use sheet_data::{Bytes, Decl, Part};
use std::alloc::Global;
use std::marker::Model;

/// A grammar sheet, which contracts see as its parts.
#[derive(Debug, Drop)]
pub struct Sheet {
    decls: Vec<Decl>,
    literals: Vec<Bytes>,
    names: Vec<Bytes>,
    grammar: Grammar,
    templates: Vec<Vec<Part>>,
    declares: Vec<Vec<u32>>,
}

impl Model for Sheet {
    ghost use Rattle.sheet_data.specs.Sheet.{Sheet as SheetParts};
    ghost use Rattle.pattern_data.specs.contracts.pattern.Pattern as pattern;
    ghost use Rattle.std.specs.Coded.{codes};

    ghost Value = { SheetParts };

    ghost coded = { Prim.hlevel (codes, pattern.the_row.coded) };

    ghost use Rattle.sheet_reader.specs.Parts.{parts_of};
    ghost use Rattle.sheet_reader.specs.WellFormed.{IsWellFormed};

    ghost view = { parts_of };

    ghost invariant = { λ s. IsWellFormed (parts_of s) };
}

impl Sheet {
    ghost use Rattle.sheet_theory.specs.Names.{declared_names, token_names};
    ghost use Rattle.sheet_theory.specs.ScanOrder.{Ranked, scan_order};
    ghost use Rattle.outline_theory.specs.Numbering.{AreDecls, IsSheetOf};
    ghost use Rattle.outline_numbers.specs.Numbered.{IsNumbered};
    ghost use Rattle.numbering_theory.specs.KeptSheets.{IsOrdinary};
    ghost use Rattle.sheet_reader.specs.Ranking.{IsScannable, token_count};

    /// The sheet of an outline with its declarations and its numbers.
    pub(crate) fn of_outline(
        alloc: Global,
        outline: Outline,
        decls: Vec<Decl>,
        numbered: Numbered,
    ) -> Result<Sheet, NoMemory>
        requires decls { AreDecls outline.declarations decls.items }
        requires numbers { IsNumbered outline numbered }
        requires ordinary { IsOrdinary outline decls.items }
        ensures { IfOk result (λ sheet. IsSheetOf outline sheet) }
    {
        let Outline { groups, .. } = outline;
        let Numbered {
            literals,
            names,
            grammar,
        } = numbered;
        let RuleTexts {
            templates,
            declares,
        } = rule_texts(alloc, groups)?;
        Ok(Sheet {
            decls,
            literals,
            names,
            grammar,
            templates,
            declares,
        })
    }

    /// The declarations, in order.
    pub(crate) fn decls(&self) -> &[Decl]
        ensures { result.now ≡ self.now.decls }
    {
        &self.decls
    }

    /// How many tokens are declared; they are numbered before the literals without a name.
    fn declared_tokens(&self) -> u32
        ensures { result ≡ length (declared_names self.now.decls) }
    {
        self.grammar.tokens() - self.literals.len() as u32
    }

    /// How many rules there are.
    pub(crate) fn rule_count(&self) -> u32
        ensures rules { result ≡ length self.now.grammar.rules }
        ensures templates { length self.now.templates ≡ length self.now.grammar.rules }
        ensures declares { length self.now.declares ≡ length self.now.grammar.rules }
    {
        self.grammar.rule_count()
    }

    /// The names of the grammar, by number.
    pub(crate) fn names(&self) -> &[Bytes]
        ensures { result.now ≡ self.now.names }
    {
        &self.names
    }

    /// The grammar.
    pub fn grammar(&self) -> &Grammar
        ensures { result.now ≡ self.now.grammar }
    {
        &self.grammar
    }

    /// The template of a rule.
    pub fn template(&self, rule: RuleId) -> &[Part]
        requires { rule < length self.now.grammar.rules }
        ensures { slice_get self.now.templates rule ≡ Some result.now }
    {
        &self.templates[rule.0 as usize]
    }

    /// The places that a rule declares, counted from 1, as written.
    pub fn declares(&self, rule: RuleId) -> &[u32]
        requires { rule < length self.now.grammar.rules }
        ensures { slice_get self.now.declares rule ≡ Some result.now }
    {
        &self.declares[rule.0 as usize]
    }

    /// The text of a name of the grammar.
    pub fn name(&self, name: NameId) -> &[u8]
        requires { name < self.now.grammar.names }
        ensures { slice_get self.now.names name ≡ Some result.now }
    {
        self.names[name.0 as usize].as_slice()
    }

    /// The printed name of a token: its declared name, or its literal between quotes; the two numbers behind the
    /// tokens are those of the end of the text and of the bad byte.
    pub fn token_text(&self, a: TokenId) -> Result<Vec<u8>, NoMemory>
        requires { a ≤ self.now.grammar.tokens + 1 }
        ensures { IfOk result (λ text. slice_get (token_names self.now) a ≡ Some text.items) }
    {
        let alloc = *self.decls.allocator();
        let number = a.0 as usize;
        let declared = self.declared_tokens() as usize;
        if number < declared {
            let name = declared_name(&self.decls, number);
            return Ok(Vec::from_slice(alloc, name)?);
        }
        let unnamed = number - declared;
        if unnamed < self.literals.len() {
            return quoted(alloc, self.literals[unnamed].as_slice());
        }
        if unnamed == self.literals.len() {
            let end = Vec::from_slice(alloc, b"end of text".as_slice())?;
            return Ok(end);
        }
        let bad_byte = Vec::from_slice(alloc, b"bad byte".as_slice())?;
        Ok(bad_byte)
    }

    /// The printed names of all tokens, by number; the last two are those of the end of the text and of the bad byte.
    pub fn token_texts(&self) -> Result<Vec<Bytes>, NoMemory>
        ensures { IfOk result (λ texts. texts.items ≡ token_names self.now) }
    {
        let total = self.grammar.tokens() + 2;
        let mut texts = Vec::new(*self.decls.allocator());
        for number in 0..total {
            let text = self.token_text(TokenId(number))?;
            texts.push(Bytes::from_vec(text))?;
        }
        Ok(texts)
    }

    /// The sheet's patterns in order of rank, and what the string of each is.
    pub fn scan_order(&self) -> Result<ScanOrder, NoMemory>
        ensures patterns { IfOk result (λ order. order.patterns.items ≡ map (λ (r : Ranked). r.0) (scan_order self.now)) }
        ensures means { IfOk result (λ order. order.means.items ≡ map (λ (r : Ranked). r.1) (scan_order self.now)) }
        ensures scannable { IfOk result (λ order. IsScannable order.patterns.items) }
        ensures each { IfOk result (λ order. length order.patterns.items ≡ length order.means.items) }
        ensures tokens { IfOk result (λ order. token_count order.means.items ≡ self.now.grammar.tokens) }
    {
        let alloc = *self.decls.allocator();
        let mut ranking = Vec::new(alloc);
        rank_literals(&mut ranking, alloc, &self.decls)?;
        rank_unnamed(&mut ranking, alloc, self.declared_tokens(), &self.literals)?;
        rank_patterns(&mut ranking, alloc, &self.decls)?;
        let order = ScanOrder::of_ranking(alloc, ranking)?;
        Ok(order)
    }
}
