ghost use Rattle.std.specs.Prelude.{◌≡◌, ◌+◌, ◌<◌, ◌≤◌, ◌↔◌, ◌++◌, [], ◌∷◌, IfOk, IfSome, IsTrue, OnOk, OnErr, length};
ghost use Rattle.grammar_data.specs.declared.rule.Sym.TheVariants.{Name};
ghost use Rattle.map_theory.specs.Relations.{IsThenSymbol};
ghost use Rattle.state_sets.specs.Within.{AreWithin};
ghost use Rattle.arrow_table.specs.Looks.{Grows, HasMap, IsLook, IsLookFrom, map_at};
ghost use Rattle.arrow_table.specs.Questions.{IsAnswer, IsAsked};

use crate::forgotten::Forgotten;
use crate::id::ArrowId;
use crate::interning::{print_of, same_map};
use crate::known::Known;
use crate::look::Look;
use crate::memo::{Memo, Question};
use crate::rows::{Rows, names_of};
use lr_base::{NameId, NoMemory, TokenId};
use lr_machine::Tables;
use state_sets::Arrow;
use std::alloc::Global;
use std::collections::HashMap;
use std::marker::Model;

/// The maps of states that a parse by some tables comes to. Contracts see the tables, the list of all maps that ever had a
/// number, and the base: the maps of numbers below it are forgotten, and the others are kept. A number never means another
/// map, and one that isn't below the base stands.
#[derive(Drop)]
pub struct Arrows<'a> {
    pub(crate) tables: &'a Tables,
    pub(crate) forgotten: Vec<Forgotten>,
    pub(crate) base: u32,
    pub(crate) maps: Vec<Arrow>,
    pub(crate) prints: HashMap<u64, ArrowId>,
    pub(crate) looks: Rows,
    pub(crate) steps: Rows,
    pub(crate) memo: Memo,
    pub(crate) pairs: usize,
    pub(crate) copied: usize,
}

impl<'a> Model for Arrows<'a> {
    ghost use Rattle.std.specs.Prelude.{ℕ, List};
    ghost use Rattle.table_data.specs.Tables.{Tables as TableParts};
    ghost use Rattle.map_theory.specs.Maps.{StateMap};
    ghost use Rattle.arrow_table.specs.Cells.{IsTable};
    ghost use Rattle.arrow_table.specs.Forgetting.{all_maps};

    ghost Value = { TableParts × List StateMap × ℕ };

    ghost view = { λ s. (s.tables.now, all_maps s.forgotten.items s.maps.items, s.base) };

    ghost invariant = { λ s. IsTable s.tables.now s.forgotten.items s.maps.items s.base s.looks s.steps s.memo };
}

impl<'a> Arrows<'a> {
    /// No map yet.
    pub fn new(alloc: Global, tables: &'a Tables) -> Arrows<'a>
        ensures { result ≡ (tables.now, [], 0) }
    {
        Arrows {
            tables,
            forgotten: Vec::new(alloc),
            base: 0,
            maps: Vec::new(alloc),
            prints: HashMap::new(alloc),
            looks: Rows::new(alloc, tables.end().0 as usize + 1),
            steps: Rows::new(alloc, names_of(tables)),
            memo: Memo::new(alloc),
            pairs: 0,
            copied: 0,
        }
    }

    /// The tables.
    pub fn tables(&self) -> &Tables
        ensures { result.now ≡ self.now.0 }
    {
        self.tables
    }

    /// Whether the map with a number is kept.
    pub fn stands(&self, id: ArrowId) -> bool
        ensures { IsTrue result ↔ self.now.2 ≤ id }
    {
        self.base <= id.number()
    }

    /// The map with a number.
    pub fn map(&self, id: ArrowId) -> &Arrow
        requires id { id < length self.now.1 }
        requires stands { self.now.2 ≤ id }
        ensures map { result.now ≡ map_at self.now.1 id }
        ensures within { AreWithin self.now.0.states result.now }
    {
        &self.maps[(id.number() - self.base) as usize]
    }

    /// A copy of the map with a number, to be kept without the table.
    pub fn copy(&self, id: ArrowId) -> Result<Arrow, NoMemory>
        requires id { id < length self.now.1 }
        requires stands { self.now.2 ≤ id }
        ensures { IfOk result (λ arrow. arrow ≡ map_at self.now.1 id) }
    {
        self.map(id).copy()
    }

    /// The number of a map, where a hint leads to the same map.
    fn standing(&self, hint: Option<ArrowId>, arrow: &Arrow) -> Option<ArrowId>
        ensures map { IfSome result (λ id. (id < length self.now.1) × (map_at self.now.1 id ≡ arrow.now)) }
        ensures stands { IfSome result (λ id. self.now.2 ≤ id) }
    {
        let id = hint?;
        let place = id.number().checked_sub(self.base)?;
        let map = self.maps.get(place as usize)?;
        if !same_map(map, arrow) {
            return None;
        }
        Some(id)
    }

    /// Puts a map last.
    fn push(&mut self, arrow: Arrow) -> Result<ArrowId, NoMemory>
        requires { AreWithin self.old.0.states arrow }
        ensures tables { self.new.0 ≡ self.old.0 }
        ensures base { self.new.2 ≡ self.old.2 }
        ensures added { OnOk result (self.new.1 ≡ self.old.1 ++ arrow ∷ []) }
        ensures id { IfOk result (λ id. id ≡ length self.old.1) }
        ensures same { OnErr result (self.new.1 ≡ self.old.1) }
    {
        let place = self.base as usize + self.maps.len();
        if place > u32::MAX as usize {
            return Err(NoMemory);
        }
        let pairs = self.pairs.saturating_add(arrow.len() as usize);
        self.maps.push(arrow)?;
        self.pairs = pairs;
        Ok(ArrowId::of(place as u32))
    }

    /// The number of a map. One that stands may be found by its print; else the map is put last. So it is after an error too that
    /// one more map may be there.
    pub fn add(&mut self, arrow: Arrow) -> Result<ArrowId, NoMemory>
        requires { AreWithin self.old.0.states arrow }
        ensures tables { self.new.0 ≡ self.old.0 }
        ensures base { self.new.2 ≡ self.old.2 }
        ensures grows { Grows self.old.1 self.new.1 }
        ensures few { length self.new.1 ≤ length self.old.1 + 1 }
        ensures within { IfOk result (λ id. id < length self.new.1) }
        ensures stands { IfOk result (λ id. self.new.2 ≤ id) }
        ensures map { IfOk result (λ id. map_at self.new.1 id ≡ arrow) }
    {
        let print = print_of(&arrow);
        let hint = self.prints.get(&print).copied();
        if let Some(id) = self.standing(hint, &arrow) {
            return Ok(id);
        }
        let id = self.push(arrow)?;
        self.prints.insert(print, id)?;
        Ok(id)
    }

    /// What a look at a token says of a map, where it is known.
    pub(crate) fn known_look(&self, id: ArrowId, token: TokenId) -> Option<Look>
        requires { self.now.2 ≤ id }
        ensures look { IfSome result (IsLook self.now.0 token (map_at self.now.1 id) self.now.1) }
        ensures stands { IfSome result (IsLookFrom self.now.2) }
    {
        let column = token.0 as usize;
        if column >= self.looks.width() {
            return None;
        }
        self.looks.get(id.number() - self.base, column).look()
    }

    /// Keeps what a look at a token says of a map.
    pub(crate) fn note_look(
        &mut self,
        id: ArrowId,
        token: TokenId,
        look: &Look,
    ) -> Result<(), NoMemory>
        requires id { id < length self.old.1 }
        requires stands { self.old.2 ≤ id }
        requires look { IsLook self.old.0 token (map_at self.old.1 id) self.old.1 look.now }
        requires from { IsLookFrom self.old.2 look.now }
        ensures { self.new ≡ self.old }
    {
        let column = token.0 as usize;
        if column >= self.looks.width() {
            return Ok(());
        }
        self.looks
            .set(id.number() - self.base, column, Known::by(*look))
    }

    /// The map that is one step on along a name, where it is known.
    pub(crate) fn known_step(&self, id: ArrowId, name: NameId) -> Option<ArrowId>
        requires { self.now.2 ≤ id }
        ensures step { IfSome result (λ to. HasMap self.now.1 to
            (IsThenSymbol self.now.0 (Name name) (map_at self.now.1 id))) }
        ensures stands { IfSome result (λ to. self.now.2 ≤ to) }
    {
        let column = name.0 as usize;
        if column >= self.steps.width() {
            return None;
        }
        match self.steps.get(id.number() - self.base, column) {
            Known::Step(to) => Some(to),
            _ => None,
        }
    }

    /// Keeps which map is one step on along a name.
    pub(crate) fn note_step(
        &mut self,
        id: ArrowId,
        name: NameId,
        to: ArrowId,
    ) -> Result<(), NoMemory>
        requires id { id < length self.old.1 }
        requires stands { self.old.2 ≤ id }
        requires to { HasMap self.old.1 to (IsThenSymbol self.old.0 (Name name) (map_at self.old.1 id)) }
        requires from { self.old.2 ≤ to }
        ensures { self.new ≡ self.old }
    {
        let column = name.0 as usize;
        if column >= self.steps.width() {
            return Ok(());
        }
        self.steps
            .set(id.number() - self.base, column, Known::Step(to))
    }

    /// The answer to a question, where it is known.
    pub(crate) fn known_answer(&self, question: &Question) -> Option<ArrowId>
        ensures answer { IfSome result (IsAnswer self.now.0 self.now.1 self.now.1 question.now) }
        ensures stands { IfSome result (λ to. self.now.2 ≤ to) }
    {
        self.memo.find(question)
    }

    /// Keeps the answer to a question.
    pub(crate) fn note_answer(&mut self, question: Question, to: ArrowId) -> Result<(), NoMemory>
        requires asked { IsAsked self.old.0 self.old.1 question }
        requires to { IsAnswer self.old.0 self.old.1 self.old.1 question to }
        requires from { self.old.2 ≤ to }
        ensures { self.new ≡ self.old }
    {
        self.memo.keep(question, to)
    }
}
