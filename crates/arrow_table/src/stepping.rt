ghost use Rattle.std.specs.Prelude.{◌≡◌, ◌<◌, ◌≤◌, IfOk, length};
ghost use Rattle.grammar_data.specs.declared.rule.Sym.TheVariants.{Name};
ghost use Rattle.map_theory.specs.Relations.{IsThenSymbol};
ghost use Rattle.state_sets.specs.Within.{HasSymbol};
ghost use Rattle.arrow_table.specs.Looks.{Grows, HasMap, map_at};

use crate::arrows::Arrows;
use crate::id::ArrowId;
use crate::memo::Question;
use lr_base::{NameId, NoMemory, Sym};
use std::alloc::Global;

impl<'a> Arrows<'a> {
    /// A step along a symbol, by the tables.
    pub(crate) fn find_step(
        &mut self,
        alloc: Global,
        id: ArrowId,
        symbol: Sym,
    ) -> Result<ArrowId, NoMemory>
        requires id { id < length self.old.1 }
        requires stands { self.old.2 ≤ id }
        requires symbol { HasSymbol self.old.0 symbol }
        ensures tables { self.new.0 ≡ self.old.0 }
        ensures base { self.new.2 ≡ self.old.2 }
        ensures grows { Grows self.old.1 self.new.1 }
        ensures then { IfOk result (λ to. HasMap self.new.1 to
            (IsThenSymbol self.old.0 symbol (map_at self.old.1 id))) }
        ensures stands { IfOk result (λ to. self.new.2 ≤ to) }
    {
        let map = self.map(id).then_symbol(alloc, self.tables(), symbol)?;
        self.add(map)
    }

    /// A step along a name, which is kept.
    fn step_name(&mut self, alloc: Global, id: ArrowId, name: NameId) -> Result<ArrowId, NoMemory>
        requires id { id < length self.old.1 }
        requires stands { self.old.2 ≤ id }
        requires name { HasSymbol self.old.0 (Name name) }
        ensures tables { self.new.0 ≡ self.old.0 }
        ensures base { self.new.2 ≡ self.old.2 }
        ensures grows { Grows self.old.1 self.new.1 }
        ensures then { IfOk result (λ to. HasMap self.new.1 to
            (IsThenSymbol self.old.0 (Name name) (map_at self.old.1 id))) }
        ensures stands { IfOk result (λ to. self.new.2 ≤ to) }
    {
        if let Some(to) = self.known_step(id, name) {
            return Ok(to);
        }
        let to = self.find_step(alloc, id, Sym::Name(name))?;
        self.note_step(id, name, to)?;
        Ok(to)
    }

    /// Each target of a map followed along a symbol; a start is left out exactly where there is no step.
    pub fn step(&mut self, alloc: Global, id: ArrowId, symbol: Sym) -> Result<ArrowId, NoMemory>
        requires id { id < length self.old.1 }
        requires stands { self.old.2 ≤ id }
        requires symbol { HasSymbol self.old.0 symbol }
        ensures tables { self.new.0 ≡ self.old.0 }
        ensures base { self.new.2 ≡ self.old.2 }
        ensures grows { Grows self.old.1 self.new.1 }
        ensures then { IfOk result (λ to. HasMap self.new.1 to
            (IsThenSymbol self.old.0 symbol (map_at self.old.1 id))) }
        ensures stands { IfOk result (λ to. self.new.2 ≤ to) }
    {
        match symbol {
            Sym::Name(name) => self.step_name(alloc, id, name),
            Sym::Token(token) => self.ask(alloc, Question::Shift(id, token)),
        }
    }
}
