ghost use Rattle.std.specs.Prelude.{◌≡◌, ℕ, ◌<◌, ◌≤◌, List, IfOk, length, take};
ghost use Rattle.grammar_data.specs.declared.rule.Sym.{Sym as Symbol};
ghost use Rattle.grammar_theory.specs.Rules.{IsRule};
ghost use Rattle.map_theory.specs.Relations.{AreShiftStarts, IsBack, IsIdentityOf, IsRestricted};
ghost use Rattle.arrow_table.specs.Looks.{Grows, HasMap, map_at};

use crate::arrows::Arrows;
use crate::id::ArrowId;
use crate::memo::Question;
use lr_base::{NoMemory, RuleId, TokenId};
use std::alloc::Global;

/// The maps with which a piece is opened: its starts, each to itself, and the states over its first token.
#[derive(Clone, Copy, Debug, PartialEq, Eq)]
pub struct Opening {
    pub starts: ArrowId,
    pub after: ArrowId,
}

impl<'a> Arrows<'a> {
    /// The maps of the states that shift a token.
    pub fn open(&mut self, alloc: Global, token: TokenId) -> Result<Opening, NoMemory>
        ensures tables { self.new.0 ≡ self.old.0 }
        ensures base { self.new.2 ≡ self.old.2 }
        ensures grows { Grows self.old.1 self.new.1 }
        ensures after { IfOk result (λ opening. HasMap self.new.1 opening.after (AreShiftStarts self.old.0 token)) }
        ensures starts { IfOk result (λ opening. HasMap self.new.1 opening.starts
            (IsIdentityOf (map_at self.new.1 opening.after))) }
        ensures stands { IfOk result (λ opening. (self.new.2 ≤ opening.after) × (self.new.2 ≤ opening.starts)) }
    {
        let after = self.ask(alloc, Question::Open(token))?;
        let starts = self.identity(alloc, after)?;
        Ok(Opening { starts, after })
    }

    /// Each start of a map, to itself.
    pub fn identity(&mut self, alloc: Global, id: ArrowId) -> Result<ArrowId, NoMemory>
        requires id { id < length self.old.1 }
        requires stands { self.old.2 ≤ id }
        ensures tables { self.new.0 ≡ self.old.0 }
        ensures base { self.new.2 ≡ self.old.2 }
        ensures grows { Grows self.old.1 self.new.1 }
        ensures identity { IfOk result (λ to. HasMap self.new.1 to (IsIdentityOf (map_at self.old.1 id))) }
        ensures stands { IfOk result (λ to. self.new.2 ≤ to) }
    {
        self.ask(alloc, Question::Identity(id))
    }

    /// The pairs of a map whose starts are starts of another.
    pub fn restrict(
        &mut self,
        alloc: Global,
        id: ArrowId,
        keep: ArrowId,
    ) -> Result<ArrowId, NoMemory>
        requires id { id < length self.old.1 }
        requires stands { self.old.2 ≤ id }
        requires keep { keep < length self.old.1 }
        requires keep_stands { self.old.2 ≤ keep }
        ensures tables { self.new.0 ≡ self.old.0 }
        ensures base { self.new.2 ≡ self.old.2 }
        ensures grows { Grows self.old.1 self.new.1 }
        ensures restricted { IfOk result (λ to. HasMap self.new.1 to
            (IsRestricted (map_at self.old.1 id) (map_at self.old.1 keep))) }
        ensures stands { IfOk result (λ to. self.new.2 ≤ to) }
    {
        self.ask(alloc, Question::Restrict(id, keep))
    }

    /// The states from which the first symbols of a rule lead to a start of a map, each to that start.
    pub fn back(
        &mut self,
        alloc: Global,
        id: ArrowId,
        rule: RuleId,
        hidden: u32,
    ) -> Result<ArrowId, NoMemory>
        requires id { id < length self.old.1 }
        requires stands { self.old.2 ≤ id }
        requires rule { rule < length self.old.0.rules }
        requires hidden { (n : ℕ) (right : List Symbol) → IsRule self.old.0.rules rule n right → hidden ≤ length right }
        ensures tables { self.new.0 ≡ self.old.0 }
        ensures base { self.new.2 ≡ self.old.2 }
        ensures grows { Grows self.old.1 self.new.1 }
        ensures back { IfOk result (λ to. (n : ℕ) (right : List Symbol) → IsRule self.old.0.rules rule n right
            → HasMap self.new.1 to (IsBack self.old.0 (take hidden right) (map_at self.old.1 id))) }
        ensures stands { IfOk result (λ to. self.new.2 ≤ to) }
    {
        self.ask(alloc, Question::Back(id, rule, hidden))
    }
}
