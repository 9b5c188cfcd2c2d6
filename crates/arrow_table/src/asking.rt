ghost use Rattle.std.specs.Prelude.{◌≡◌, ◌≤◌, IfOk};
ghost use Rattle.state_sets.specs.Within.{AreWithin};
ghost use Rattle.arrow_table.specs.Looks.{Grows};
ghost use Rattle.arrow_table.specs.Questions.{Answers, IsAnswer, IsAsked, IsAskedFrom};

use crate::arrows::Arrows;
use crate::id::ArrowId;
use crate::memo::Question;
use lr_base::{NoMemory, RuleId, Sym};
use lr_machine::Tables;
use state_sets::{Arrow, shift_starts};
use std::alloc::Global;

impl<'a> Arrows<'a> {
    /// The map that answers a question, by the tables.
    fn found(&self, alloc: Global, question: &Question) -> Result<Arrow, NoMemory>
        requires asked { IsAsked self.now.0 self.now.1 question.now }
        requires from { IsAskedFrom self.now.2 question.now }
        ensures answers { IfOk result (Answers self.now.0 self.now.1 question.now) }
        ensures within { IfOk result (AreWithin self.now.0.states) }
    {
        match *question {
            Question::Open(token) => shift_starts(alloc, self.tables(), token),
            Question::Identity(id) => self.map(id).identity(alloc),
            Question::Restrict(id, keep) => self.map(id).restrict(alloc, self.map(keep)),
            Question::Back(id, rule, hidden) => {
                let symbols = &self.tables().right(rule)[..hidden as usize];
                self.map(id).back(alloc, self.tables(), symbols)
            }
            Question::Shift(id, token) => {
                self.map(id)
                    .then_symbol(alloc, self.tables(), Sym::Token(token))
            }
        }
    }

    /// Puts the map that answers a question into the table, and keeps the answer.
    fn answer(&mut self, question: Question, arrow: Arrow) -> Result<ArrowId, NoMemory>
        requires asked { IsAsked self.old.0 self.old.1 question }
        requires answers { Answers self.old.0 self.old.1 question arrow }
        requires within { AreWithin self.old.0.states arrow }
        ensures tables { self.new.0 ≡ self.old.0 }
        ensures base { self.new.2 ≡ self.old.2 }
        ensures grows { Grows self.old.1 self.new.1 }
        ensures answer { IfOk result (IsAnswer self.old.0 self.old.1 self.new.1 question) }
        ensures stands { IfOk result (λ to. self.new.2 ≤ to) }
    {
        let to = self.add(arrow)?;
        self.note_answer(question, to)?;
        Ok(to)
    }

    /// The answer to a question, from what is kept or by the tables.
    pub(crate) fn ask(&mut self, alloc: Global, question: Question) -> Result<ArrowId, NoMemory>
        requires asked { IsAsked self.old.0 self.old.1 question }
        requires from { IsAskedFrom self.old.2 question }
        ensures tables { self.new.0 ≡ self.old.0 }
        ensures base { self.new.2 ≡ self.old.2 }
        ensures grows { Grows self.old.1 self.new.1 }
        ensures answer { IfOk result (IsAnswer self.old.0 self.old.1 self.new.1 question) }
        ensures stands { IfOk result (λ to. self.new.2 ≤ to) }
    {
        if let Some(to) = self.known_answer(&question) {
            return Ok(to);
        }
        let arrow = self.found(alloc, &question)?;
        self.answer(question, arrow)
    }
}
