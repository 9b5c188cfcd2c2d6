ghost use Rattle.std.specs.Prelude.{◌≡◌, ◌<◌, ◌≤◌, ℕ, [], IfSome, OnOk, None, length, slice_index, slice_index_or};
ghost use Rattle.arrow_table.specs.Questions.{HasAnswer, Remembers};

use crate::id::ArrowId;
use lr_base::{NoMemory, RuleId, TokenId};
use std::alloc::Global;
use std::marker::Model;

/// What a table of maps is asked again and again, beside looks and steps along names: the map of the states that shift a
/// token; the identity of a map; a map restricted to the starts of another; the states from which the first symbols of a
/// rule's right side, so many, lead to the starts of a map; and the step of a map along a token.
#[derive(Clone, Copy, Debug, PartialEq, Eq)]
pub enum Question {
    Open(TokenId),
    Identity(ArrowId),
    Restrict(ArrowId, ArrowId),
    Back(ArrowId, RuleId, u32),
    Shift(ArrowId, TokenId),
}

/// An odd number of 64 bits, by which questions are spread over places.
const SPREAD: u64 = 0x9e37_79b9_7f4a_7c15;

impl Question {
    /// A number of 13 bits by which an answer is looked for: the highest ones of a product, which all bits of the question reach,
    /// those of its kind too. It is a hint alone: whoever finds an answer by it compares the questions.
    pub fn print(&self) -> u64 {
        let (kind, one, other) = match *self {
            Question::Open(token) => (0, token.0, 0),
            Question::Identity(id) => (1, id.number(), 0),
            Question::Restrict(id, keep) => (2, id.number(), keep.number()),
            Question::Back(id, rule, hidden) => { (3, id.number(), rule.0.rotate_left(8) ^ hidden) }
            Question::Shift(id, token) => (4, id.number(), token.0),
        };
        let mixed = (u64::from(one) << 32 | u64::from(other)) ^ kind << 61;
        mixed.wrapping_mul(SPREAD) >> 51
    }
}

/// How many answers are kept at most.
const SLOTS: usize = 8192;

/// Answers to questions, each in the place that the print of its question names. A later one may take the place of an earlier.
#[derive(Debug, Drop)]
pub struct Memo {
    questions: Vec<Option<Question>>,
    answers: Vec<ArrowId>,
}

impl Model for Memo {
    ghost use Rattle.std.specs.Prelude.{◌≤◌, length};
    ghost use Rattle.arrow_table.specs.Questions.{Kept};

    ghost Value = { Kept };

    ghost view = { λ s. (s.questions.items, s.answers.items) };

    ghost invariant = { λ s. length s.questions.items ≤ length s.answers.items };
}

/// The place of a question.
fn place_of(question: &Question) -> usize
    ensures { result < SLOTS }
{
    question.print() as usize % SLOTS
}

impl Memo {
    /// No answer yet.
    pub fn new(alloc: Global) -> Memo
        ensures { result ≡ ([], []) }
    {
        Memo {
            questions: Vec::new(alloc),
            answers: Vec::new(alloc),
        }
    }

    /// The answer to a question, where it is kept.
    pub fn find(&self, question: &Question) -> Option<ArrowId>
        ensures { IfSome result (HasAnswer self.now question.now) }
    {
        let place = place_of(question);
        let kept = self.questions.get(place)?.as_ref()?;
        if *kept != *question {
            return None;
        }
        Some(self.answers[place])
    }

    /// No answer is kept any longer.
    pub fn clear(&mut self)
        ensures { self.new ≡ ([], []) }
    {
        self.questions.clear();
        self.answers.clear();
    }

    /// Makes the places, where they aren't made yet.
    fn fill(&mut self) -> Result<(), NoMemory>
        ensures questions { (i : ℕ) → slice_index_or self.new.0 i None ≡ slice_index_or self.old.0 i None }
        ensures answers { (i : ℕ) → slice_index self.new.1 i ≡ slice_index self.old.1 i }
        ensures there { OnOk result ((SLOTS ≤ length self.new.0) × (SLOTS ≤ length self.new.1)) }
    {
        while self.questions.len() < SLOTS {
            self.answers.push(ArrowId::of(0))?;
            self.questions.push(None)?;
        }
        Ok(())
    }

    /// Keeps an answer: nothing but it is new.
    pub fn keep(&mut self, question: Question, answer: ArrowId) -> Result<(), NoMemory>
        ensures { Remembers self.old self.new question answer }
    {
        self.fill()?;
        let place = place_of(&question);
        self.questions[place] = Some(question);
        self.answers[place] = answer;
        Ok(())
    }
}
