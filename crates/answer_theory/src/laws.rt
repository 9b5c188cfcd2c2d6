ghost use Rattle.answer_theory.specs.Laws.{LoadLaw, OneAnswerLaw, SomeAnswerLaw};

/// The bytes that stand under the names of a task determine its answer: which of them have to be read, the status, and the bytes
/// that both outputs take.
pub fn one_answer_law()
    ensures { OneAnswerLaw }
{}

/// Where a task can be done and there are bytes for each name that it reads, it is refuted that it has no answer.
pub fn some_answer_law()
    ensures { SomeAnswerLaw }
{}

/// No sample text is refused, since its tokens are a sentence.
pub fn load_law()
    ensures { LoadLaw }
{}
