ghost use Rattle.outline_laws.specs.Laws.{OneOutlineLaw, OneFaultLaw, NoFaultLaw, SomeAnswerLaw};

/// Bytes have one outline at most.
pub fn one_outline_law()
    ensures { OneOutlineLaw }
{}

/// Bytes have one lexical fault at most.
pub fn one_fault_law()
    ensures { OneFaultLaw }
{}

/// An outline and a lexical fault exclude each other.
pub fn apart_law()
    ensures { NoFaultLaw }
{}

/// Bytes have one of the two.
pub fn some_answer_law()
    ensures { SomeAnswerLaw }
{}
