ghost use Rattle.grammar_faults.specs.Building.{OneFaultLaw, BuildableLaw};

/// A grammar has one first fault at most, and none where it has tables.
pub fn grammar_fault_laws()
    ensures one { OneFaultLaw }
    ensures buildable { BuildableLaw }
{}
