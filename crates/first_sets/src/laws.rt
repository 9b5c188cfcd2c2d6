ghost use Rattle.first_sets.specs.NameFaults.{OneNameFaultLaw, UsefulLaw};

/// No name is due as useless where all are useful, and one name at most is due.
pub fn name_fault_laws()
    ensures useful { UsefulLaw }
    ensures one_fault { OneNameFaultLaw }
{}
