ghost use Rattle.sheet_laws.specs.Laws.{SizesLaw, SomeSheetLaw, OneSheetOfLaw, OneSheetLaw, OneLineFaultLaw, OneFirstFaultLaw, NoFirstFaultLaw, SheetOrFaultLaw};

/// A sheet's patterns and literals have no more positions, together, than the bytes of its outline.
pub fn sizes_law()
    ensures { SizesLaw }
{}

/// It is refuted that a faultless outline has no sheet, and an outline has one at most.
pub fn sheet_of_law()
    ensures some { SomeSheetLaw }
    ensures one { OneSheetOfLaw }
{}

/// Bytes are one sheet at most.
pub fn one_sheet_law()
    ensures { OneSheetLaw }
{}

/// An outline has one first fault on its lines at most.
pub fn one_line_fault_law()
    ensures { OneLineFaultLaw }
{}

/// Bytes have one first fault at most.
pub fn one_first_fault_law()
    ensures { OneFirstFaultLaw }
{}

/// A sheet has no fault.
pub fn no_first_fault_law()
    ensures { NoFirstFaultLaw }
{}

/// It is refuted that bytes are no sheet and have no first fault.
pub fn sheet_or_fault_law()
    ensures { SheetOrFaultLaw }
{}
