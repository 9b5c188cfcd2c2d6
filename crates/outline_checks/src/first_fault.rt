//! The first of some faults.
ghost use Rattle.std.specs.Prelude.{◌≡◌, IsTrue, ◌↔◌, None};
ghost use Rattle.outline_data.specs.Keys.{IsNoLater};
ghost use Rattle.outline_checks.specs.Noted.{IsCovered, Noted};

use outline_data::SheetFault;

/// The first of the faults that were noted: on the least line the one with the least number.
#[derive(Drop)]
pub struct FirstFault {
    pub fault: Option<SheetFault>,
}

impl FirstFault {
    /// None was noted.
    pub fn new() -> FirstFault
        ensures { result.fault ≡ None }
    {
        FirstFault { fault: None }
    }

    /// Notes the fault, where it is one.
    pub fn note_if(&mut self, is_fault: bool, fault: SheetFault)
        ensures { Noted self.old.fault self.new.fault (λ f. IsTrue is_fault × (f ≡ fault)) }
    {
        if is_fault && !self.is_covering(&fault) {
            self.fault = Some(fault);
        }
    }

    /// Whether a fault was noted that comes no later.
    fn is_covering(&self, fault: &SheetFault) -> bool
        ensures { IsTrue result ↔ IsCovered self.now.fault fault.now }
    {
        match self.fault {
            Some(first) => is_no_later(&first, fault),
            None => false,
        }
    }
}

/// Whether the fault stands on an earlier line than the other, or on one line with it and has no greater number.
fn is_no_later(fault: &SheetFault, other: &SheetFault) -> bool
    ensures { IsTrue result ↔ IsNoLater fault.now other.now }
{
    if fault.line() == other.line() {
        return fault.number() <= other.number();
    }
    fault.line() < other.line()
}
