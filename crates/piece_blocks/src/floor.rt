ghost use Rattle.std.specs.Prelude.{◌≡◌, ◌==◌, if◌then◌else◌, Some, None};
ghost use Rattle.piece_theory.specs.Pieces.{fault_at};

use crate::faults::Faults;
use grammar_data::{RuleId, StateId, Token};
use node_data::NodeRef;
use state_sets::Arrow;
use std::marker::Model;

/// What opened a floor: the rule of the reduction, how many of its symbols are hidden in the stack below, at least one and
/// not all, and the node that it made.
#[derive(Clone, Copy, Debug)]
pub struct Opened {
    pub node: NodeRef,
    pub rule: RuleId,
    pub hidden: u32,
}

impl Model for Opened {
    ghost use Rattle.piece_theory.specs.Pieces.{Opened as OpenedBy};

    ghost Value = { OpenedBy };

    ghost view = { λ s. record { rule = s.rule; hidden = s.hidden; node = s.node } };

    ghost inverse = { λ opened. record { node = opened.node; rule = opened.rule; hidden = opened.hidden } };
}

/// A start at which the tokens of a piece err: in this state on top, under the token at this index, counted from the piece's
/// first token.
#[derive(Clone, Copy, Debug)]
pub struct StartFault {
    pub token: Token,
    pub start: StateId,
    pub index: u32,
    pub state: StateId,
}

impl Model for StartFault {
    ghost use Rattle.piece_theory.specs.Pieces.{Fault};

    ghost Value = { Fault };

    ghost view = { λ s. record { start = s.start; index = s.index; token = s.token; state = s.state } };

    ghost inverse = { λ fault. record { token = fault.token; start = fault.start; index = fault.index; state = fault.state } };
}

impl StartFault {
    /// The fault, where it is that of this start.
    pub(crate) fn of(&self, start: StateId) -> Option<StartFault>
        ensures { result ≡ (if self.now.start == start then Some self.now else None) }
    {
        if self.start == start {
            Some(*self)
        } else {
            None
        }
    }
}

/// A floor of a piece: what opened it, which is nothing for the first one; the starts that are alive, each with the start of
/// the floor below that it leads to, on the first floor with itself; and the starts that err.
#[derive(Debug, Drop)]
pub struct Floor {
    starts: Arrow,
    faults: Faults,
    opened: Option<Opened>,
}

impl Model for Floor {
    ghost use Rattle.piece_theory.specs.Pieces.{Floor as FloorParts};

    ghost Value = { FloorParts };

    ghost view = { λ s. record { opened = s.opened; starts = s.starts; faults = s.faults } };
}

impl Floor {
    /// A floor.
    pub fn new(opened: Option<Opened>, starts: Arrow, faults: Faults) -> Floor
        ensures { result ≡ record { opened = opened; starts = starts; faults = faults } }
    {
        Floor {
            starts,
            faults,
            opened,
        }
    }

    /// What opened it; nothing for the first floor.
    pub fn opened(&self) -> Option<Opened>
        ensures { result ≡ self.now.opened }
    {
        self.opened
    }

    /// The alive starts, each with the start of the floor below.
    pub fn starts(&self) -> &Arrow
        ensures { result.now ≡ self.now.starts }
    {
        &self.starts
    }

    /// The fault of a start; `None` exactly where it has none.
    pub fn fault(&self, start: StateId) -> Option<StartFault>
        ensures { result ≡ fault_at self.now.faults start }
    {
        self.faults.find(start)
    }

    /// The parts of a floor: what opened it, its alive starts, and the starts that err.
    pub fn into_parts(self) -> (Option<Opened>, Arrow, Faults)
        ensures { self ≡ record { opened = result.0; starts = result.1; faults = result.2 } }
    {
        (self.opened, self.starts, self.faults)
    }

    /// The starts that err.
    pub fn faults(&self) -> &Faults
        ensures { result.now ≡ self.now.faults }
    {
        &self.faults
    }
}
