ghost use Rattle.std.specs.Prelude.{◌≡◌, [], ◌∷◌, ◌++◌, IfOk, OnOk, OnErr};
ghost use Rattle.piece_theory.specs.Pieces.{fault_at};
ghost use Rattle.piece_blocks.specs.Faults.{faults_in, lost};

use crate::floor::StartFault;
use grammar_data::{StateId, Token};
use lr_base::NoMemory;
use state_sets::Arrow;
use std::alloc::Global;
use std::marker::Model;

/// Starts that err together: one of them, or those that a look at the token with this index leaves out, by the maps before it
/// and after it.
#[derive(Debug, Drop)]
pub enum Event {
    Look {
        before: Arrow,
        after: Arrow,
        token: Token,
        index: u32,
    },
    One(StartFault),
}

impl Event {
    /// The fault of a start.
    fn find(&self, start: StateId) -> Option<StartFault>
        ensures { result ≡ fault_at (faults_in self.now) start }
    {
        match self {
            Event::One(fault) => fault.of(start),
            Event::Look {
                before,
                after,
                token,
                index,
            } => lost_fault(before, after, *token, *index, start),
        }
    }
}

/// The fault of a start among those of the starts that a look leaves out.
fn lost_fault(
    before: &Arrow,
    after: &Arrow,
    token: Token,
    index: u32,
    start: StateId,
) -> Option<StartFault>
    ensures { result ≡ fault_at (lost before.now after.now token index) start }
{
    if after.target(start).is_some() {
        return None;
    }
    let state = before.target(start)?;
    Some(StartFault {
        token,
        start,
        index,
        state,
    })
}

/// The starts of a floor that err, which contracts see as the list of their faults. Those that err at one look share its maps.
#[derive(Debug, Drop)]
pub struct Faults {
    events: Vec<Event>,
}

impl Model for Faults {
    ghost use Rattle.std.specs.Prelude.{List};
    ghost use Rattle.std.specs.List.{flat_map};
    ghost use Rattle.piece_theory.specs.Pieces.{Fault};
    ghost use Rattle.piece_blocks.specs.Faults.{faults_in};

    ghost Value = { List Fault };

    ghost view = { λ s. flat_map faults_in s.events.items };
}

impl Faults {
    /// No start errs.
    pub fn new(alloc: Global) -> Faults
        ensures { result ≡ [] }
    {
        Faults {
            events: Vec::new(alloc),
        }
    }

    /// Puts a fault behind the others. A refused call leaves them as they were.
    pub fn push(&mut self, fault: StartFault) -> Result<(), NoMemory>
        ensures added { OnOk result (self.new ≡ self.old ++ fault ∷ []) }
        ensures err { OnErr result (self.new ≡ self.old) }
    {
        self.events.push(Event::One(fault))?;
        Ok(())
    }

    /// Puts behind the others the faults of the starts that a look at the token with this index leaves out, in their order. A
    /// refused call leaves them as they were.
    pub fn push_look(
        &mut self,
        before: &Arrow,
        after: &Arrow,
        token: Token,
        index: u32,
    ) -> Result<(), NoMemory>
        ensures added { OnOk result (self.new ≡ self.old ++ lost before.now after.now token index) }
        ensures err { OnErr result (self.new ≡ self.old) }
    {
        let before = before.copy()?;
        let after = after.copy()?;
        self.events.push(Event::Look {
            before,
            after,
            token,
            index,
        })?;
        Ok(())
    }

    /// The first fault of a start; `None` exactly where it has none.
    pub fn find(&self, start: StateId) -> Option<StartFault>
        ensures { result ≡ fault_at self.now start }
    {
        for event in &self.events {
            if let Some(fault) = event.find(start) {
                return Some(fault);
            }
        }
        None
    }

    /// All of them.
    pub fn list(&self, alloc: Global) -> Result<Vec<StartFault>, NoMemory>
        ensures { IfOk result (λ faults. faults.items ≡ self.now) }
    {
        let mut faults = Vec::new(alloc);
        for event in &self.events {
            add_faults(&mut faults, event)?;
        }
        Ok(faults)
    }

    /// No start errs any more.
    pub fn clear(&mut self)
        ensures { self.new ≡ [] }
    {
        self.events.clear();
    }

    /// Gives back the room that isn't needed.
    pub fn shrink(&mut self)
        ensures { self.new ≡ self.old }
    {
        self.events.shrink_to_fit();
    }
}

/// Puts the faults of an event behind others.
fn add_faults(faults: &mut Vec<StartFault>, event: &Event) -> Result<(), NoMemory>
    ensures { OnOk result (faults.new.items ≡ faults.old.items ++ faults_in event.now) }
{
    match event {
        Event::One(fault) => {
            faults.push(*fault)?;
            Ok(())
        }
        Event::Look {
            before,
            after,
            token,
            index,
        } => add_lost(faults, before, after, token, *index),
    }
}

/// Puts behind faults those of the starts that a look leaves out.
fn add_lost(
    faults: &mut Vec<StartFault>,
    before: &Arrow,
    after: &Arrow,
    token: &Token,
    index: u32,
) -> Result<(), NoMemory>
    ensures { OnOk result (faults.new.items ≡ faults.old.items ++ lost before.now after.now token.now index) }
{
    for i in 0..before.len() {
        let (start, state) = before.pair(i);
        if after.target(start).is_some() {
            continue;
        }
        faults.push(StartFault {
            token: *token,
            start,
            index,
            state,
        })?;
    }
    Ok(())
}
