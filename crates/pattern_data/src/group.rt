//! What stands so far in brackets, or outside of all.
ghost use Rattle.std.specs.Prelude.{◌≡◌, ◌++◌, IfOk, OnOk, IfErr, Some, None, option_to_list};
ghost use Rattle.pattern_data.specs.Spellings.{repeated, seq_of, alt_of};
ghost use Rattle.pattern_data.specs.Groups.{in_sequence, no_group, with_atom, with_bar, with_repetition, whole_of, SyntaxOnlyIf};

use crate::fault::PatternFault;
use crate::pattern::Pattern;
use crate::signs::Repetition;
use sqlite_items::{Boxed, Items};
use std::alloc::Global;
use std::mem;

/// The alternatives before the last bar, and what is behind it.
#[derive(Debug, Drop)]
pub struct Group {
    pub alternatives: Items<Pattern>,
    /// The members of the sequence that is being read.
    pub sequence: Items<Pattern>,
    /// The atom at its end, which an operator may follow.
    pub atom: Option<Pattern>,
}

/// One member is itself.
fn sequence_of(mut members: Items<Pattern>) -> Pattern
    ensures { result ≡ seq_of members }
{
    if members.len() == 1
        && let Some(member) = members.pop()
    {
        return member;
    }
    Pattern::Seq(members)
}

/// One member is itself.
fn alternatives_of(mut members: Items<Pattern>) -> Pattern
    ensures { result ≡ alt_of members }
{
    if members.len() == 1
        && let Some(member) = members.pop()
    {
        return member;
    }
    Pattern::Alt(members)
}

/// The pattern so many times.
fn repeat(alloc: Global, repetition: Repetition, inner: Pattern) -> Result<Pattern, PatternFault>
    ensures ok { IfOk result (λ pattern. pattern ≡ repeated repetition inner) }
    ensures err { IfErr result (λ fault. fault ≡ PatternFault.NoMemory) }
{
    let inner = Boxed::new(alloc, inner)?;
    Ok(match repetition {
        Repetition::Star => Pattern::Star(inner),
        Repetition::Plus => Pattern::Plus(inner),
        Repetition::Opt => Pattern::Opt(inner),
    })
}

impl Group {
    /// Nothing yet.
    pub fn new(alloc: Global) -> Group
        ensures { result ≡ no_group }
    {
        Group {
            alternatives: Items::new(alloc),
            sequence: Items::new(alloc),
            atom: None,
        }
    }

    /// Puts the atom at the end among the members, so that no operator may follow it.
    fn settle(&mut self) -> Result<(), PatternFault>
        ensures ok { OnOk result (self.new ≡ record self.old { sequence = in_sequence self.old; atom = None }) }
        ensures err { IfErr result (λ fault. fault ≡ PatternFault.NoMemory) }
    {
        if let Some(atom) = self.atom.take() {
            self.sequence.push(atom)?;
        }
        Ok(())
    }

    /// Puts an atom at the end.
    pub fn push(&mut self, pattern: Pattern) -> Result<(), PatternFault>
        ensures ok { OnOk result (self.new ≡ with_atom self.old pattern) }
        ensures err { IfErr result (λ fault. fault ≡ PatternFault.NoMemory) }
    {
        self.settle()?;
        self.atom = Some(pattern);
        Ok(())
    }

    /// Repeats the atom at the end.
    pub fn repeat_last(&mut self, alloc: Global, repetition: Repetition) -> Result<(), PatternFault>
        ensures ok { OnOk result (with_repetition self.old repetition ≡ Some self.new) }
        ensures err { IfErr result (λ fault. SyntaxOnlyIf (with_repetition self.old repetition ≡ None) fault) }
    {
        let Some(atom) = self.atom.take() else {
            return Err(PatternFault::Syntax);
        };
        let repeated = repeat(alloc, repetition, atom)?;
        self.sequence.push(repeated)?;
        Ok(())
    }

    /// Ends the sequence.
    pub fn end_sequence(&mut self, alloc: Global) -> Result<(), PatternFault>
        ensures ok { OnOk result (with_bar self.old ≡ Some self.new) }
        ensures err { IfErr result (λ fault. SyntaxOnlyIf (with_bar self.old ≡ None) fault) }
    {
        self.settle()?;
        if self.sequence.is_empty() {
            return Err(PatternFault::Syntax);
        }
        let members = mem::replace(&mut self.sequence, Items::new(alloc));
        self.alternatives.push(sequence_of(members))?;
        Ok(())
    }

    /// The whole as a pattern.
    pub fn end(mut self, alloc: Global) -> Result<Pattern, PatternFault>
        ensures ok { IfOk result (λ pattern. whole_of self ≡ Some pattern) }
        ensures err { IfErr result (λ fault. SyntaxOnlyIf (whole_of self ≡ None) fault) }
    {
        self.end_sequence(alloc)?;
        let Group {
            alternatives,
            sequence: _,
            atom: _,
        } = self;
        Ok(alternatives_of(alternatives))
    }
}
