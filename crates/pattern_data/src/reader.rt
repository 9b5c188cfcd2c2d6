//! Reads the spelling of a pattern.
ghost use Rattle.std.specs.Prelude.{◌≡◌, [], reverse, Some, None, IfOk, OnOk, IfErr};
ghost use Rattle.pattern_data.specs.Groups.{no_group, with_sign, at_end, SyntaxOnlyIf};

use crate::fault::PatternFault;
use crate::group::Group;
use crate::pattern::Pattern;
use crate::signs::Sign;
use std::alloc::Global;
use std::mem;

/// How many brackets may be open at once.
const MOST_OPEN: usize = 50;

/// What is open while a spelling is read.
#[derive(Debug, Drop)]
pub struct Reader {
    /// The groups around the one that is being read, from the outside in.
    pub outer: Vec<Group>,
    pub group: Group,
}

impl Reader {
    /// Nothing is read yet.
    pub fn new(alloc: Global) -> Reader
        ensures group { result.group ≡ no_group }
        ensures outer { result.outer.items ≡ [] }
    {
        Reader {
            outer: Vec::new(alloc),
            group: Group::new(alloc),
        }
    }

    /// Opens a bracket.
    fn open(&mut self, alloc: Global) -> Result<(), PatternFault>
        ensures ok { OnOk result (with_sign Sign.Open self.old.group (reverse self.old.outer.items) ≡ Some (self.new.group, reverse self.new.outer.items)) }
        ensures err { IfErr result (λ fault. SyntaxOnlyIf (with_sign Sign.Open self.old.group (reverse self.old.outer.items) ≡ None) fault) }
    {
        if self.outer.len() >= MOST_OPEN {
            return Err(PatternFault::Syntax);
        }
        let around = mem::replace(&mut self.group, Group::new(alloc));
        self.outer.push(around)?;
        Ok(())
    }

    /// Closes a bracket.
    fn close(&mut self, alloc: Global) -> Result<(), PatternFault>
        ensures ok { OnOk result (with_sign Sign.Close self.old.group (reverse self.old.outer.items) ≡ Some (self.new.group, reverse self.new.outer.items)) }
        ensures err { IfErr result (λ fault. SyntaxOnlyIf (with_sign Sign.Close self.old.group (reverse self.old.outer.items) ≡ None) fault) }
    {
        let Some(around) = self.outer.pop() else {
            return Err(PatternFault::Syntax);
        };
        let inside = mem::replace(&mut self.group, around);
        let pattern = inside.end(alloc)?;
        self.group.push(pattern)
    }

    /// Takes the next sign.
    pub fn take(&mut self, alloc: Global, sign: Sign) -> Result<(), PatternFault>
        ensures ok { OnOk result (with_sign sign self.old.group (reverse self.old.outer.items) ≡ Some (self.new.group, reverse self.new.outer.items)) }
        ensures err { IfErr result (λ fault. SyntaxOnlyIf (with_sign sign self.old.group (reverse self.old.outer.items) ≡ None) fault) }
    {
        match sign {
            Sign::Set(set) => self.group.push(Pattern::Set(set)),
            Sign::Open => self.open(alloc),
            Sign::Close => self.close(alloc),
            Sign::Bar => self.group.end_sequence(alloc),
            Sign::Repeat(repetition) => self.group.repeat_last(alloc, repetition),
        }
    }

    /// The pattern of the signs that were taken, where no bracket is open.
    pub fn end(self, alloc: Global) -> Result<Pattern, PatternFault>
        ensures ok { IfOk result (λ pattern. at_end self.group (reverse self.outer.items) ≡ Some pattern) }
        ensures err { IfErr result (λ fault. SyntaxOnlyIf (at_end self.group (reverse self.outer.items) ≡ None) fault) }
    {
        let Reader { outer, group } = self;
        if !outer.is_empty() {
            return Err(PatternFault::Syntax);
        }
        group.end(alloc)
    }
}
