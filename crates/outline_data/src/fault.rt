ghost use Rattle.std.specs.Prelude.{◌≡◌};
ghost use Rattle.outline_data.specs.Keys.{fault_number, fault_line};

use lr_base::NoMemory;
use std::alloc::{AllocError, AllocFailed};
use thiserror::Error;

/// What a limit counts.
#[derive(Clone, Copy, Debug, PartialEq, Eq)]
pub enum LimitKind {
    /// The bytes of the sheet: 262,144 at most.
    SheetBytes,
    /// The declared tokens and the unnamed literals together: 250.
    Tokens,
    /// The skip patterns: 50.
    Skips,
    /// The names of the grammar: 500.
    Names,
    /// The rules: 1,000.
    Rules,
    /// The symbols of one right side: 20.
    RightSide,
    /// The symbols of all right sides together: 4,000.
    Symbols,
    /// The positions of all patterns and literals together: 5,000.
    Positions,
    /// The states of the scanner: 20,000.
    ScannerStates,
}

/// Why no sheet was read. A number in a variant is the line on which the faulty lexeme begins, counted from 1; a limit
/// has the quantity that passes it.
#[derive(Clone, Copy, Debug, PartialEq, Eq, Error)]
pub enum SheetFault {
    /// A byte stands where it may not.
    #[error("line {0}: bad byte")]
    BadByte(u32),
    /// The bytes are no lexeme, or one with which no sheet goes on.
    #[error("line {0}: syntax")]
    Syntax(u32),
    /// A pattern is no spelling, or a literal has a line feed.
    #[error("line {0}: bad pattern")]
    BadPattern(u32),
    /// A pattern has the empty text, or a literal is empty.
    #[error("line {0}: pattern matches the empty text")]
    PatternMatchesEmpty(u32),
    /// A token name, a named literal or the start is declared again, or a left side is a token.
    #[error("line {0}: redeclared")]
    Redeclared(u32),
    /// A name is neither a token nor has it a rule, or the start has none.
    #[error("line {0}: unknown symbol")]
    UnknownSymbol(u32),
    /// There is no rule.
    #[error("no rules")]
    NoRules,
    /// A place is 0, or more than the right side's length.
    #[error("line {0}: place out of range")]
    PlaceOutOfRange(u32),
    /// A place is used a second time in one template, or in the marks of one rule.
    #[error("line {0}: place used twice")]
    PlaceTwice(u32),
    /// `#` or `%declares` names a part that is no token.
    #[error("line {0}: not a token")]
    NotAToken(u32),
    /// A limit is passed.
    #[error("a limit is passed")]
    Limit(LimitKind, u64),
    /// Memory ran out.
    #[error("no memory")]
    NoMemory,
}

impl SheetFault {
    /// The fault's number, by which it is printed; 0 where it has none.
    pub fn number(&self) -> u32
        ensures { result ≡ fault_number self.now }
    {
        match self {
            SheetFault::NoMemory => 0,
            SheetFault::BadByte(_) => 1,
            SheetFault::Syntax(_) => 2,
            SheetFault::BadPattern(_) => 3,
            SheetFault::PatternMatchesEmpty(_) => 4,
            SheetFault::Redeclared(_) => 5,
            SheetFault::UnknownSymbol(_) => 6,
            SheetFault::NoRules => 7,
            SheetFault::PlaceOutOfRange(_) => 8,
            SheetFault::PlaceTwice(_) => 9,
            SheetFault::NotAToken(_) => 10,
            SheetFault::Limit(_, _) => 11,
        }
    }

    /// The line on which the fault stands, counted from 1; 0 where it stands on none.
    pub fn line(&self) -> u32
        ensures { result ≡ fault_line self.now }
    {
        match self {
            SheetFault::NoRules | SheetFault::Limit(_, _) | SheetFault::NoMemory => 0,
            SheetFault::BadByte(line)
            | SheetFault::Syntax(line)
            | SheetFault::BadPattern(line)
            | SheetFault::PatternMatchesEmpty(line)
            | SheetFault::Redeclared(line)
            | SheetFault::UnknownSymbol(line)
            | SheetFault::PlaceOutOfRange(line)
            | SheetFault::PlaceTwice(line)
            | SheetFault::NotAToken(line) => *line,
        }
    }
}

impl From<NoMemory> for SheetFault {
    ghost use Rattle.std.specs.Prelude.{◌≡◌};
    ghost use Rattle.outline_data.specs.declared.fault.SheetFault.TheVariants.{NoMemory as no_memory};

    ghost from_gives = { λ _ e. e ≡ no_memory };

    fn from(_error: NoMemory) -> SheetFault {
        SheetFault::NoMemory
    }
}

impl From<AllocError> for SheetFault {
    ghost use Rattle.std.specs.Prelude.{◌≡◌};
    ghost use Rattle.outline_data.specs.declared.fault.SheetFault.TheVariants.{NoMemory as no_memory};

    ghost from_gives = { λ _ e. e ≡ no_memory };

    fn from(_error: AllocError) -> SheetFault {
        SheetFault::NoMemory
    }
}

impl<T: Drop> From<AllocFailed<T>> for SheetFault {
    ghost use Rattle.std.specs.Prelude.{◌≡◌};
    ghost use Rattle.outline_data.specs.declared.fault.SheetFault.TheVariants.{NoMemory as no_memory};

    ghost from_gives = { λ _ e. e ≡ no_memory };

    fn from(_error: AllocFailed<T>) -> SheetFault {
        SheetFault::NoMemory
    }
}
