//! Faults of literals, and of the symbols of right sides.
ghost use Rattle.std.specs.Prelude.{◌↔◌, IsTrue, Contains};
ghost use Rattle.outline_checks.specs.Noted.{Noted};
ghost use Rattle.outline_checks.specs.Kinds.{InSome, LiteralFault, SymbolFault};

use crate::first_fault::FirstFault;
use crate::names::Names;
use outline_data::{SheetFault, Symbol, Word};

/// Notes the literal where it has a line feed, and where it is empty.
pub fn note_literal(word: &Word, first: &mut FirstFault)
    ensures { Noted first.old.fault first.new.fault (LiteralFault word.now) }
{
    let bytes = word.bytes.as_slice();
    first.note_if(has_line_feed(bytes), SheetFault::BadPattern(word.line));
    first.note_if(bytes.is_empty(), SheetFault::PatternMatchesEmpty(word.line));
}

/// Notes each literal of a right side that is none, and each name that is no token and has no rule.
pub fn note_symbols(names: &Names<'_>, right: &[Symbol], first: &mut FirstFault)
    ensures { Noted first.old.fault first.new.fault (InSome (SymbolFault names.now) right.now) }
{
    for symbol in right {
        note_symbol(names, symbol, first);
    }
}

fn note_symbol(names: &Names<'_>, symbol: &Symbol, first: &mut FirstFault)
    ensures { Noted first.old.fault first.new.fault (SymbolFault names.now symbol.now) }
{
    match symbol {
        Symbol::Quoted(word) => note_literal(word, first),
        Symbol::Name(word) => {
            let is_unknown = names.is_unknown(word.bytes.as_slice());
            first.note_if(is_unknown, SheetFault::UnknownSymbol(word.line));
        }
    }
}

fn has_line_feed(bytes: &[u8]) -> bool
    ensures { IsTrue result ↔ Contains bytes.now 10 }
{
    bytes.contains(&b'\n')
}
