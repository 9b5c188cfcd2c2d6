//! What every other crate stands on: the plain types, grammars and sets of tokens, the limits, and the traits of the
//! outside with their plain loops, in memory and over the real world.
#![tactic(auto)]

mod count_sink;
mod counts;
mod errors;
mod file_shelf;
mod files;
mod gate;
mod grammar;
mod limits;
mod mem_shelf;
mod mem_sink;
mod names_begun;
mod reading;
mod shelf;
mod sink;
mod steady_shelf;
mod stream_sink;
mod token_set;
mod writing;

pub use count_sink::CountSink;
pub use errors::{Failed, NoMemory};
pub use file_shelf::FileShelf;
pub use gate::{Gate, OpenGate};
pub use grammar::Grammar;
pub use grammar_data::{NameId, Place, Rule, RuleId, StateId, Sym, Token, TokenId};
pub use limits::{
    NAMES, READ_BYTES, RULES, SHEET_BYTES, SIDE_SYMBOLS, SKIPS, SYMBOLS, TEXT_BYTES, TOKENS,
};
pub use mem_shelf::MemShelf;
pub use mem_sink::MemSink;
pub use reading::{ReadFault, Text, read_all};
pub use shelf::Shelf;
pub use sink::Sink;
pub use steady_shelf::SteadyShelf;
pub use stream_sink::{ErrSink, OutSink, StreamSink};
pub use token_set::{TokenSet, equal_by_members};
pub use writing::write_all;
