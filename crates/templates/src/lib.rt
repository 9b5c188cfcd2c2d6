//! Writes the translation of a tree by the templates of its sheet.
#![tactic(auto)]

ghost use Rattle.templates.specs.Sources.{TreeRulesLaw};

mod frame;
mod parts;
mod source;
mod steps;
mod translation;
mod writer;

pub use block_writer::WriteFault;
pub use translation::emit;

/// The trees of the symbols of a sheet's grammar have rules of the sheet alone.
pub fn rule_law()
    ensures { TreeRulesLaw }
{}
