//! Items and conflicts.
ghost use Rattle.std.specs.Prelude.{◌≡◌, ◌++◌, codes, decimal, IfOk, OnOk};
ghost use Rattle.report_theory.specs.ItemTexts.{token_text, item_text as text_of_item, conflict_text as text_of_conflict};
ghost use Rattle.item_theory.specs.Items.{IsItemOf};
ghost use Rattle.report_theory.specs.Belonging.{IsConflictIn};

use crate::printer::Printer;
use block_writer::push_number;
use grammar_faults::{Conflict, Item};
use lr_base::NoMemory;
use sheet_reader::Sheet;
use std::alloc::Global;

/// The printed text of an item of the sheet's grammar, without a line feed: the left side (`$accept` for the augmented
/// rule), ` :`, a space and the printed name for each symbol with ` .` at the dot's place, ` , ` and the printed name of
/// the lookahead.
pub fn item_text(alloc: Global, sheet: &Sheet, item: &Item) -> Result<Vec<u8>, NoMemory>
    requires { IsItemOf sheet.now.grammar item.now }
    ensures { IfOk result (λ text. text.items ≡ text_of_item sheet.now item.now) }
{
    let printer = Printer::new(sheet)?;
    let mut text = Vec::new(alloc);
    printer.push_item(&mut text, item)?;
    Ok(text)
}

/// Adds the line of a conflict's state and token.
fn push_conflict_line(
    printer: &Printer,
    text: &mut Vec<u8>,
    conflict: &Conflict,
) -> Result<(), NoMemory>
    ensures { OnOk result (text.new.items ≡ text.old.items
        ++ (codes "sheet fault 16: conflict in state " ++ (decimal conflict.now.state
        ++ (codes " on " ++ (token_text printer.now conflict.now.token ++ codes "\n"))))) }
{
    text.extend_from_slice(b"sheet fault 16: conflict in state ")?;
    push_number(text, u64::from(conflict.state.0))?;
    text.extend_from_slice(b" on ")?;
    text.extend_from_slice(printer.token_word(conflict.token))?;
    text.extend_from_slice(b"\n")?;
    Ok(())
}

/// What is said of a conflict of the sheet's grammar: a line with its state and its token, and then its two items, each
/// on a line that begins with two spaces.
pub fn conflict_text(alloc: Global, sheet: &Sheet, conflict: &Conflict) -> Result<Vec<u8>, NoMemory>
    requires { IsConflictIn sheet.now.grammar conflict.now }
    ensures { IfOk result (λ text. text.items ≡ text_of_conflict sheet.now conflict.now) }
{
    let printer = Printer::new(sheet)?;
    let mut text = Vec::new(alloc);
    push_conflict_line(&printer, &mut text, conflict)?;
    printer.push_item_line(&mut text, &conflict.first)?;
    printer.push_item_line(&mut text, &conflict.second)?;
    Ok(text)
}
