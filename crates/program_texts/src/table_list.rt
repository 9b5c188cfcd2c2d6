//! The printed tables of a sheet.
ghost use Rattle.std.specs.Prelude.{◌≡◌};
ghost use Rattle.lr_base.specs.Outside.{IsSameSink};
ghost use Rattle.report_theory.specs.Belonging.{BelongTo};
ghost use Rattle.report_theory.specs.TableTexts.{tables_text};
ghost use Rattle.writing_theory.specs.Writing.{IsWritten};

use block_writer::{Blocks, WriteFault};
use conflict_report::{Printer, push_states_line};
use item_sets::Collection;
use lr_base::{Sink, StateId};
use lr_machine::Tables;
use sheet_reader::Sheet;
use std::alloc::Global;

/// Writes the printed tables.
pub fn write_tables<O: Sink>(
    alloc: Global,
    sheet: &Sheet,
    collection: &Collection,
    tables: &Tables,
    out: &mut O,
) -> Result<(), WriteFault>
    requires { BelongTo sheet.now.grammar collection.now tables.now }
    ensures written { IsWritten (λ text. text ≡ tables_text sheet.now collection.now tables.now) (O.seen out.old) (O.seen out.new) result }
    ensures same { IsSameSink (O.seen out.old) (O.seen out.new) }
{
    let printer = Printer::new(sheet)?;
    let mut blocks = Blocks::new(alloc);
    push_states_line(&mut blocks.gathered, tables)?;
    for state in 0..tables.states() {
        printer.push_state(&mut blocks.gathered, collection, tables, StateId(state))?;
        blocks.pass(out)?;
    }
    blocks.finish(out)?;
    Ok(())
}
