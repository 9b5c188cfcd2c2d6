//! The names that a text declares.
ghost use Rattle.std.specs.Prelude.{◌≡◌, ◌+◌, ◌++◌, ◌<◌, ◌≤◌, OnOk, length};
ghost use Rattle.lr_base.specs.Outside.{IsSameSink};
ghost use Rattle.translation_theory.specs.DeclaredNames.{row_text, rows_text};
ghost use Rattle.name_table.specs.Tallies.{row_seen};
ghost use Rattle.writing_theory.specs.Writing.{IsWritten};

use crate::token_list::push_column;
use block_writer::{Blocks, WriteFault};
use lr_base::{NoMemory, Sink};
use name_table::{Names, Row};
use std::alloc::Global;

/// Adds the line of a name with its number.
fn push_row(list: &mut Vec<u8>, number: u32, row: &Row<'_>) -> Result<(), NoMemory>
    ensures { OnOk result (list.new.items ≡ list.old.items ++ row_text number (row_seen row.now)) }
{
    push_column(list, u64::from(number))?;
    push_column(list, u64::from(row.line))?;
    push_column(list, u64::from(row.times))?;
    list.extend_from_slice(row.text)?;
    list.push(b'\n')?;
    Ok(())
}

/// Writes a line for each name, in order of number.
pub fn write_names<O: Sink>(alloc: Global, names: &Names<'_>, out: &mut O) -> Result<(), WriteFault>
    ensures written { IsWritten (λ text. text ≡ rows_text 1 names.now) (O.seen out.old) (O.seen out.new) result }
    ensures same { IsSameSink (O.seen out.old) (O.seen out.new) }
{
    let mut blocks = Blocks::new(alloc);
    for index in 0..names.count() {
        let row = names.row(index + 1);
        push_row(&mut blocks.gathered, index + 1, &row)?;
        blocks.pass(out)?;
    }
    blocks.finish(out)?;
    Ok(())
}
