//! The entries of a table of names.
ghost use Rattle.std.specs.Prelude.{◌≡◌, ◌+◌, ◌^◌, ◌<◌, All, OnOk, OnErr};
ghost use Rattle.translation_theory.specs.DeclaredNames.{Row, noted};
ghost use Rattle.name_table.specs.Tallies.{rows_of_entries};

use crate::tally::Tally;
use indexmap::IndexMap;
use lr_base::NoMemory;

/// Notes one more marked leaf with these bytes, on this line. A refused call leaves the entries as they were.
pub fn note<'a>(
    entries: &mut IndexMap<&'a [u8], Tally>,
    text: &'a [u8],
    line: u32,
) -> Result<(), NoMemory>
    requires { All (λ (row : Row). row.times + 1 < 2 ^ 32) (rows_of_entries entries.old.entries) }
    ensures noted { OnOk result (rows_of_entries entries.new.entries ≡ noted (rows_of_entries entries.old.entries) text.now line) }
    ensures err { OnErr result (entries.new.entries ≡ entries.old.entries) }
{
    let tally = entries.entry(text)?.or_insert(Tally { line, times: 0 });
    tally.times += 1;
    Ok(())
}
