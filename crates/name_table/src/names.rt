ghost use Rattle.std.specs.Prelude.{◌≡◌, ◌+◌, ◌-◌, ◌^◌, ◌<◌, ◌≤◌, [], length, slice_get, All, Some, OnOk, OnErr};
ghost use Rattle.translation_theory.specs.DeclaredNames.{Row as NameRow, noted, number_in};

use crate::entries;
use crate::row::Row;
use crate::tally::Tally;
use indexmap::IndexMap;
use lr_base::{NoMemory, TEXT_BYTES};
use std::alloc::Global;
use std::marker::Model;

/// The declared names of a tree, which contracts see as their rows, in the order of their first marked leaves. The bytes of
/// a name are lent from the text, so that neither a name nor a look-up copies them.
#[derive(Debug, Drop)]
pub struct Names<'a> {
    entries: IndexMap<&'a [u8], Tally>,
}

impl<'a> Model for Names<'a> {
    ghost use Rattle.std.specs.Prelude.{List, length, ◌≤◌};
    ghost use Rattle.lr_base.specs.declared.limits.TheConstants.{TEXT_BYTES};
    ghost use Rattle.translation_theory.specs.DeclaredNames.{Row};
    ghost use Rattle.name_table.specs.Tallies.{rows_of_entries};

    ghost Value = { List Row };

    ghost view = { λ n. rows_of_entries n.entries.entries };

    ghost invariant = { λ n. length n.entries.entries ≤ TEXT_BYTES };
}

impl<'a> Names<'a> {
    ghost use Rattle.name_table.specs.Tallies.{row_seen};

    /// No names.
    pub(crate) fn new(alloc: Global) -> Names<'a>
        ensures { result ≡ [] }
    {
        Names {
            entries: IndexMap::new(alloc),
        }
    }

    /// Notes one more marked leaf with these bytes, on this line. A refused call leaves the names as they were.
    pub(crate) fn note(&mut self, text: &'a [u8], line: u32) -> Result<(), NoMemory>
        requires few { length self.old < TEXT_BYTES }
        requires times { All (λ (row : NameRow). row.times + 1 < 2 ^ 32) self.old }
        ensures noted { OnOk result (self.new ≡ noted self.old text.now line) }
        ensures err { OnErr result (self.new ≡ self.old) }
    {
        entries::note(&mut self.entries, text, line)
    }

    /// The number of these bytes among the names, counted from 1; 0 exactly where they are no name.
    pub fn number(&self, text: &[u8]) -> u32
        ensures { result ≡ number_in self.now text.now }
    {
        match self.entries.get_index_of(text) {
            Some(index) => index as u32 + 1,
            None => 0,
        }
    }

    /// How many names there are.
    pub fn count(&self) -> u32
        ensures { result ≡ length self.now }
    {
        self.entries.len() as u32
    }

    /// The name of this number, counted from 1.
    pub fn row(&self, number: u32) -> Row<'a>
        requires first { 0 < number }
        requires last { number ≤ length self.now }
        ensures { slice_get self.now (number - 1) ≡ Some (row_seen result) }
    {
        match self.entries.get_index(number as usize - 1) {
            Some((text, tally)) => Row {
                text: *text,
                line: tally.line,
                times: tally.times,
            },
            None => unreachable!(),
        }
    }
}
