ghost use Rattle.std.specs.Prelude.{◌≡◌, ℕ, ◌<◌, ◌≤◌, [], All, OnOk, length, slice_index_or};
ghost use Rattle.lr_base.specs.declared.limits.TheConstants.{NAMES};
ghost use Rattle.arrow_table.specs.declared.known.Known.TheVariants.{Nothing};
ghost use Rattle.arrow_table.specs.Cells.{ChangesCell, cell_at};
ghost use Rattle.arrow_table.specs.Codes.{IsSmall};

use crate::cell::Cell;
use crate::known::Known;
use lr_base::{NoMemory, RuleId};
use lr_machine::Tables;
use std::alloc::Global;
use std::marker::Model;

/// Rows of cells of one width, which is at most 1,000, in one list: the row of each map. Of a cell that isn't there yet
/// nothing is known.
#[derive(Debug, Drop)]
pub struct Rows {
    width: usize,
    cells: Vec<Cell>,
}

impl Model for Rows {
    ghost use Rattle.std.specs.Prelude.{◌≤◌};
    ghost use Rattle.arrow_table.specs.Cells.{Rows as Known};

    ghost Value = { Known };

    ghost view = { λ s. (s.width, s.cells.items) };

    ghost invariant = { λ s. s.width ≤ 1000 };
}

impl Rows {
    /// No row yet.
    pub fn new(alloc: Global, width: usize) -> Rows
        requires { width ≤ 1000 }
        ensures { result ≡ (width, []) }
    {
        Rows {
            width,
            cells: Vec::new(alloc),
        }
    }

    /// How many columns there are.
    pub fn width(&self) -> usize
        ensures { result ≡ self.now.0 }
    {
        self.width
    }

    /// What is known in a cell.
    pub fn get(&self, row: u32, column: usize) -> Known
        requires { column < self.now.0 }
        ensures { result ≡ cell_at self.now row column }
    {
        match self.cells.get(row as usize * self.width + column) {
            Some(cell) => cell.known(),
            None => Known::Nothing,
        }
    }

    /// How many cells there are.
    pub fn len(&self) -> usize
        ensures { result ≡ length self.now.1 }
    {
        self.cells.len()
    }

    /// Of no cell anything is known any longer.
    pub fn clear(&mut self)
        ensures width { self.new.0 ≡ self.old.0 }
        ensures cells { self.new.1 ≡ [] }
    {
        self.cells.clear();
    }

    /// Puts cells of which nothing is known behind the others until there is one at a place.
    fn fill(&mut self, place: usize) -> Result<(), NoMemory>
        ensures width { self.new.0 ≡ self.old.0 }
        ensures cells { (i : ℕ) → slice_index_or self.new.1 i Nothing ≡ slice_index_or self.old.1 i Nothing }
        ensures there { OnOk result (place < length self.new.1) }
    {
        while self.cells.len() <= place {
            self.cells.push(Cell::unknown())?;
        }
        Ok(())
    }

    /// Sets a cell, and nothing else. Where its number doesn't fit in 30 bits nothing changes.
    pub fn set(&mut self, row: u32, column: usize, known: Known) -> Result<(), NoMemory>
        requires { column < self.old.0 }
        ensures width { self.new.0 ≡ self.old.0 }
        ensures others { ChangesCell self.old self.new row column known }
        ensures set { IsSmall known → OnOk result (cell_at self.new row column ≡ known) }
    {
        let Some(cell) = Cell::of(known) else {
            return Ok(());
        };
        let place = row as usize * self.width + column;
        self.fill(place)?;
        self.cells[place] = cell;
        Ok(())
    }
}

/// One more than the greatest name on the left of a rule: how many names there are.
pub fn names_of(tables: &Tables) -> usize
    ensures few { result ≤ NAMES }
    ensures left { All (λ rule. rule.0 < result) tables.now.rules }
{
    tables.holds();
    let mut names = 0;
    for number in 0..tables.rule_count() {
        let left = tables.left(RuleId(number)).0 as usize;
        if names <= left {
            names = left + 1;
        }
    }
    names
}
