ghost use Rattle.std.specs.Prelude.{◌≡◌, ◌<◌, ◌≤◌, List, [], length, slice_get, slice_index_or, All, IfOk, replicate};
ghost use Rattle.collection_data.specs.declared.entry.Entry.{Entry as Lookaheads};
ghost use Rattle.lr_base.specs.declared.limits.TheConstants.{SIDE_SYMBOLS};
ghost use Rattle.item_sets.specs.declared.spot.Spot.{Spot as Place};
ghost use Rattle.item_sets.specs.Successors.{AreSuccessors, IsPushed};

use crate::item_set::ItemSet;
use crate::table::Table;
use collection_data::Entry;
use std::alloc::{AllocError, Global};

/// So many sets with no entries.
fn empty_sets(alloc: Global, count: u32) -> Result<Vec<ItemSet>, AllocError>
    ensures { IfOk result (λ sets. sets.items ≡ replicate count []) }
{
    let mut sets = Vec::with_capacity(alloc, count as usize)?;
    for place in 0..count {
        sets.push(ItemSet {
            entries: Vec::new(alloc),
        })?;
    }
    Ok(sets)
}

/// Puts an entry whose dot is moved over the symbol behind it, if there is one, last in that symbol's kernel.
fn push_moved(kernels: &mut Vec<ItemSet>, table: &Table, entry: &Entry) -> Result<(), AllocError>
    requires rule { entry.now.rule < length table.now.rows.items }
    requires short { All (λ (row : List Place). length row ≤ SIDE_SYMBOLS) table.now.rows.items }
    requires columns { All (λ row. All (λ (spot : Place). spot.column < length kernels.old.items) row) table.now.rows.items }
    ensures { IfOk result (λ _. IsPushed (slice_get (slice_index_or table.now.rows.items entry.now.rule []) entry.now.dot) entry.now kernels.old.items kernels.new.items) }
{
    let row = &table.rows[entry.rule.0 as usize];
    match row.spots.get(entry.dot as usize) {
        Some(spot) => kernels[spot.column as usize].push(Entry {
            rule: entry.rule,
            dot: entry.dot + 1,
            ahead: entry.ahead,
        }),
        None => Ok(()),
    }
}

/// The kernels of the successors of a set, column by column.
pub fn successors(
    alloc: Global,
    table: &Table,
    width: u32,
    entries: &[Entry],
) -> Result<Vec<ItemSet>, AllocError>
    requires rules { All (λ (e : Lookaheads). e.rule < length table.now.rows.items) entries.now }
    requires short { All (λ (row : List Place). length row ≤ SIDE_SYMBOLS) table.now.rows.items }
    requires columns { All (λ row. All (λ (spot : Place). spot.column < width) row) table.now.rows.items }
    ensures { IfOk result (λ kernels. AreSuccessors table.now.rows.items width entries.now kernels.items) }
{
    let mut kernels = empty_sets(alloc, width)?;
    for entry in entries {
        push_moved(&mut kernels, table, entry)?;
    }
    Ok(kernels)
}
