ghost use Rattle.std.specs.Prelude.{◌≡◌, ℕ, ◌<◌, ◌≤◌, [], length, All, IfOk, IsTrue};
ghost use Rattle.grammar_data.specs.TokenSet.{IsTokenSet};
ghost use Rattle.item_sets.specs.Closing.{IsClosing, IsSetting};
ghost use Rattle.item_sets.specs.Layout.{IsClosureOf, IsFrontLaid, IsKernel, IsLaidOut, IsMovedLaid};

use crate::closing::close;
use crate::item_set::ItemSet;
use crate::table::Table;
use collection_data::Entry;
use lr_base::{Grammar, RuleId, TokenSet};
use std::alloc::{AllocError, Global};

/// Puts the entry with the dot in front of the rule last, if it has a lookahead.
fn lay_front(entries: &mut Vec<Entry>, rule: RuleId, ahead: &TokenSet) -> Result<(), AllocError>
    requires { IsTokenSet ahead.now }
    ensures { IfOk result (λ _. IsFrontLaid rule ahead.now entries.old.items entries.new.items) }
{
    if ahead.is_empty() {
        return Ok(());
    }
    entries.push(Entry {
        rule,
        dot: 0,
        ahead: *ahead,
    })?;
    Ok(())
}

/// Puts the entries of a rule, from a place of the kernel on, last, and answers the place behind them.
fn lay_moved(
    entries: &mut Vec<Entry>,
    kernel: &[Entry],
    at: usize,
    rule: RuleId,
) -> Result<usize, AllocError>
    requires { at ≤ length kernel.now }
    ensures { IfOk result (λ next. IsMovedLaid rule kernel.now at entries.old.items next entries.new.items) }
{
    let mut next = at;
    while next < kernel.len() && kernel[next].rule == rule {
        entries.push(kernel[next])?;
        next += 1;
    }
    Ok(next)
}

/// Lays out the entries of a kernel and those of the rules that were opened, rising by rule and then by dot.
fn lay_out(
    alloc: Global,
    grammar: &Grammar,
    kernel: &[Entry],
    aheads: &[TokenSet],
) -> Result<Vec<Entry>, AllocError>
    requires kernel { IsKernel grammar.now kernel.now }
    requires count { length aheads.now ≡ grammar.now.names }
    requires sets { All IsTokenSet aheads.now }
    ensures { IfOk result (λ entries. IsLaidOut grammar.now kernel.now aheads.now entries.items) }
{
    let mut entries = Vec::new(alloc);
    let mut next = 0;
    for rule in 0..grammar.rule_count() {
        let name = grammar.left(RuleId(rule));
        lay_front(&mut entries, RuleId(rule), &aheads[name.0 as usize])?;
        next = lay_moved(&mut entries, kernel, next, RuleId(rule))?;
    }
    entries.extend_from_slice(&kernel[next..])?;
    Ok(entries)
}

/// The closure of a kernel.
pub fn closure(
    alloc: Global,
    grammar: &Grammar,
    table: &Table,
    kernel: &[Entry],
) -> Result<ItemSet, AllocError>
    requires setting { IsSetting grammar.now table.now.rows.items table.now.fronts.items }
    requires kernel { IsKernel grammar.now kernel.now }
    ensures { IfOk result (λ set. IsClosureOf grammar.now kernel.now set) }
{
    let aheads = close(alloc, grammar, table, kernel)?;
    let entries = lay_out(alloc, grammar, kernel, &aheads)?;
    Ok(ItemSet { entries })
}
