ghost use Rattle.std.specs.Prelude.{◌≡◌, ℕ, ◌<◌, [], ◌∷◌, length, slice_get, slice_index_or, All, IfOk, MatchOption, replicate};
ghost use Rattle.std.specs.Option.{option_to_list};
ghost use Rattle.grammar_data.specs.TokenSet.{IsTokenSet, has_token};
ghost use Rattle.collection_data.specs.Entries.{AreEntries};
ghost use Rattle.item_sets.specs.Closing.{IsAdded, IsClosing, IsNameWithin, IsNext, IsRowOpened, IsSetting, IsUnopened, carries};

use crate::spot::Spot;
use crate::table::Table;
use collection_data::Entry;
use lr_base::{Grammar, NameId, Sym, TokenSet};
use std::alloc::{AllocError, Global};
use std::marker::Model;

/// A closure that is being found: name by name the lookaheads with which its rules stand with the dot in front, and the
/// names whose lookaheads grew since their rules were last looked at, each marked while it waits. Contracts see the
/// lookaheads and the waiting names.
#[derive(Drop)]
struct Closing {
    lookaheads: Vec<TokenSet>,
    work: Vec<NameId>,
    waits: Vec<bool>,
}

impl Model for Closing {
    ghost use Rattle.item_sets.specs.Closing.{IsMarked, PartClosure};

    ghost Value = { PartClosure };

    ghost view = { λ s. record { aheads = s.lookaheads.items; work = s.work.items } };

    ghost invariant = { λ s. IsMarked s.lookaheads.items s.work.items s.waits.items };
}

/// The lookaheads that the rules of the name at the spot get from the lookaheads behind.
fn carried(spot: &Spot, from: &TokenSet) -> TokenSet
    ensures { (b : ℕ) → has_token result b ≡ carries spot.now from.now b }
{
    let mut tokens = spot.first;
    if spot.passes {
        tokens.union(from);
    }
    tokens
}

impl Closing {
    /// Nothing is opened yet, and no name waits.
    fn new(alloc: Global, names: u32) -> Result<Closing, AllocError>
        ensures { IfOk result (λ closing. IsUnopened names closing) }
    {
        Ok(Closing {
            lookaheads: vec![in alloc; TokenSet::empty(); names as usize]?,
            work: Vec::new(alloc),
            waits: vec![in alloc; false; names as usize]?,
        })
    }

    /// Adds lookaheads to those of a name, which waits then if some are new.
    fn add(&mut self, name: NameId, tokens: &TokenSet) -> Result<(), AllocError>
        requires { name < length self.old.aheads }
        ensures { IfOk result (λ _. IsAdded name tokens.now self.old.aheads self.old.work self.new.aheads self.new.work) }
    {
        let place = name.0 as usize;
        if self.lookaheads[place].union(tokens) && !self.waits[place] {
            self.work.push(name)?;
            self.waits[place] = true;
        }
        Ok(())
    }

    /// Takes a name that waits.
    fn next(&mut self) -> Option<NameId>
        ensures { MatchOption result
            ((self.old.work ≡ []) × (self.new ≡ self.old))
            (λ name. IsNext name self.old self.new) }
    {
        let name = self.work.pop()?;
        self.waits[name.0 as usize] = false;
        Some(name)
    }

    /// The lookaheads of a name.
    fn aheads_of(&self, name: NameId) -> TokenSet
        requires { name < length self.now.aheads }
        ensures { result ≡ slice_index_or self.now.aheads name [] }
    {
        self.lookaheads[name.0 as usize]
    }

    /// Opens the rules of the name at a spot, if there is one.
    fn open(&mut self, spot: &Spot, from: &TokenSet) -> Result<(), AllocError>
        requires { IsNameWithin (length self.old.aheads) spot.now.symbol }
        ensures { IfOk result (λ _. IsRowOpened (spot.now ∷ []) from.now self.old.aheads self.old.work self.new.aheads self.new.work) }
    {
        match spot.symbol {
            Sym::Name(name) => {
                let tokens = carried(spot, from);
                self.add(name, &tokens)
            }
            Sym::Token(_) => Ok(()),
        }
    }

    /// Opens the rules of the name behind the dot of an entry.
    fn open_behind(&mut self, table: &Table, entry: &Entry) -> Result<(), AllocError>
        requires rule { entry.now.rule < length table.now.rows.items }
        requires within { All (λ row. All (λ spot. IsNameWithin (length self.old.aheads) spot.symbol) row) table.now.rows.items }
        ensures { IfOk result (λ _. IsRowOpened (option_to_list (slice_get (slice_index_or table.now.rows.items entry.now.rule []) entry.now.dot)) entry.now.ahead
            self.old.aheads self.old.work self.new.aheads self.new.work) }
    {
        let row = &table.rows[entry.rule.0 as usize];
        match row.spots.get(entry.dot as usize) {
            Some(spot) => self.open(spot, &entry.ahead),
            None => Ok(()),
        }
    }

    /// Opens the rules of the names in front of the rules of a name.
    fn open_name(&mut self, table: &Table, name: NameId) -> Result<(), AllocError>
        requires name { name < length table.now.fronts.items }
        requires count { length table.now.fronts.items ≡ length self.old.aheads }
        requires within { All (λ row. All (λ spot. IsNameWithin (length self.old.aheads) spot.symbol) row) table.now.fronts.items }
        ensures { IfOk result (λ _. IsRowOpened (slice_index_or table.now.fronts.items name []) (slice_index_or self.old.aheads name [])
            self.old.aheads self.old.work self.new.aheads self.new.work) }
    {
        let from = self.aheads_of(name);
        let row = &table.fronts[name.0 as usize];
        for spot in &row.spots {
            self.open(spot, &from)?;
        }
        Ok(())
    }

    /// The lookaheads of all names.
    fn into_lookaheads(self) -> Vec<TokenSet>
        ensures lookaheads { result.items ≡ self.aheads }
        ensures sets { All IsTokenSet result.items }
    {
        let Closing { lookaheads, .. } = self;
        lookaheads
    }
}

/// The closure of some entries: name by name the lookaheads with which its rules stand with the dot in front.
pub fn close(
    alloc: Global,
    grammar: &Grammar,
    table: &Table,
    kernel: &[Entry],
) -> Result<Vec<TokenSet>, AllocError>
    requires setting { IsSetting grammar.now table.now.rows.items table.now.fronts.items }
    requires kernel { AreEntries grammar.now kernel.now }
    ensures closing { IfOk result (λ aheads. IsClosing grammar.now kernel.now kernel.now aheads.items []) }
    ensures sets { IfOk result (λ aheads. All IsTokenSet aheads.items) }
{
    let mut closing = Closing::new(alloc, grammar.names())?;
    for entry in kernel {
        closing.open_behind(table, entry)?;
    }
    while let Some(name) = closing.next() {
        closing.open_name(table, name)?;
    }
    Ok(closing.into_lookaheads())
}
