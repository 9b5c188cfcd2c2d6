ghost use Rattle.std.specs.Prelude.{◌≡◌, ℕ, ◌+◌, ◌-◌, ◌<◌, ◌≤◌, ◌^◌, List, length, IfOk, OnOk, Some};
ghost use Rattle.lawful_theory.specs.Lawful.{IsLawful};
ghost use Rattle.lr_machine.specs.IsTables.{IsTables};
ghost use Rattle.lr_base.specs.declared.limits.TheConstants.{TEXT_BYTES};
ghost use Rattle.context_laws.specs.Contexts.{LeadFromStates};
ghost use Rattle.node_store.specs.Chunks.{HasChunk, numbers_in, store_of};
ghost use Rattle.grammar_data.specs.declared.token.Token.{Token as TextToken};
ghost use Rattle.arrow_table.specs.Looks.{Grows, map_at};
ghost use Rattle.segment_parser.specs.Settling.{IsBetween, IsLooking, IsStepped};
ghost use Rattle.segment_parser.specs.Numbers.{Stands};

use crate::leaf::Leaf;
use arrow_table::{Arrows, Look};
use lr_base::{NoMemory, Token};
use node_store::Store;
use std::alloc::Global;

impl Leaf {
    /// One step under the next token: starts that err get their faults, or the piece is reduced, and the token is still to be
    /// looked at (`None`); or it is shifted (`Some(true)`), or the piece is stuck (`Some(false)`).
    pub fn step(
        &mut self,
        alloc: Global,
        arrows: &mut Arrows<'_>,
        store: &mut Store,
        chunk: u32,
        token: &Token,
    ) -> Result<Option<bool>, NoMemory>
        requires lawful { IsLawful arrows.old.0 }
        requires lead { LeadFromStates arrows.old.0 }
        requires tables { IsTables arrows.old.0 }
        requires chunk { HasChunk store.old chunk }
        requires token { token.now.id < 2 ^ 32 - 2 }
        requires stand { Stands arrows.old.2 self.old }
        requires at { (tokens : List TextToken) × (index : ℕ) × (length tokens ≤ TEXT_BYTES)
            × IsLooking arrows.old.0 (store_of store.old) arrows.old.1 self.old tokens index token.now }
        ensures tables { arrows.new.0 ≡ arrows.old.0 }
        ensures base { arrows.new.2 ≡ arrows.old.2 }
        ensures grows { Grows arrows.old.1 arrows.new.1 }
        ensures chunks { OnOk result (numbers_in store.new ≡ numbers_in store.old) }
        ensures stand { OnOk result (Stands arrows.new.2 self.new) }
        ensures at { IfOk result (λ done. (tokens : List TextToken) (index : ℕ)
            → IsLooking arrows.old.0 (store_of store.old) arrows.old.1 self.old tokens index token.now
            → IsStepped arrows.old.0 (store_of store.new) arrows.new.1 self.new tokens index token.now done) }
    {
        match arrows.look(alloc, self.top(), token.id)? {
            Look::Died(alive) => {
                self.die(alloc, arrows, token, alive)?;
                Ok(None)
            }
            Look::Reduce(rule) => {
                self.reduce(alloc, arrows, store, chunk, rule)?;
                Ok(None)
            }
            Look::Shift(to) => {
                self.shift(*token, to)?;
                Ok(Some(true))
            }
            Look::Stuck => Ok(Some(false)),
        }
    }

    /// Steps under the next token until it is shifted (`true`) or the piece is stuck (`false`). The loop counts to the greatest
    /// number of 64 bits, and answers want of memory beyond it.
    pub fn settle(
        &mut self,
        alloc: Global,
        arrows: &mut Arrows<'_>,
        store: &mut Store,
        chunk: u32,
        token: &Token,
    ) -> Result<bool, NoMemory>
        requires lawful { IsLawful arrows.old.0 }
        requires lead { LeadFromStates arrows.old.0 }
        requires tables { IsTables arrows.old.0 }
        requires chunk { HasChunk store.old chunk }
        requires token { token.now.id < 2 ^ 32 - 2 }
        requires stand { Stands arrows.old.2 self.old }
        requires at { (tokens : List TextToken) × (index : ℕ) × (length tokens ≤ TEXT_BYTES)
            × IsLooking arrows.old.0 (store_of store.old) arrows.old.1 self.old tokens index token.now }
        ensures tables { arrows.new.0 ≡ arrows.old.0 }
        ensures base { arrows.new.2 ≡ arrows.old.2 }
        ensures grows { Grows arrows.old.1 arrows.new.1 }
        ensures chunks { OnOk result (numbers_in store.new ≡ numbers_in store.old) }
        ensures stand { OnOk result (Stands arrows.new.2 self.new) }
        ensures at { IfOk result (λ shifted. (tokens : List TextToken) (index : ℕ)
            → IsLooking arrows.old.0 (store_of store.old) arrows.old.1 self.old tokens index token.now
            → IsStepped arrows.old.0 (store_of store.new) arrows.new.1 self.new tokens index token.now (Some shifted)) }
    {
        for _ in 0..u64::MAX {
            match self.step(alloc, arrows, store, chunk, token)? {
                Some(shifted) => return Ok(shifted),
                None => {}
            }
        }
        Err(NoMemory)
    }

    /// Reads the next token: it is shifted, or the piece is closed where it is stuck, and the token opens another.
    pub fn read(
        &mut self,
        alloc: Global,
        arrows: &mut Arrows<'_>,
        store: &mut Store,
        chunk: u32,
        token: &Token,
    ) -> Result<(), NoMemory>
        requires lawful { IsLawful arrows.old.0 }
        requires lead { LeadFromStates arrows.old.0 }
        requires tables { IsTables arrows.old.0 }
        requires chunk { HasChunk store.old chunk }
        requires token { token.now.id < 2 ^ 32 - 2 }
        requires stand { Stands arrows.old.2 self.old }
        requires at { (tokens : List TextToken) × (index : ℕ) × (length tokens ≤ TEXT_BYTES)
            × IsLooking arrows.old.0 (store_of store.old) arrows.old.1 self.old tokens index token.now }
        ensures tables { arrows.new.0 ≡ arrows.old.0 }
        ensures base { arrows.new.2 ≡ arrows.old.2 }
        ensures grows { Grows arrows.old.1 arrows.new.1 }
        ensures chunks { OnOk result (numbers_in store.new ≡ numbers_in store.old) }
        ensures stand { OnOk result (Stands arrows.new.2 self.new) }
        ensures at { OnOk result ((tokens : List TextToken) (index : ℕ)
            → IsLooking arrows.old.0 (store_of store.old) arrows.old.1 self.old tokens index token.now
            → IsBetween arrows.old.0 (store_of store.new) arrows.new.1 self.new tokens (index + 1)) }
    {
        if self.settle(alloc, arrows, store, chunk, token)? {
            return Ok(());
        }
        self.close(alloc, arrows)?;
        self.open(alloc, arrows, token)?;
        Ok(())
    }
}
