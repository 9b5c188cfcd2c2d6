ghost use Rattle.std.specs.Prelude.{◌≡◌, ◌≢◌, ℕ, ◌+◌, ◌-◌, ◌<◌, ◌≤◌, List, [], ◌∷◌, length, All, OnOk, slice_index_or};
ghost use Rattle.grammar_data.specs.declared.rule.Sym.{Sym as Symbol};
ghost use Rattle.grammar_data.specs.declared.token.Token.{Token as TextToken};
ghost use Rattle.grammar_theory.specs.Rules.{IsRule};
ghost use Rattle.tree_theory.specs.Stores.{Ref};
ghost use Rattle.tree_theory.specs.Walks.{Step};
ghost use Rattle.lawful_theory.specs.Lawful.{IsLawful};
ghost use Rattle.context_laws.specs.Contexts.{LeadFromStates};
ghost use Rattle.leaf_laws.specs.Leaves.{HasStart, NoneErrs};
ghost use Rattle.map_theory.specs.Agreements.{AllReduce};
ghost use Rattle.node_store.specs.Chunks.{HasChunk, numbers_in, store_of};
ghost use Rattle.arrow_table.specs.Looks.{Grows, map_at};
ghost use Rattle.segment_parser.specs.Working.{last_id};
ghost use Rattle.piece_theory.specs.Laws.{HasMore};
ghost use Rattle.segment_parser.specs.Standing.{HasMaps, IsAt, last_in, piece_in};
ghost use Rattle.segment_parser.specs.Opening.{IsOpenIn};
ghost use Rattle.segment_parser.specs.Entering.{IsKnown};
ghost use Rattle.segment_parser.specs.Numbers.{AreFrom, Stands};

use crate::leaf::Leaf;
use arrow_table::Arrows;
use lr_base::{NoMemory, RuleId, Token};
use node_store::Store;
use std::alloc::Global;

impl Leaf {
    /// A reduction that takes fewer entries than there are, where the map over the one that is left on top is kept.
    fn reduce_kept(
        &mut self,
        alloc: Global,
        arrows: &mut Arrows<'_>,
        store: &mut Store,
        chunk: u32,
        rule: RuleId,
        count: usize,
    ) -> Result<(), NoMemory>
        requires lawful { IsLawful arrows.old.0 }
        requires chunk { HasChunk store.old chunk }
        requires rule { (n : ℕ) × (right : List Symbol) × IsRule arrows.old.0.rules rule n right × (count ≡ length right) }
        requires count { count < length self.old.ids.items }
        requires maps { HasMaps arrows.old.1 self.old }
        requires stand { Stands arrows.old.2 self.old }
        requires below { arrows.old.2 ≤ slice_index_or self.old.ids.items (length self.old.ids.items - count - 1) 0 }
        ensures tables { arrows.new.0 ≡ arrows.old.0 }
        ensures base { arrows.new.2 ≡ arrows.old.2 }
        ensures grows { Grows arrows.old.1 arrows.new.1 }
        ensures chunks { OnOk result (numbers_in store.new ≡ numbers_in store.old) }
        ensures closed { OnOk result (self.new.block.closed ≡ self.old.block.closed) }
        ensures more { OnOk result (HasMore (store_of store.old) (store_of store.new)) }
        ensures stand { OnOk result (Stands arrows.new.2 self.new) }
        ensures levels { OnOk result (AreFrom arrows.old.2 self.old.ids.items → AreFrom arrows.new.2 self.new.ids.items) }
        ensures open { OnOk result ((nodes : List Ref) (front : List Step) (w : List TextToken) (token : TextToken)
            → IsOpenIn arrows.old.0 (store_of store.old) arrows.old.1 self.old nodes front w (token ∷ [])
            → NoneErrs arrows.old.0 token.id (map_at arrows.old.1 (last_id self.old.ids.items))
            → AllReduce arrows.old.0 token.id rule (map_at arrows.old.1 (last_id self.old.ids.items))
            → IsOpenIn arrows.old.0 (store_of store.new) arrows.new.1 self.new nodes front w (token ∷ [])) }
        ensures at { OnOk result ((tokens w rest : List TextToken) (token : TextToken)
            → IsAt arrows.old.0 (store_of store.old) arrows.old.1 self.old tokens w rest (token ∷ [])
            → NoneErrs arrows.old.0 token.id (map_at arrows.old.1 (last_id self.old.ids.items))
            → AllReduce arrows.old.0 token.id rule (map_at arrows.old.1 (last_id self.old.ids.items))
            → IsAt arrows.old.0 (store_of store.new) arrows.new.1 self.new tokens w rest (token ∷ [])
            × HasStart arrows.old.0 (piece_in arrows.new.1 self.new) w (last_in arrows.new.1 self.new)) }
    {
        let node = self.take(store, chunk, rule, count)?;
        let depth = self.ids.len() - 1;
        self.freshen(alloc, arrows, depth)?;
        let below = self.top();
        let name = arrows.tables().left(rule);
        self.put_node(alloc, arrows, below, name, node)?;
        Ok(())
    }

    /// A reduction that takes fewer entries than there are.
    fn reduce_some(
        &mut self,
        alloc: Global,
        arrows: &mut Arrows<'_>,
        store: &mut Store,
        chunk: u32,
        rule: RuleId,
        count: usize,
    ) -> Result<(), NoMemory>
        requires lawful { IsLawful arrows.old.0 }
        requires chunk { HasChunk store.old chunk }
        requires rule { (n : ℕ) × (right : List Symbol) × IsRule arrows.old.0.rules rule n right × (count ≡ length right) }
        requires count { count < length self.old.ids.items }
        requires maps { HasMaps arrows.old.1 self.old }
        requires stand { Stands arrows.old.2 self.old }
        requires known { All (IsKnown arrows.old.0.rules (store_of store.old)) self.old.block.kids }
        ensures tables { arrows.new.0 ≡ arrows.old.0 }
        ensures base { arrows.new.2 ≡ arrows.old.2 }
        ensures grows { Grows arrows.old.1 arrows.new.1 }
        ensures chunks { OnOk result (numbers_in store.new ≡ numbers_in store.old) }
        ensures closed { OnOk result (self.new.block.closed ≡ self.old.block.closed) }
        ensures more { OnOk result (HasMore (store_of store.old) (store_of store.new)) }
        ensures stand { OnOk result (Stands arrows.new.2 self.new) }
        ensures levels { OnOk result (AreFrom arrows.old.2 self.old.ids.items → AreFrom arrows.new.2 self.new.ids.items) }
        ensures open { OnOk result ((nodes : List Ref) (front : List Step) (w : List TextToken) (token : TextToken)
            → IsOpenIn arrows.old.0 (store_of store.old) arrows.old.1 self.old nodes front w (token ∷ [])
            → NoneErrs arrows.old.0 token.id (map_at arrows.old.1 (last_id self.old.ids.items))
            → AllReduce arrows.old.0 token.id rule (map_at arrows.old.1 (last_id self.old.ids.items))
            → IsOpenIn arrows.old.0 (store_of store.new) arrows.new.1 self.new nodes front w (token ∷ [])) }
        ensures at { OnOk result ((tokens w rest : List TextToken) (token : TextToken)
            → IsAt arrows.old.0 (store_of store.old) arrows.old.1 self.old tokens w rest (token ∷ [])
            → NoneErrs arrows.old.0 token.id (map_at arrows.old.1 (last_id self.old.ids.items))
            → AllReduce arrows.old.0 token.id rule (map_at arrows.old.1 (last_id self.old.ids.items))
            → IsAt arrows.old.0 (store_of store.new) arrows.new.1 self.new tokens w rest (token ∷ [])
            × HasStart arrows.old.0 (piece_in arrows.new.1 self.new) w (last_in arrows.new.1 self.new)) }
    {
        let depth = self.ids.len() - count - 1;
        self.retrace(alloc, arrows, store, depth)?;
        self.reduce_kept(alloc, arrows, store, chunk, rule, count)?;
        Ok(())
    }

    /// A reduction that takes all entries.
    fn reduce_all(
        &mut self,
        alloc: Global,
        arrows: &mut Arrows<'_>,
        store: &mut Store,
        chunk: u32,
        rule: RuleId,
    ) -> Result<(), NoMemory>
        requires lawful { IsLawful arrows.old.0 }
        requires chunk { HasChunk store.old chunk }
        requires rule { (n : ℕ) × (right : List Symbol) × IsRule arrows.old.0.rules rule n right
            × (length self.old.ids.items ≡ length right) }
        requires maps { HasMaps arrows.old.1 self.old }
        requires stand { Stands arrows.old.2 self.old }
        ensures tables { arrows.new.0 ≡ arrows.old.0 }
        ensures base { arrows.new.2 ≡ arrows.old.2 }
        ensures grows { Grows arrows.old.1 arrows.new.1 }
        ensures chunks { OnOk result (numbers_in store.new ≡ numbers_in store.old) }
        ensures closed { OnOk result (self.new.block.closed ≡ self.old.block.closed) }
        ensures more { OnOk result (HasMore (store_of store.old) (store_of store.new)) }
        ensures stand { OnOk result (Stands arrows.new.2 self.new) }
        ensures levels { OnOk result (AreFrom arrows.old.2 self.old.ids.items → AreFrom arrows.new.2 self.new.ids.items) }
        ensures open { OnOk result ((nodes : List Ref) (front : List Step) (w : List TextToken) (token : TextToken)
            → IsOpenIn arrows.old.0 (store_of store.old) arrows.old.1 self.old nodes front w (token ∷ [])
            → NoneErrs arrows.old.0 token.id (map_at arrows.old.1 (last_id self.old.ids.items))
            → AllReduce arrows.old.0 token.id rule (map_at arrows.old.1 (last_id self.old.ids.items))
            → IsOpenIn arrows.old.0 (store_of store.new) arrows.new.1 self.new nodes front w (token ∷ [])) }
        ensures at { OnOk result ((tokens w rest : List TextToken) (token : TextToken)
            → IsAt arrows.old.0 (store_of store.old) arrows.old.1 self.old tokens w rest (token ∷ [])
            → NoneErrs arrows.old.0 token.id (map_at arrows.old.1 (last_id self.old.ids.items))
            → AllReduce arrows.old.0 token.id rule (map_at arrows.old.1 (last_id self.old.ids.items))
            → IsAt arrows.old.0 (store_of store.new) arrows.new.1 self.new tokens w rest (token ∷ [])
            × HasStart arrows.old.0 (piece_in arrows.new.1 self.new) w (last_in arrows.new.1 self.new)) }
    {
        let count = self.ids.len();
        let node = self.take(store, chunk, rule, count)?;
        self.stale = 0;
        let name = arrows.tables().left(rule);
        self.put_node(alloc, arrows, self.own, name, node)?;
        Ok(())
    }

    /// A reduction that takes all entries and so many hidden symbols below them.
    fn reduce_more(
        &mut self,
        alloc: Global,
        arrows: &mut Arrows<'_>,
        store: &mut Store,
        chunk: u32,
        rule: RuleId,
        hidden: u32,
    ) -> Result<(), NoMemory>
        requires lawful { IsLawful arrows.old.0 }
        requires lead { LeadFromStates arrows.old.0 }
        requires chunk { HasChunk store.old chunk }
        requires rule { (n : ℕ) × (right : List Symbol) × IsRule arrows.old.0.rules rule n right
            × (hidden + length self.old.ids.items ≡ length right) }
        requires some { 0 < hidden }
        requires maps { HasMaps arrows.old.1 self.old }
        requires stand { Stands arrows.old.2 self.old }
        ensures tables { arrows.new.0 ≡ arrows.old.0 }
        ensures base { arrows.new.2 ≡ arrows.old.2 }
        ensures grows { Grows arrows.old.1 arrows.new.1 }
        ensures chunks { OnOk result (numbers_in store.new ≡ numbers_in store.old) }
        ensures closed { OnOk result (self.new.block.closed ≡ self.old.block.closed) }
        ensures more { OnOk result (HasMore (store_of store.old) (store_of store.new)) }
        ensures stand { OnOk result (Stands arrows.new.2 self.new) }
        ensures levels { OnOk result (AreFrom arrows.old.2 self.old.ids.items → AreFrom arrows.new.2 self.new.ids.items) }
        ensures open { OnOk result ((nodes : List Ref) (front : List Step) (w : List TextToken) (token : TextToken)
            → IsOpenIn arrows.old.0 (store_of store.old) arrows.old.1 self.old nodes front w (token ∷ [])
            → NoneErrs arrows.old.0 token.id (map_at arrows.old.1 (last_id self.old.ids.items))
            → AllReduce arrows.old.0 token.id rule (map_at arrows.old.1 (last_id self.old.ids.items))
            → IsOpenIn arrows.old.0 (store_of store.new) arrows.new.1 self.new nodes front w (token ∷ [])) }
        ensures at { OnOk result ((tokens w rest : List TextToken) (token : TextToken)
            → IsAt arrows.old.0 (store_of store.old) arrows.old.1 self.old tokens w rest (token ∷ [])
            → NoneErrs arrows.old.0 token.id (map_at arrows.old.1 (last_id self.old.ids.items))
            → AllReduce arrows.old.0 token.id rule (map_at arrows.old.1 (last_id self.old.ids.items))
            → IsAt arrows.old.0 (store_of store.new) arrows.new.1 self.new tokens w rest (token ∷ [])
            × HasStart arrows.old.0 (piece_in arrows.new.1 self.new) w (last_in arrows.new.1 self.new)) }
    {
        let node = self.raise(alloc, arrows, store, chunk, rule, hidden)?;
        let name = arrows.tables().left(rule);
        self.put_node(alloc, arrows, self.own, name, node)?;
        Ok(())
    }

    /// A reduction by a rule, which takes fewer entries than there are, all of them, or all and hidden symbols below them.
    pub fn reduce(
        &mut self,
        alloc: Global,
        arrows: &mut Arrows<'_>,
        store: &mut Store,
        chunk: u32,
        rule: RuleId,
    ) -> Result<(), NoMemory>
        requires lawful { IsLawful arrows.old.0 }
        requires lead { LeadFromStates arrows.old.0 }
        requires chunk { HasChunk store.old chunk }
        requires rule { rule < length arrows.old.0.rules }
        requires maps { HasMaps arrows.old.1 self.old }
        requires stand { Stands arrows.old.2 self.old }
        requires known { All (IsKnown arrows.old.0.rules (store_of store.old)) self.old.block.kids }
        ensures tables { arrows.new.0 ≡ arrows.old.0 }
        ensures base { arrows.new.2 ≡ arrows.old.2 }
        ensures grows { Grows arrows.old.1 arrows.new.1 }
        ensures chunks { OnOk result (numbers_in store.new ≡ numbers_in store.old) }
        ensures closed { OnOk result (self.new.block.closed ≡ self.old.block.closed) }
        ensures more { OnOk result (HasMore (store_of store.old) (store_of store.new)) }
        ensures stand { OnOk result (Stands arrows.new.2 self.new) }
        ensures levels { OnOk result (AreFrom arrows.old.2 self.old.ids.items → AreFrom arrows.new.2 self.new.ids.items) }
        ensures open { OnOk result ((nodes : List Ref) (front : List Step) (w : List TextToken) (token : TextToken)
            → IsOpenIn arrows.old.0 (store_of store.old) arrows.old.1 self.old nodes front w (token ∷ [])
            → NoneErrs arrows.old.0 token.id (map_at arrows.old.1 (last_id self.old.ids.items))
            → AllReduce arrows.old.0 token.id rule (map_at arrows.old.1 (last_id self.old.ids.items))
            → IsOpenIn arrows.old.0 (store_of store.new) arrows.new.1 self.new nodes front w (token ∷ [])) }
        ensures at { OnOk result ((tokens w rest : List TextToken) (token : TextToken)
            → IsAt arrows.old.0 (store_of store.old) arrows.old.1 self.old tokens w rest (token ∷ [])
            → NoneErrs arrows.old.0 token.id (map_at arrows.old.1 (last_id self.old.ids.items))
            → AllReduce arrows.old.0 token.id rule (map_at arrows.old.1 (last_id self.old.ids.items))
            → IsAt arrows.old.0 (store_of store.new) arrows.new.1 self.new tokens w rest (token ∷ [])
            × HasStart arrows.old.0 (piece_in arrows.new.1 self.new) w (last_in arrows.new.1 self.new)) }
    {
        let needed = arrows.tables().right(rule).len();
        let held = self.ids.len();
        if needed < held {
            self.reduce_some(alloc, arrows, store, chunk, rule, needed)
        } else if needed == held {
            self.reduce_all(alloc, arrows, store, chunk, rule)
        } else {
            self.reduce_more(alloc, arrows, store, chunk, rule, (needed - held) as u32)
        }
    }
}
