ghost use Rattle.std.specs.Prelude.{◌≡◌, ◌≢◌, ℕ, ◌+◌, ◌-◌, ◌<◌, ◌≤◌, List, ◌∷◌, OnOk, Some, All, drop, length};
ghost use Rattle.grammar_data.specs.declared.rule.Sym.{Sym};
ghost use Rattle.grammar_theory.specs.Rules.{IsRule};
ghost use Rattle.node_data.specs.declared.kid.Kid.TheVariants.{Hidden};
ghost use Rattle.lawful_theory.specs.Lawful.{IsLawful};
ghost use Rattle.context_laws.specs.Contexts.{LeadFromStates};
ghost use Rattle.use_theory.specs.Fills.{SuppliesPart};
ghost use Rattle.piece_theory.specs.Pieces.{Floor as FloorParts};
ghost use Rattle.piece_theory.specs.WellMade.{HasHidden};
ghost use Rattle.node_store.specs.Chunks.{numbers_in, store_of};
ghost use Rattle.arrow_table.specs.Looks.{Grows};
ghost use Rattle.segment_parser.specs.Standing.{HasMaps};
ghost use Rattle.stack_join.specs.Joining.{IsLanding, Met};
ghost use Rattle.stack_join.specs.Landing.{CanSupply, CanSupplyAll, IsCut, IsRaised, IsSupplied};
ghost use Rattle.segment_parser.specs.Numbers.{AllStand};

use crate::carrying::carry;
use arrow_table::Arrows;
use lr_base::NoMemory;
use node_store::Store;
use piece_blocks::{Floor, Opened};
use segment_parser::Leaf;
use stack_finish::fill;
use std::alloc::Global;

/// The open piece keeps its first entries, so many, and the map over the last of them loses the starts that have erred.
fn cut(leaf: &mut Leaf, alloc: Global, arrows: &mut Arrows<'_>, rest: usize) -> Result<(), NoMemory>
    requires has { HasMaps arrows.old.1 leaf.old }
    requires rest { rest ≤ length leaf.old.ids.items }
    requires stand { AllStand arrows.old.2 leaf.old }
    ensures tables { arrows.new.0 ≡ arrows.old.0 }
    ensures base { arrows.new.2 ≡ arrows.old.2 }
    ensures grows { Grows arrows.old.1 arrows.new.1 }
    ensures stand { OnOk result (AllStand arrows.new.2 leaf.new) }
    ensures cut { OnOk result (IsCut arrows.old.1 arrows.new.1 leaf.old leaf.new rest) }
{
    let taken = leaf.ids.len() - rest;
    leaf.block.drop_kids(taken);
    leaf.ids.truncate(rest);
    if rest == 0 {
        leaf.stale = 0;
        return Ok(());
    }
    leaf.freshen(alloc, arrows, rest - 1)?;
    Ok(())
}

/// The floor below the open piece's last one, which so many symbols are hidden from, where all entries have gone into its node.
fn raise(
    leaf: &mut Leaf,
    alloc: Global,
    arrows: &mut Arrows<'_>,
    opened: &Opened,
    still: u32,
) -> Result<(), NoMemory>
    requires has { HasMaps arrows.old.1 leaf.old }
    requires rule { opened.now.rule < length arrows.old.0.rules }
    requires fewer { (n : ℕ) (right : List Sym) → IsRule arrows.old.0.rules opened.now.rule n right → still ≤ length right }
    requires stand { AllStand arrows.old.2 leaf.old }
    ensures tables { arrows.new.0 ≡ arrows.old.0 }
    ensures base { arrows.new.2 ≡ arrows.old.2 }
    ensures grows { Grows arrows.old.1 arrows.new.1 }
    ensures stand { OnOk result (AllStand arrows.new.2 leaf.new) }
    ensures raised { OnOk result (IsRaised arrows.old.0 arrows.old.1 arrows.new.1 leaf.old leaf.new opened.now still) }
{
    let held = leaf.ids.len();
    leaf.block.drop_kids(held);
    leaf.put_floor(alloc, arrows)?;
    let starts = arrows.back(alloc, leaf.starts, opened.rule, still)?;
    let own = arrows.identity(alloc, starts)?;
    leaf.opened = Some(Opened {
        node: opened.node,
        rule: opened.rule,
        hidden: still,
    });
    leaf.starts = starts;
    leaf.own = own;
    leaf.ids.clear();
    leaf.stale = 0;
    Ok(())
}

/// What a floor hides is supplied by the entries. Where there are as many, the last of them become the hidden kids of its node.
/// Else all of them become its last hidden kids, and a floor with the rest stands on the open piece's.
fn supply_opened(
    leaf: &mut Leaf,
    alloc: Global,
    arrows: &mut Arrows<'_>,
    store: &mut Store,
    opened: &Opened,
) -> Result<(), NoMemory>
    requires has { HasMaps arrows.old.1 leaf.old }
    requires can { CanSupply arrows.old.0 (store_of store.old) leaf.old opened.now }
    requires stand { AllStand arrows.old.2 leaf.old }
    ensures tables { arrows.new.0 ≡ arrows.old.0 }
    ensures base { arrows.new.2 ≡ arrows.old.2 }
    ensures grows { Grows arrows.old.1 arrows.new.1 }
    ensures stand { OnOk result (AllStand arrows.new.2 leaf.new) }
    ensures chunks { OnOk result (numbers_in store.new ≡ numbers_in store.old) }
    ensures supplied { OnOk result (IsSupplied arrows.old.0 (store_of store.old) (store_of store.new) arrows.old.1
        arrows.new.1 leaf.old leaf.new (Some opened.now)) }
{
    let held = leaf.ids.len();
    let hidden = opened.hidden as usize;
    if hidden <= held {
        let rest = held - hidden;
        fill(store, opened.node, 0, &leaf.block.open_list()[rest..]);
        cut(leaf, alloc, arrows, rest)?;
        return Ok(());
    }
    let still = opened.hidden - held as u32;
    fill(store, opened.node, still, leaf.block.open_list());
    raise(leaf, alloc, arrows, opened, still)?;
    Ok(())
}

/// What a floor hides, if anything, is supplied by the entries, whole or in part.
fn supply(
    leaf: &mut Leaf,
    alloc: Global,
    arrows: &mut Arrows<'_>,
    store: &mut Store,
    opened: Option<Opened>,
) -> Result<(), NoMemory>
    requires has { HasMaps arrows.old.1 leaf.old }
    requires can { CanSupplyAll arrows.old.0 (store_of store.old) leaf.old opened }
    requires stand { AllStand arrows.old.2 leaf.old }
    ensures tables { arrows.new.0 ≡ arrows.old.0 }
    ensures base { arrows.new.2 ≡ arrows.old.2 }
    ensures grows { Grows arrows.old.1 arrows.new.1 }
    ensures stand { OnOk result (AllStand arrows.new.2 leaf.new) }
    ensures chunks { OnOk result (numbers_in store.new ≡ numbers_in store.old) }
    ensures supplied { OnOk result (IsSupplied arrows.old.0 (store_of store.old) (store_of store.new) arrows.old.1
        arrows.new.1 leaf.old leaf.new opened) }
{
    match opened {
        Some(opened) => supply_opened(leaf, alloc, arrows, store, &opened),
        None => Ok(()),
    }
}

/// A floor of the next piece lands on the open piece: its hidden symbols are supplied, whole or in part, and its faults carried
/// back.
pub fn land(
    leaf: &mut Leaf,
    alloc: Global,
    arrows: &mut Arrows<'_>,
    store: &mut Store,
    floor: &Floor,
) -> Result<(), NoMemory>
    requires lawful { IsLawful arrows.old.0 }
    requires lead { LeadFromStates arrows.old.0 }
    requires at { (met : Met) × (further : List FloorParts)
        × IsLanding arrows.old.0 met (store_of store.old) arrows.old.1 leaf.old (floor.now ∷ further) }
    requires stand { AllStand arrows.old.2 leaf.old }
    ensures tables { arrows.new.0 ≡ arrows.old.0 }
    ensures base { arrows.new.2 ≡ arrows.old.2 }
    ensures grows { Grows arrows.old.1 arrows.new.1 }
    ensures stand { OnOk result (AllStand arrows.new.2 leaf.new) }
    ensures chunks { OnOk result (numbers_in store.new ≡ numbers_in store.old) }
    ensures closed { OnOk result (leaf.new.block.closed ≡ leaf.old.block.closed) }
    ensures at { OnOk result ((met : Met) (further : List FloorParts)
        → IsLanding arrows.old.0 met (store_of store.old) arrows.old.1 leaf.old (floor.now ∷ further)
        → IsLanding arrows.old.0 met (store_of store.new) arrows.new.1 leaf.new further) }
{
    supply(leaf, alloc, arrows, store, floor.opened())?;
    carry(leaf, alloc, arrows, floor)?;
    Ok(())
}
