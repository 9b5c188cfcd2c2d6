ghost use Rattle.std.specs.Prelude.{◌≡◌, ℕ, ◌<◌, ◌≤◌, IfOk, All, length};
ghost use Rattle.piece_theory.specs.Applies.{HasSymbol as HasKidSymbol};
ghost use Rattle.map_theory.specs.Maps.{target};
ghost use Rattle.node_store.specs.Chunks.{store_of};
ghost use Rattle.state_sets.specs.Within.{HasSymbol};
ghost use Rattle.arrow_table.specs.Looks.{Grows, map_at};
ghost use Rattle.segment_parser.specs.Entering.{AreEntered, IsKnown};
ghost use Rattle.segment_parser.specs.Numbers.{AreFrom};

use arrow_table::{ArrowId, Arrows};
use lr_base::{NoMemory, Sym};
use lr_machine::Tables;
use node_store::{Kid, PackedKid, Store};
use std::alloc::Global;

/// The symbol of a kid that isn't hidden.
pub fn symbol_of(tables: &Tables, store: &Store, kid: Kid) -> Sym
    requires { IsKnown tables.now.rules (store_of store.now) kid }
    ensures symbol { HasKidSymbol tables.now.rules (store_of store.now) kid result }
    ensures in_range { HasSymbol tables.now result }
{
    match kid {
        Kid::Token(token) => Sym::Token(token.id),
        Kid::Node(node) => Sym::Name(tables.left(store.rule(node))),
        Kid::Hidden => unreachable!(),
    }
}

/// The numbers of the maps over the entries with these kids, from a map below them. All of them stand.
pub fn enter(
    alloc: Global,
    arrows: &mut Arrows<'_>,
    store: &Store,
    own: ArrowId,
    kids: &[PackedKid],
) -> Result<Vec<ArrowId>, NoMemory>
    requires own { own < length arrows.old.1 }
    requires stands { arrows.old.2 ≤ own }
    requires kids { All (IsKnown arrows.old.0.rules (store_of store.now)) kids.now }
    ensures tables { arrows.new.0 ≡ arrows.old.0 }
    ensures base { arrows.new.2 ≡ arrows.old.2 }
    ensures grows { Grows arrows.old.1 arrows.new.1 }
    ensures entered { IfOk result (λ ids. AreEntered arrows.old.0 (store_of store.now)
        (target (map_at arrows.old.1 own)) arrows.new.1 kids.now ids.items) }
    ensures stand { IfOk result (λ ids. AreFrom arrows.new.2 ids.items) }
{
    let mut ids = Vec::with_capacity(alloc, kids.len())?;
    let mut top = own;
    for kid in kids {
        let symbol = symbol_of(arrows.tables(), store, kid.kid());
        top = arrows.step(alloc, top, symbol)?;
        ids.push(top)?;
    }
    Ok(ids)
}
