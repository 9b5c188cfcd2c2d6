ghost use Rattle.std.specs.Prelude.{◌≡◌, [], ℕ, IfOk};
ghost use Rattle.grammar_theory.specs.Trees.{Tree, nodes};
ghost use Rattle.node_data.specs.declared.kid.Kid.TheVariants.{Node as NodeKid};
ghost use Rattle.tree_theory.specs.Stores.{Ref, Shows};
ghost use Rattle.node_store.specs.Chunks.{store_of};
ghost use Rattle.node_store.specs.Walking.{IsFinished};

use lr_base::NoMemory;
use node_store::{NodeRef, Step, Store};
use std::alloc::Global;

/// How many nodes the tree at a node has, with nothing hidden in it.
pub fn node_count(alloc: Global, store: &Store, root: NodeRef) -> Result<u64, NoMemory>
    requires { IsFinished store.now root }
    ensures { IfOk result (λ count. (n : Ref) (i : ℕ) (tree : Tree) → Shows (store_of store.now) [] n i (NodeKid root) tree → count ≡ nodes tree) }
{
    let mut walk = store.walk(alloc, root)?;
    let mut count = 0u64;
    for _taken in 0..u64::MAX {
        match walk.next_step()? {
            Some(Step::Enter(_)) => count += 1,
            Some(Step::Token(_) | Step::Leave(_)) => {}
            None => return Ok(count),
        }
    }
    Err(NoMemory)
}
