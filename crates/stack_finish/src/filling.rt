ghost use Rattle.std.specs.Prelude.{◌≡◌, ◌≢◌, ◌+◌, ◌^◌, ◌<◌, All, length};
ghost use Rattle.node_data.specs.declared.kid.Kid.TheVariants.{Hidden};
ghost use Rattle.use_theory.specs.Fills.{SuppliesPart};
ghost use Rattle.node_store.specs.Chunks.{numbers_in, store_of};
ghost use Rattle.stack_finish.specs.Putting.{HidesMore};

use node_store::{NodeRef, PackedKid, Store};

/// Puts kids in the place of hidden ones of a node: the first hidden kids stay, so many, and those behind them become these.
pub fn fill(store: &mut Store, node: NodeRef, still: u32, kids: &[PackedKid])
    requires hidden { HidesMore (store_of store.old) node still (length kids.now) }
    requires shown { All (λ kid. kid ≢ Hidden) kids.now }
    requires few { still + length kids.now < 2 ^ 32 }
    ensures filled { SuppliesPart (store_of store.old) (store_of store.new) node still kids.now }
    ensures chunks { numbers_in store.new ≡ numbers_in store.old }
{
    let mut left = kids.len();
    while left > 0 {
        left -= 1;
        store.fill(node, still + left as u32, kids[left]);
    }
}
