ghost use Rattle.std.specs.Prelude.{◌≡◌, ◌≤◌, ◌<◌, ℕ, OnOk, length, take, List};
ghost use Rattle.node_store.specs.Slots.{AreDistinct, HaveSlots, IsIndexOf};
ghost use Rattle.node_store.specs.Chunks.{numbers_in};

use crate::chunk::Chunk;
use lr_base::NoMemory;

/// The most chunks that a store has, as many as slots can tell.
pub const MOST_CHUNKS: usize = 4_294_967_295;

/// Makes room for the slots of the chunks below a number; what the slots say stays.
pub fn grow(slots: &mut Vec<u32>, count: usize) -> Result<(), NoMemory>
    ensures index { (numbers : List ℕ) → IsIndexOf slots.old.items numbers → IsIndexOf slots.new.items numbers }
    ensures room { OnOk result (count ≤ length slots.new.items) }
    ensures longer { length slots.old.items ≤ length slots.new.items }
{
    if count > slots.len() {
        slots.resize(count, 0)?;
    }
    Ok(())
}

/// Sets the slots of the chunks from a place on.
pub fn set_slots(slots: &mut Vec<u32>, chunks: &[Chunk], from: usize)
    requires few { length chunks.now ≤ MOST_CHUNKS }
    requires from { from ≤ length chunks.now }
    requires room { HaveSlots slots.old.items from (numbers_in chunks.now) }
    requires distinct { AreDistinct (numbers_in chunks.now) }
    requires index { IsIndexOf slots.old.items (take from (numbers_in chunks.now)) }
    ensures { IsIndexOf slots.new.items (numbers_in chunks.now) }
{
    for place in from..chunks.len() {
        let number = chunks[place].number();
        slots[number as usize] = place as u32 + 1;
    }
}
