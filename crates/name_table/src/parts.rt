//! The parts of a node that are looked at for marked leaves.
ghost use Rattle.std.specs.Prelude.{◌≡◌, ◌<◌, ◌++◌, All, length, OnOk};
ghost use Rattle.node_store.specs.Kids.{kids_seen};
ghost use Rattle.name_table.specs.Pending.{kids_at};

use lr_base::NoMemory;
use node_store::{Kids, PackedKid};

/// Puts the kids at these places, counted from 0, behind the parts.
pub fn push_parts(
    places: &[usize],
    kids: Kids<'_>,
    parts: &mut Vec<PackedKid>,
) -> Result<(), NoMemory>
    requires { All (λ place. place < length (kids_seen kids)) places.now }
    ensures { OnOk result (parts.new.items ≡ parts.old.items ++ kids_at (kids_seen kids.entry) places.now) }
{
    for place in places {
        parts.push(kids.packed(*place))?;
    }
    Ok(())
}
