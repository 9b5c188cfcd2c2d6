//! Which positions read a byte.
ghost use Rattle.std.specs.Prelude.{◌≡◌, ℕ, ◌*◌, ◌<◌, ◌≤◌, ◌↔◌, ◌⊎◌, length, slice_get, Some, IfOk};
ghost use Rattle.std.specs.Global.{Vec as Words};
ghost use Rattle.pattern_data.specs.Bytes.{IsMember};
ghost use Rattle.position_sets.specs.Sets.{Has, IsSetOfWords};
ghost use Rattle.token_patterns.specs.Ahead.{IsMaskOf};

use position_sets::{Position, insert, no_places};
use std::alloc::{AllocError, Global};

/// For each byte the set of the positions that read it, of this many words.
pub fn masks(
    alloc: Global,
    positions: &[Position],
    size: usize,
) -> Result<Vec<Vec<u64>>, AllocError>
    requires { length positions.now ≤ 64 * size }
    ensures count { IfOk result (λ masks. length masks.items ≡ 256) }
    ensures masks { IfOk result (λ masks. (byte : ℕ) (mask : Words ℕ) → slice_get masks.items byte ≡ Some mask → IsMaskOf positions.now byte mask.items) }
    ensures sets { IfOk result (λ masks. (byte : ℕ) (mask : Words ℕ) → slice_get masks.items byte ≡ Some mask → IsSetOfWords size mask.items) }
{
    let mut masks = Vec::new(alloc);
    for byte in 0..256u32 {
        masks.push(mask_of(alloc, positions, size, byte as u8)?)?;
    }
    Ok(masks)
}

/// The set of the positions that read the byte.
fn mask_of(
    alloc: Global,
    positions: &[Position],
    size: usize,
    byte: u8,
) -> Result<Vec<u64>, AllocError>
    requires { length positions.now ≤ 64 * size }
    ensures mask { IfOk result (λ mask. IsMaskOf positions.now byte mask.items) }
    ensures set { IfOk result (λ mask. IsSetOfWords size mask.items) }
{
    let mut mask = no_places(alloc, size)?;
    for (place, position) in positions.iter().enumerate() {
        mark(&mut mask, place, position, byte);
    }
    Ok(mask)
}

/// Adds the place of a position that reads the byte.
fn mark(mask: &mut Vec<u64>, place: usize, position: &Position, byte: u8)
    requires { place < 64 * length mask.old.items }
    ensures places { (q : ℕ) → Has mask.new.items q ↔ (Has mask.old.items q ⊎ ((q ≡ place) × IsMember position.now.bytes byte)) }
    ensures set { (size : ℕ) → IsSetOfWords size mask.old.items → IsSetOfWords size mask.new.items }
{
    if position.bytes.has(byte) {
        insert(mask, place);
    }
}
