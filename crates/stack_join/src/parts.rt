ghost use Rattle.std.specs.Prelude.{◌≡◌, ◌<◌, ◌++◌, ◌≢◌, [], IsTrue, false, length, OnOk, IfSome, IfNone};
ghost use Rattle.piece_lists.specs.Lists.{pieces_in, pieces_of};

use lr_base::NoMemory;
use piece_lists::Part;

/// Whether some part of a list has a piece.
pub fn has_piece(parts: &[Part]) -> bool
    ensures none { result ≡ false → pieces_in parts.now ≡ [] }
    ensures some { IsTrue result → pieces_in parts.now ≢ [] }
{
    for part in parts {
        if part.skipped < part.block.count() {
            return true;
        }
    }
    false
}

/// Takes the last part that has a piece off a list of parts, and those behind it.
pub fn last_part(parts: &mut Vec<Part>) -> Option<Part>
    ensures none { IfNone result ((pieces_in parts.old.items ≡ []) × (parts.new.items ≡ [])) }
    ensures some { IfSome result (λ part. (pieces_in parts.old.items ≡ pieces_in parts.new.items ++ pieces_of part)
        × (part.skipped < length part.block.closed)) }
{
    while let Some(part) = parts.pop() {
        if part.skipped < part.block.count() {
            return Some(part);
        }
    }
    None
}

/// The parts that have a piece are put behind others.
pub fn append(parts: &mut Vec<Part>, others: Vec<Part>) -> Result<(), NoMemory>
    ensures { OnOk result (pieces_in parts.new.items ≡ pieces_in parts.old.items ++ pieces_in others.items) }
{
    for part in others {
        if part.skipped < part.block.count() {
            parts.push(part)?;
        }
    }
    Ok(())
}
