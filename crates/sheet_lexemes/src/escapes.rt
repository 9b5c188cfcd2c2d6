//! The bytes that are written between quotes.
ghost use Rattle.std.specs.Prelude.{ℕ, List, IfOk, MatchOption};
ghost use Rattle.lexeme_theory.specs.Escapes.{Spells};

use lr_base::NoMemory;
use pattern_data::front;
use sheet_data::Bytes;
use std::alloc::Global;

/// The bytes that a text stands for; none where an escape is wrong.
pub fn spelled(alloc: Global, text: &[u8]) -> Result<Option<Bytes>, NoMemory>
    ensures { IfOk result (λ found. MatchOption found ((bytes : List ℕ) → ¬ (Spells text.now bytes)) (λ bytes. Spells text.now bytes)) }
{
    let mut bytes = Vec::new(alloc);
    let mut left = text;
    while !left.is_empty() {
        let Some((byte, rest)) = front(left) else {
            return Ok(None);
        };
        bytes.push(byte)?;
        left = rest;
    }
    Ok(Some(Bytes::from_vec(bytes)))
}
