//! Copies of words.
ghost use Rattle.std.specs.Prelude.{◌≡◌, map, IfOk};

use lr_base::NoMemory;
use sheet_data::Bytes;
use std::alloc::Global;

/// The bytes of words.
pub fn copy_words(alloc: Global, words: &[&[u8]]) -> Result<Vec<Bytes>, NoMemory>
    ensures { IfOk result (λ copies. copies.items ≡ map (λ word. word.now) words.now) }
{
    let mut copies = Vec::with_capacity(alloc, words.len())?;
    for word in words {
        copies.push(Bytes::from_vec(Vec::from_slice(alloc, word)?))?;
    }
    Ok(copies)
}
