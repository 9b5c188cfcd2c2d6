//! Copies of patterns and words.
ghost use Rattle.std.specs.Prelude.{◌≡◌, IfOk};

use lr_base::NoMemory;
use outline_data::Word;
use pattern_data::Pattern;
use sheet_data::Bytes;
use sqlite_items::{Boxed, Items};
use std::alloc::Global;

/// The bytes of a word.
pub fn copy_bytes(alloc: Global, word: &Word) -> Result<Bytes, NoMemory>
    ensures { IfOk result (λ bytes. bytes ≡ word.now.bytes) }
{
    let bytes = Vec::from_slice(alloc, word.bytes.as_slice())?;
    Ok(Bytes::from_vec(bytes))
}

/// The same pattern once more. It goes down the tree, which the reading of a pattern's text keeps low.
#[cycle(copies)]
pub fn copy_pattern(alloc: Global, pattern: &Pattern) -> Result<Pattern, NoMemory>
    ensures { IfOk result (λ copy. copy ≡ pattern.now) }
{
    match pattern {
        Pattern::Set(set) => Ok(Pattern::Set(*set)),
        Pattern::Seq(members) => Ok(Pattern::Seq(copy_members(alloc, members.as_slice())?)),
        Pattern::Alt(members) => Ok(Pattern::Alt(copy_members(alloc, members.as_slice())?)),
        Pattern::Star(inner) => Ok(Pattern::Star(copy_inner(alloc, inner.get())?)),
        Pattern::Plus(inner) => Ok(Pattern::Plus(copy_inner(alloc, inner.get())?)),
        Pattern::Opt(inner) => Ok(Pattern::Opt(copy_inner(alloc, inner.get())?)),
    }
}

#[cycle(copies)]
fn copy_members(alloc: Global, members: &[Pattern]) -> Result<Items<Pattern>, NoMemory>
    ensures { IfOk result (λ copies. copies ≡ members.now) }
{
    let mut copies = Vec::new(alloc);
    for member in members {
        copies.push(copy_pattern(alloc, member)?)?;
    }
    Ok(Items::from_vec(copies))
}

#[cycle(copies)]
fn copy_inner(alloc: Global, inner: &Pattern) -> Result<Boxed<Pattern>, NoMemory>
    ensures { IfOk result (λ copy. copy ≡ inner.now) }
{
    let copy = copy_pattern(alloc, inner)?;
    Ok(Boxed::new(alloc, copy)?)
}
