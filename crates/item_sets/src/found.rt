ghost use Rattle.std.specs.Prelude.{◌≡◌, ℕ, List, if◌then◌else◌, All, IfOk, OnErr, Some};
ghost use Rattle.std.specs.Global.{Vec as Words};
ghost use Rattle.grammar_data.specs.TokenSet.{IsTokenSet};
ghost use Rattle.collection_data.specs.declared.entry.Entry.{Entry as Lookaheads};
ghost use Rattle.item_sets.specs.Successors.{key_of};
ghost use Rattle.item_sets.specs.Found.{same_key, state_at};

use collection_data::Entry;
use lr_base::StateId;
use std::alloc::{AllocError, Global};
use std::collections::HashMap;

/// The key of a kernel.
pub fn key(alloc: Global, kernel: &[Entry]) -> Result<Vec<u64>, AllocError>
    requires { All (λ (e : Lookaheads). IsTokenSet e.ahead) kernel.now }
    ensures { IfOk result (λ key. key.items ≡ key_of kernel.now) }
{
    let mut key = Vec::new(alloc);
    for entry in kernel {
        let rule = entry.rule;
        key.push(u64::from(rule.0))?;
        key.push(u64::from(entry.dot))?;
        key.extend_from_slice(&entry.ahead.words())?;
    }
    Ok(key)
}

/// The state with the key.
pub fn find(found: &HashMap<Vec<u64>, StateId>, key: &Vec<u64>) -> Option<StateId>
    ensures { result ≡ state_at found.now key.now.items }
{
    found.get(key).copied()
}

/// Notes the state with the key. After want of memory the map has what it had.
pub fn note(
    found: &mut HashMap<Vec<u64>, StateId>,
    key: Vec<u64>,
    state: StateId,
) -> Result<(), AllocError>
    ensures noted { IfOk result (λ _. (other : Words ℕ) → state_at found.new other.items
        ≡ (if same_key key.items other.items then Some state else state_at found.old other.items)) }
    ensures kept { OnErr result (found.new.entries ≡ found.old.entries) }
{
    found.insert(key, state)?;
    Ok(())
}
