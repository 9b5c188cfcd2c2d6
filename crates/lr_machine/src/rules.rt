ghost use Rattle.std.specs.Prelude.{◌≡◌, IfOk};

use lr_base::Rule;
use std::alloc::{AllocError, Global};

/// A copy of the rules.
pub fn copy_rules(alloc: Global, rules: &[Rule]) -> Result<Vec<Rule>, AllocError>
    ensures { IfOk result (λ copies. copies.items ≡ rules.now) }
{
    let mut copies = Vec::with_capacity(alloc, rules.len())?;
    for rule in rules {
        copies.push(Rule {
            left: rule.left,
            right: Vec::from_slice(alloc, &rule.right)?,
        })?;
    }
    Ok(copies)
}
