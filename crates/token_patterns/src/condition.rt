//! Whether a scanner can be built of patterns.
ghost use Rattle.std.specs.Prelude.{◌≡◌, ◌↔◌, ◌≤◌, ℕ, [], length, All, IfOk, IsTrue};
ghost use Rattle.pattern_data.specs.declared.pattern.Pattern.{Pattern};
ghost use Rattle.pattern_data.specs.Language.{Matches};
ghost use Rattle.position_theory.specs.Positions.{count_all};
ghost use Rattle.scanning_theory.specs.declared.limits.TheConstants.{POSITIONS};
ghost use Rattle.scanning_theory.specs.Scannable.{IsScannable};

use lr_base::NoMemory;
use pattern_data::Pattern;
use position_sets::{begin_of, count_together};
use scanning_theory::{PATTERNS, POSITIONS};
use std::alloc::Global;

/// How many words of 64 bits a set of all positions takes.
const WORDS: usize = POSITIONS / 64 + 1;

/// Whether the patterns keep the limits and none has the empty string, so that a scanner can be built of them.
pub fn can_build(alloc: Global, patterns: &[Pattern]) -> Result<bool, NoMemory>
    ensures { IfOk result (λ can. IsTrue can ↔ IsScannable patterns.now) }
{
    if patterns.len() > PATTERNS {
        return Ok(false);
    }
    if count_together(patterns) > POSITIONS {
        return Ok(false);
    }
    none_empty(alloc, patterns)
}

/// Whether none of the patterns has the empty string.
fn none_empty(alloc: Global, patterns: &[Pattern]) -> Result<bool, NoMemory>
    requires { count_all patterns.now ≤ POSITIONS }
    ensures { IfOk result (λ none. IsTrue none ↔ All (λ pattern. ¬ (Matches pattern [])) patterns.now) }
{
    for pattern in patterns {
        if begin_of(alloc, pattern, 0, WORDS)?.empty {
            return Ok(false);
        }
    }
    Ok(true)
}
