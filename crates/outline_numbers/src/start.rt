//! The start.
ghost use Rattle.std.specs.Prelude.{◌≡◌, ℕ, List, [], ◌∷◌, true, All, MatchOption};
ghost use Rattle.outline_theory.specs.Words.{StartUse, starts};
ghost use Rattle.outline_theory.specs.Numbering.{is_one_of, start_by};
ghost use Rattle.outline_numbers.specs.Symbols.{AreNumbers, lists_in};
ghost use Rattle.numbering_theory.specs.KnownWords.{IsFirstStart};

use crate::numbers::Numbers;
use lr_base::NameId;
use outline_data::{Declaration, Outline};

/// The name of the first declaration of a start.
fn declared_start(outline: &Outline) -> Option<&[u8]>
    ensures { MatchOption result (starts outline.now ≡ []) (λ name. IsFirstStart (starts outline.now) name.now) }
{
    for declaration in &outline.declarations {
        if let Declaration::Start { name, .. } = declaration {
            return Some(name.bytes.as_slice());
        }
    }
    None
}

/// The declared start, or the left side of the first rule.
pub fn start_of(outline: &Outline, numbers: &Numbers<'_>) -> NameId
    requires numbers { AreNumbers numbers.now }
    requires known { All (λ (start : StartUse). is_one_of (lists_in numbers.now).names start.name.bytes ≡ true) (starts outline.now) }
    ensures { result ≡ start_by (lists_in numbers.now).names (starts outline.now) }
{
    match declared_start(outline) {
        Some(name) => numbers.name(name),
        None => NameId(0),
    }
}
