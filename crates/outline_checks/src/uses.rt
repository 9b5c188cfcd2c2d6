//! Faults of the places that templates and marks use.
ghost use Rattle.std.specs.Prelude.{◌≡◌, ◌<◌, ◌⊎◌, ◌↔◌, ℕ, true, List, [], ◌∷◌, ◌++◌, length, IfOk, OnOk, IsTrue};
ghost use Rattle.std.specs.List.{flat_map};
ghost use Rattle.outline_theory.specs.Words.{use_in, number_in};
ghost use Rattle.outline_checks.specs.Noted.{Noted};
ghost use Rattle.outline_checks.specs.Kinds.{InSome, PlaceFault, NoTokenFault, IsGrammarName};

use crate::first_fault::FirstFault;
use crate::names::Names;
use crate::place_set::PlaceSet;
use lr_base::NoMemory;
use outline_data::{PlaceUse, SheetFault, Symbol, TemplatePart};
use std::alloc::Global;

/// Notes each place that a right side of this length doesn't have, and each that is used before.
pub fn note_places(
    alloc: Global,
    size: usize,
    uses: &[PlaceUse],
    first: &mut FirstFault,
) -> Result<(), NoMemory>
    ensures { OnOk result (Noted first.old.fault first.new.fault (PlaceFault size uses.now)) }
{
    let mut places = PlaceSet::new(alloc);
    for used in uses {
        first.note_if(
            is_out_of_range(size, used.place),
            SheetFault::PlaceOutOfRange(used.line),
        );
        let was_there = places.add(used.place)?;
        first.note_if(was_there, SheetFault::PlaceTwice(used.line));
    }
    Ok(())
}

/// Whether a right side of this length doesn't have the place.
fn is_out_of_range(size: usize, place: u32) -> bool
    ensures { IsTrue result ↔ ((place ≡ 0) ⊎ (size < place)) }
{
    place == 0 || size < place as usize
}

/// Notes each place at which a name of the grammar stands.
pub fn note_grammar_names(
    names: &Names<'_>,
    right: &[Symbol],
    uses: &[PlaceUse],
    first: &mut FirstFault,
)
    ensures { Noted first.old.fault first.new.fault (InSome (NoTokenFault names.now right.now) uses.now) }
{
    for used in uses {
        let is_name = is_grammar_name(names, right, used.place);
        first.note_if(is_name, SheetFault::NotAToken(used.line));
    }
}

/// Whether a name of the grammar stands at the place.
fn is_grammar_name(names: &Names<'_>, right: &[Symbol], place: u32) -> bool
    ensures { IsTrue result ↔ IsGrammarName names.now right.now place }
{
    if place == 0 {
        return false;
    }
    match right.get(place as usize - 1) {
        Some(Symbol::Name(word)) => {
            let name = word.bytes.as_slice();
            !names.is_token(name) && names.has_rule(name)
        }
        _ => false,
    }
}

/// The places that a template uses.
pub fn template_places(alloc: Global, parts: &[TemplatePart]) -> Result<Vec<PlaceUse>, NoMemory>
    ensures { IfOk result (λ uses. uses.items ≡ flat_map use_in parts.now) }
{
    let mut uses = Vec::new(alloc);
    for part in parts {
        match part {
            TemplatePart::Text(_) => {}
            TemplatePart::Fold(used) | TemplatePart::Number(used) => uses.push(*used)?,
        }
    }
    Ok(uses)
}

/// The places of which a template asks the number.
pub fn template_numbers(alloc: Global, parts: &[TemplatePart]) -> Result<Vec<PlaceUse>, NoMemory>
    ensures { IfOk result (λ uses. uses.items ≡ flat_map number_in parts.now) }
{
    let mut uses = Vec::new(alloc);
    for part in parts {
        if let TemplatePart::Number(used) = part {
            uses.push(*used)?;
        }
    }
    Ok(uses)
}
