//! The parts of each rule that may have marked leaves, found once a rule.
ghost use Rattle.std.specs.Prelude.{◌≡◌, [], ◌∷◌, ◌++◌, if◌then◌else◌, length, IfOk, OnOk};
ghost use Rattle.name_table.specs.Markings.{AreMarkedPlaces, lists_of, marked_places};

use crate::markings::may_be_marked;
use grammar_data::{RuleId, Sym};
use lr_base::NoMemory;
use sheet_reader::Sheet;
use std::alloc::Global;

/// Puts a place behind the others, where its part may have marked leaves.
fn push_place(may: bool, place: usize, places: &mut Vec<usize>) -> Result<(), NoMemory>
    ensures { OnOk result (places.new.items ≡ places.old.items ++ (if may then place ∷ [] else [])) }
{
    if may {
        places.push(place)?;
    }
    Ok(())
}

/// The places of those parts of a right side that may have marked leaves, counted from 0, the last one first. The rule
/// declares these places, counted from 1.
fn places_in(
    alloc: Global,
    declared: &[u32],
    marking: &[bool],
    right: &[Sym],
) -> Result<Vec<usize>, NoMemory>
    ensures { IfOk result (λ places. places.items ≡ marked_places declared.now marking.now 0 right.now) }
{
    let mut places = Vec::new(alloc);
    let mut left = right.len();
    while left > 0 {
        let may = may_be_marked(declared, marking, left, right[left - 1]);
        push_place(may, left - 1, &mut places)?;
        left -= 1;
    }
    Ok(places)
}

/// For each rule of a sheet the places of its parts that may have marked leaves, counted from 0, the last one first.
pub fn all_places(
    alloc: Global,
    sheet: &Sheet,
    marking: &[bool],
) -> Result<Vec<Vec<usize>>, NoMemory>
    ensures { IfOk result (λ lists. AreMarkedPlaces sheet.now marking.now (lists_of lists.items)) }
{
    let grammar = sheet.grammar();
    let mut lists = Vec::new(alloc);
    for number in 0..grammar.rule_count() {
        let rule = RuleId(number);
        let places = places_in(alloc, sheet.declares(rule), marking, grammar.right(rule))?;
        lists.push(places)?;
    }
    Ok(lists)
}
