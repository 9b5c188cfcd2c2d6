//! The names of a tree.
ghost use Rattle.std.specs.Prelude.{◌≡◌, ◌≤◌, ◌++◌, ◌∷◌, [], Bool, List, length, IfOk, OnOk};
ghost use Rattle.grammar_data.specs.declared.token.Token.{Token as TextToken};
ghost use Rattle.grammar_theory.specs.Trees.{Tree};
ghost use Rattle.node_store.specs.Chunks.{store_of};
ghost use Rattle.sheet_data.specs.Sheet.{Sheet as SheetParts};
ghost use Rattle.translation_theory.specs.DeclaredNames.{names_of};
ghost use Rattle.finished_theory.specs.FinishedTrees.{IsFinished};
ghost use Rattle.name_table.specs.Markings.{AreMarkedPlaces, AreSettled, lists_of};
ghost use Rattle.name_table.specs.Pending.{IsUnderWay};

use crate::marked_places::all_places;
use crate::markings::marking_names;
use crate::names::Names;
use crate::parts::push_parts;
use lr_base::{NoMemory, TEXT_BYTES};
use node_data::{Kid, NodeRef};
use node_store::{PackedKid, Store};
use sheet_reader::Sheet;
use std::alloc::Global;

/// Looks at one part: a marked leaf is noted, and those parts of a node that may have marked leaves are put behind the others.
fn take_part<'a>(
    places: &[Vec<usize>],
    store: &Store,
    text: &'a [u8],
    part: PackedKid,
    parts: &mut Vec<PackedKid>,
    names: &mut Names<'a>,
) -> Result<(), NoMemory>
    requires { (sheet : SheetParts) × (marking : List Bool) × (all : List TextToken) × AreSettled sheet marking × AreMarkedPlaces sheet marking (lists_of places.now)
        × (length all ≤ TEXT_BYTES) × IsUnderWay sheet text.now (store_of store.now) all (parts.old.items ++ part ∷ []) names.old }
    ensures { (sheet : SheetParts) (marking : List Bool) (all : List TextToken) → AreSettled sheet marking → AreMarkedPlaces sheet marking (lists_of places.now)
        → length all ≤ TEXT_BYTES → IsUnderWay sheet text.now (store_of store.now) all (parts.old.items ++ part ∷ []) names.old
        → OnOk result (IsUnderWay sheet text.now (store_of store.now) all parts.new.items names.new) }
{
    match part.kid() {
        Kid::Token(token) => {
            let start = token.place.start as usize;
            let end = start + token.place.len as usize;
            names.note(&text[start..end], token.place.line)
        }
        Kid::Node(node) => {
            let places = &places[store.rule(node).0 as usize];
            push_parts(places, store.kids(node), parts)
        }
        Kid::Hidden => Ok(()),
    }
}

/// The names that a finished tree of the sheet over the text declares: the different byte strings of its marked leaves, from
/// left to right, each with its number, the line of its first marked leaf, and how many it has. The text has at most
/// 8,388,608 bytes. No call recurses on the tree; of its nodes only what is still to be looked at is kept, 16 bytes a part.
/// A node whose name has no rule that declares, nor a name below it that has one, isn't looked at.
pub fn declared<'a>(
    alloc: Global,
    sheet: &Sheet,
    store: &Store,
    root: NodeRef,
    text: &'a [u8],
) -> Result<Names<'a>, NoMemory>
    requires text { length text.now ≤ TEXT_BYTES }
    requires tree { (tree : Tree) × IsFinished sheet.now text.now (store_of store.now) root tree }
    ensures { IfOk result (λ names. (tree : Tree) → IsFinished sheet.now text.now (store_of store.now) root tree → names ≡ names_of sheet.now text.now tree) }
{
    let marking = marking_names(alloc, sheet)?;
    let places = all_places(alloc, sheet, &marking)?;
    let mut names = Names::new(alloc);
    let mut parts = Vec::new(alloc);
    parts.push(PackedKid::of(Kid::Node(root)))?;
    // No tree has so many parts that this ends before they do.
    for _ in 0..u64::MAX {
        match parts.pop() {
            Some(part) => take_part(&places, store, text, part, &mut parts, &mut names)?,
            None => return Ok(names),
        }
    }
    Err(NoMemory)
}
