//! What one part of a template gives.
ghost use Rattle.std.specs.Prelude.{◌≡◌, ◌++◌, IfOk, OnOk};
ghost use Rattle.std.specs.Fmt.{decimal};
ghost use Rattle.grammar_theory.specs.Trees.{Forest};
ghost use Rattle.node_store.specs.Kids.{kids_seen};
ghost use Rattle.templates.specs.Pending.{HasLeft, Unfolds};
ghost use Rattle.templates.specs.Sources.{AreKids, HasForest, given, kid_at, token_bytes};
ghost use Rattle.translation_theory.specs.DeclaredNames.{number_in};
ghost use Rattle.translation_theory.specs.Translations.{at_place, translations_by};

use crate::frame::Frame;
use crate::source::{Source, kid_of};
use block_writer::push_number;
use lr_base::NoMemory;
use node_store::{Kid, Kids};
use sheet_data::Part;

/// Puts a begun template behind the others, where it has a part left; where it has none, it is ended.
fn push_left<'a>(frames: &mut Vec<Frame<'a>>, left: Frame<'a>) -> Result<(), NoMemory>
    ensures { OnOk result (HasLeft left.entry frames.old.items frames.new.items) }
{
    if left.parts.is_empty() {
        return Ok(());
    }
    frames.push(left)?;
    Ok(())
}

/// The translation of the kid at a place, counted from 1: a token's bytes are gathered, a node's template is begun. Gives the
/// template to go on with.
fn fold<'a>(
    source: &Source<'a, '_>,
    left: Frame<'a>,
    place: u32,
    frames: &mut Vec<Frame<'a>>,
    gathered: &mut Vec<u8>,
) -> Result<Frame<'a>, NoMemory>
    requires { HasForest source.now (kids_seen left.kids) }
    ensures { IfOk result (λ next. (trees : Forest) → AreKids source.now (kids_seen left.entry.kids) trees
        → Unfolds source.now left.entry frames.old.items next frames.new.items gathered.old.items gathered.new.items
        (at_place (translations_by source.now.sheet source.now.text source.now.names trees) place)) }
{
    match kid_of(left.kids, place) {
        Kid::Token(token) => {
            gathered.extend_from_slice(source.token_bytes(token))?;
            Ok(left)
        }
        Kid::Node(node) => {
            push_left(frames, left)?;
            Ok(source.frame(node))
        }
        Kid::Hidden => Ok(left),
    }
}

/// The number of the bytes of the kid at a place, counted from 1, in decimal digits.
fn number(
    source: &Source,
    kids: Kids<'_>,
    place: u32,
    gathered: &mut Vec<u8>,
) -> Result<(), NoMemory>
    ensures { OnOk result (gathered.new.items ≡ gathered.old.items
        ++ decimal (number_in source.now.names (token_bytes source.now.text (kid_at (kids_seen kids.entry) place)))) }
{
    let bytes = source.kid_bytes(kid_of(kids, place));
    push_number(gathered, u64::from(source.number(bytes)))
}

/// What a part of a template gives, behind which this is left of it: bytes are gathered, or a kid's template is begun. Gives
/// the template to go on with.
pub fn part<'a>(
    source: &Source<'a, '_>,
    part: &Part,
    left: Frame<'a>,
    frames: &mut Vec<Frame<'a>>,
    gathered: &mut Vec<u8>,
) -> Result<Frame<'a>, NoMemory>
    requires { HasForest source.now (kids_seen left.kids) }
    ensures { IfOk result (λ next. (trees : Forest) → AreKids source.now (kids_seen left.entry.kids) trees
        → Unfolds source.now left.entry frames.old.items next frames.new.items gathered.old.items gathered.new.items
        (given source.now trees part.now)) }
{
    match part {
        Part::Text(bytes) => {
            gathered.extend_from_slice(bytes.as_slice())?;
            Ok(left)
        }
        Part::Fold(place) => fold(source, left, *place, frames, gathered),
        Part::Number(place) => {
            number(source, left.kids, *place, gathered)?;
            Ok(left)
        }
    }
}
