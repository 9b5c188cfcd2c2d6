//! The lines of short closing trees, which are found once.
ghost use Rattle.std.specs.Prelude.{◌≡◌, ◌<◌, true, ◌≤◌, ◌++◌, length, reverse, IfOk, IfErr, IfSome, OnOk};
ghost use Rattle.lr_base.specs.declared.limits.TheConstants.{TEXT_BYTES};
ghost use Rattle.lr_base.specs.IsGrammar.{IsSymbolOf};
ghost use Rattle.scanning_theory.specs.Scan.{Scanning};
ghost use Rattle.sample_text.specs.Choosing.{CanChoose};
ghost use Rattle.sample_text.specs.ClosingTexts.{AreLinesOf, HaveClosingTexts, IsClosedOn, IsClosingText, IsPast, IsSymbolClosedOn};

use crate::choices::Chooser;
use crate::fault::SampleFault;
use crate::words::append;
use grammar_data::{NameId, Sym};
use lr_base::NoMemory;
use std::alloc::Global;

/// How many steps of a derivation the lines of a name take at the most that are kept.
const STEPS: u32 = 64;

/// Puts a right side before the symbols that are left, which are kept from the last one to the first.
pub fn put_first(todo: &mut Vec<Sym>, right: &[Sym]) -> Result<(), NoMemory>
    ensures { OnOk result (todo.new.items ≡ todo.old.items ++ reverse right.now) }
{
    for place in 0..right.len() {
        todo.push(right[right.len() - 1 - place])?;
    }
    Ok(())
}

/// Puts the line of a token behind the text, where it is found, or the right side of a name's closing rule before the symbols
/// that are left: whether it did.
fn close_symbol(
    chooser: &Chooser<'_>,
    found: &[Option<Vec<u8>>],
    symbol: Sym,
    todo: &mut Vec<Sym>,
    text: &mut Vec<u8>,
) -> Result<bool, NoMemory>
    requires symbol { IsSymbolOf chooser.now.grammar.now.tokens chooser.now.grammar.now.names symbol }
    requires can { CanChoose chooser.now.grammar.now chooser.now.lists.items chooser.now.closings.items }
    ensures { IfOk result (λ done. done ≡ true → IsSymbolClosedOn chooser.now.grammar.now found.now symbol todo.old.items text.old.items todo.new.items text.new.items) }
{
    match symbol {
        Sym::Token(token) => match found.get(token.0 as usize) {
            Some(Some(line)) => {
                text.extend_from_slice(line)?;
                Ok(true)
            }
            Some(None) | None => Ok(false),
        },
        Sym::Name(name) => {
            put_first(todo, chooser.closing_side(name))?;
            Ok(true)
        }
    }
}

/// The lines of the tokens that closing rules choose for a name, where these take few steps and the lines of all are found.
fn closing_text(
    alloc: Global,
    chooser: &Chooser<'_>,
    found: &[Option<Vec<u8>>],
    name: NameId,
) -> Result<Option<Vec<u8>>, NoMemory>
    requires name { name < chooser.now.grammar.now.names }
    requires can { CanChoose chooser.now.grammar.now chooser.now.lists.items chooser.now.closings.items }
    ensures { IfOk result (λ kept. IfSome kept (λ text. (scanning : Scanning) → AreLinesOf scanning found.now → IsClosingText scanning chooser.now.grammar.now name text.items)) }
{
    chooser.grammar().holds();
    let mut text = Vec::new(alloc);
    let mut todo = Vec::new(alloc);
    todo.push(Sym::Name(name))?;
    for _ in 0..STEPS {
        let symbol = match todo.pop() {
            Some(symbol) => symbol,
            None => return Ok(Some(text)),
        };
        if !close_symbol(chooser, found, symbol, &mut todo, &mut text)? {
            return Ok(None);
        }
    }
    Ok(None)
}

/// For each name the lines that closing rules come to, where they are kept.
fn closing_texts(
    alloc: Global,
    chooser: &Chooser<'_>,
    found: &[Option<Vec<u8>>],
) -> Result<Vec<Option<Vec<u8>>>, NoMemory>
    requires can { CanChoose chooser.now.grammar.now chooser.now.lists.items chooser.now.closings.items }
    ensures { IfOk result (λ texts. (scanning : Scanning) → AreLinesOf scanning found.now → HaveClosingTexts scanning chooser.now.grammar.now texts.items) }
{
    let mut texts = Vec::new(alloc);
    for name in 0..chooser.grammar().names() {
        texts.push(closing_text(alloc, chooser, found, NameId(name))?)?;
    }
    Ok(texts)
}

/// Goes on by the closing rule of a name: its lines are put behind the text where they are kept, else the right side before the
/// symbols that are left. The lines of all names are found where none are known.
pub fn close(
    alloc: Global,
    chooser: &Chooser<'_>,
    found: &[Option<Vec<u8>>],
    texts: &mut Vec<Option<Vec<u8>>>,
    name: NameId,
    todo: &mut Vec<Sym>,
    text: &mut Vec<u8>,
) -> Result<(), SampleFault>
    requires name { name < chooser.now.grammar.now.names }
    requires can { CanChoose chooser.now.grammar.now chooser.now.lists.items chooser.now.closings.items }
    requires text { length text.old.items ≤ TEXT_BYTES }
    ensures fits { IfOk result (λ _. length text.new.items ≤ TEXT_BYTES) }
    ensures texts { (scanning : Scanning) → AreLinesOf scanning found.now → HaveClosingTexts scanning chooser.now.grammar.now texts.old.items → HaveClosingTexts scanning chooser.now.grammar.now texts.new.items }
    ensures closed { IfOk result (λ _. IsClosedOn chooser.now.grammar.now texts.new.items name todo.old.items text.old.items todo.new.items text.new.items) }
    ensures fault { IfErr result (IsPast texts.new.items name text.old.items) }
{
    if texts.is_empty() {
        *texts = closing_texts(alloc, chooser, found)?;
    }
    match texts.get(name.0 as usize) {
        Some(Some(lines)) => append(text, lines),
        Some(None) | None => {
            put_first(todo, chooser.closing_side(name))?;
            Ok(())
        }
    }
}
