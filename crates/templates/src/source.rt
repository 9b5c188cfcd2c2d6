ghost use Rattle.std.specs.Prelude.{◌≡◌, ℕ, List, Some, take, drop};
ghost use Rattle.node_data.specs.declared.kid.Kid.{Kid};
ghost use Rattle.node_store.specs.Chunks.{store_of};
ghost use Rattle.node_store.specs.Kids.{kids_seen};
ghost use Rattle.templates.specs.Sources.{HasTemplate, kid_at, token_bytes};
ghost use Rattle.translation_theory.specs.DeclaredNames.{number_in};
ghost use Rattle.translation_theory.specs.TokenTexts.{bytes_of};
ghost use Rattle.translation_theory.specs.Translations.{template_in};

use crate::frame::Frame;
use grammar_data::Token;
use name_table::Names;
use node_store::{Kid, Kids, NodeRef, Store};
use sheet_reader::Sheet;
use std::marker::Model;

/// What a translation goes by: the sheet, the nodes, the text that their tokens stand in, and the names that are numbered.
/// Contracts see what these are seen as.
#[derive(Debug, Drop)]
pub struct Source<'a, 'b> {
    pub sheet: &'a Sheet,
    pub store: &'a Store,
    pub text: &'a [u8],
    pub names: &'a Names<'b>,
}

impl<'a, 'b> Model for Source<'a, 'b> {
    ghost use Rattle.std.specs.Coded.{codes};
    ghost use Rattle.pattern_data.specs.contracts.pattern.Pattern as pattern;
    ghost use Rattle.templates.specs.Sources.{Source as SourceParts};

    ghost Value = { SourceParts };

    ghost coded = { Prim.hlevel (codes, pattern.the_row.coded) };

    ghost view = { λ s. record { sheet = s.sheet.now; chunks = s.store.now; text = s.text.now; names = s.names.now } };
}

/// The kid at a place, counted from 1; where there is none, as a hidden one.
pub fn kid_of(kids: Kids<'_>, place: u32) -> Kid
    ensures { result ≡ kid_at (kids_seen kids.entry) place }
{
    match kids.get(place.saturating_sub(1) as usize) {
        Some(kid) => kid,
        None => Kid::Hidden,
    }
}

/// The bytes of a text that a token stands for, as many of them as the text has.
fn bytes_in(text: &[u8], start: usize, count: usize) -> &[u8]
    ensures { result.now ≡ take count (drop start text.now) }
{
    let behind = &text[start.min(text.len())..];
    &behind[..count.min(behind.len())]
}

impl<'a, 'b> Source<'a, 'b> {
    /// A node whose template is begun.
    pub fn frame(&self, node: NodeRef) -> Frame<'a>
        requires { HasTemplate self.now node }
        ensures { (rule : ℕ) (kids : List Kid) → store_of self.now.chunks node ≡ Some (rule, kids)
            → (kids_seen result.kids ≡ kids) × (result.parts.now ≡ template_in self.now.sheet rule) }
    {
        Frame {
            parts: self.sheet.template(self.store.rule(node)),
            kids: self.store.kids(node),
        }
    }

    /// The bytes of a token.
    pub fn token_bytes(&self, token: Token) -> &'a [u8]
        ensures { result.now ≡ bytes_of self.now.text token }
    {
        bytes_in(
            self.text,
            token.place.start as usize,
            token.place.len as usize,
        )
    }

    /// The bytes of a kid that is a token; none of another.
    pub fn kid_bytes(&self, kid: Kid) -> &'a [u8]
        ensures { result.now ≡ token_bytes self.now.text kid }
    {
        match kid {
            Kid::Token(token) => self.token_bytes(token),
            _ => &[],
        }
    }

    /// The number of these bytes among the names, counted from 1; 0 exactly where they are no name.
    pub fn number(&self, bytes: &[u8]) -> u32
        ensures { result ≡ number_in self.now.names bytes.now }
    {
        self.names.number(bytes)
    }
}
