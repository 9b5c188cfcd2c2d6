ghost use Rattle.std.specs.Prelude.{◌↔◌, IfSome, IsTrue, MatchOption};
ghost use Rattle.table_theory.specs.Deeds.{HasDeed};
ghost use Rattle.item_theory.specs.Items.{Deed};
ghost use Rattle.collection_data.specs.Entries.{IsEntry};
ghost use Rattle.lr_tables.specs.EntryDeeds.{HasItem, IsDeedIn, IsDeedOf, IsIdle};

use item_sets::Entry;
use lr_base::{Grammar, RuleId, Sym, TokenId};

/// What the items of an entry do: they shift the token behind the dot, reduce by their rule on their lookaheads, or
/// accept on the end mark.
#[derive(Clone, Copy, Debug, PartialEq, Eq)]
pub enum EntryDeed {
    Shift(TokenId),
    Reduce(RuleId),
    Accept,
}

/// What the items of an entry do; `None` where the dot stands before a name, and they do nothing.
pub fn entry_deed(grammar: &Grammar, entry: &Entry) -> Option<EntryDeed>
    requires { IsEntry grammar.now entry.now }
    ensures does { MatchOption result (IsIdle grammar.now entry.now) (λ deed. IsDeedOf grammar.now entry.now deed) }
    ensures in_range { IfSome result (λ deed. IsDeedIn grammar.now entry.now deed) }
{
    if entry.rule.0 == grammar.rule_count() {
        return if entry.dot == 0 {
            None
        } else {
            Some(EntryDeed::Accept)
        };
    }
    match grammar.right(entry.rule).get(entry.dot as usize) {
        Some(Sym::Token(token)) => Some(EntryDeed::Shift(*token)),
        Some(Sym::Name(_)) => None,
        None => Some(EntryDeed::Reduce(entry.rule)),
    }
}

/// Whether an item of an entry acts on a token or on the end mark.
pub fn acts(grammar: &Grammar, entry: &Entry, deed: &EntryDeed, token: TokenId) -> bool
    requires entry { IsEntry grammar.now entry.now }
    requires does { IsDeedOf grammar.now entry.now deed.now }
    ensures { IsTrue result ↔ ((does : Deed) × HasDeed grammar.now (HasItem entry.now) token does) }
{
    match *deed {
        EntryDeed::Shift(behind) => behind == token,
        EntryDeed::Reduce(_) => entry.ahead.has(token),
        EntryDeed::Accept => token == grammar.end(),
    }
}
