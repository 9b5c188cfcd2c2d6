ghost use Rattle.std.specs.Prelude.{◌≡◌, ℕ, ◌<◌, ◌≤◌, IfSome, IsTrue, MatchOption};
ghost use Rattle.grammar_data.specs.TokenSet.{has_token};
ghost use Rattle.collection_data.specs.Entries.{AreEntries};
ghost use Rattle.table_theory.specs.Clashes.{HasClash};
ghost use Rattle.lr_tables.specs.EntryDeeds.{HaveItem, IsOn};
ghost use Rattle.lr_tables.specs.Clashing.{HasNoneBeside, IsClashOn, IsLeastAhead, IsLeastBeside, IsLeastToken};

use crate::deed::{EntryDeed, acts, entry_deed};
use grammar_faults::{Conflict, Item};
use item_sets::Entry;
use lr_base::{Grammar, StateId, TokenId, TokenSet};

/// The least token of a set that has one.
fn least(tokens: &TokenSet) -> TokenId
    requires { (a : ℕ) × IsTrue (has_token tokens.now a) }
    ensures { IsLeastToken tokens.now result }
{
    for token in 0..256 {
        if tokens.has(TokenId(token)) {
            return TokenId(token);
        }
    }
    unreachable!()
}

/// The least item of an entry that does this on a token.
fn least_item(entry: &Entry, deed: EntryDeed, token: TokenId) -> Item
    requires { (a : ℕ) × IsTrue (has_token entry.now.ahead a) }
    ensures rule { result.rule ≡ entry.now.rule }
    ensures dot { result.dot ≡ entry.now.dot }
    ensures ahead { IsLeastAhead entry.now deed token result.ahead }
{
    let ahead = match deed {
        EntryDeed::Reduce(_) => token,
        EntryDeed::Shift(_) | EntryDeed::Accept => least(&entry.ahead),
    };
    Item {
        rule: entry.rule,
        dot: entry.dot,
        ahead,
    }
}

/// The least item that does something else on a token than is known, and what it does.
fn least_beside(
    grammar: &Grammar,
    entries: &[Entry],
    token: TokenId,
    known: Option<EntryDeed>,
) -> Option<(Item, EntryDeed)>
    requires entries { AreEntries grammar.now entries.now }
    requires known { IfSome known (λ deed. IsOn deed token) }
    ensures { MatchOption result
        (HasNoneBeside grammar.now entries.now token known)
        (λ found. IsLeastBeside grammar.now entries.now token known found.0 found.1) }
{
    for entry in entries {
        let Some(deed) = entry_deed(grammar, entry) else {
            continue;
        };
        if known != Some(deed) && acts(grammar, entry, &deed, token) {
            return Some((least_item(entry, deed, token), deed));
        }
    }
    None
}

/// The least item that acts on a token, and the least that does something else on it, if there are both.
fn clash_on(grammar: &Grammar, entries: &[Entry], token: TokenId) -> Option<(Item, Item)>
    requires { AreEntries grammar.now entries.now }
    ensures { MatchOption result
        (HasClash grammar.now (HaveItem entries.now) token → ⊥)
        (λ found. IsClashOn grammar.now entries.now token found.0 found.1) }
{
    let (first, deed) = least_beside(grammar, entries, token, None)?;
    let (second, _) = least_beside(grammar, entries, token, Some(deed))?;
    Some((first, second))
}

/// The first conflict of the entries of a state that have one.
pub fn first_clash(grammar: &Grammar, entries: &[Entry], state: StateId) -> Conflict
    requires entries { AreEntries grammar.now entries.now }
    requires clash { (a : ℕ) × (a ≤ grammar.now.tokens) × HasClash grammar.now (HaveItem entries.now) a }
    ensures state { result.state ≡ state }
    ensures clash { IsClashOn grammar.now entries.now result.token result.first result.second }
    ensures least { (b : ℕ) → b < result.token → HasClash grammar.now (HaveItem entries.now) b → ⊥ }
{
    for token in 0..grammar.bad().0 {
        if let Some((first, second)) = clash_on(grammar, entries, TokenId(token)) {
            return Conflict {
                state,
                token: TokenId(token),
                first,
                second,
            };
        }
    }
    unreachable!()
}
