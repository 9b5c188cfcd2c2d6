ghost use Rattle.std.specs.Prelude.{◌≡◌, ◌↔◌, [], map, Contains, IfOk, IfErr};
ghost use Rattle.pattern_data.specs.Language.{byte_pattern, literal_pattern};

use crate::byte_set::ByteSet;
use crate::fault::PatternFault;
use grammar_data::TokenId;
use sqlite_items::{Boxed, Items};
use std::alloc::Global;

/// The line feed, which no string of a pattern has.
const LINE_FEED: u8 = b'\n';

/// A pattern: its language is a set of byte strings.
#[derive(Debug, Drop)]
pub enum Pattern {
    /// One byte of the set.
    Set(ByteSet),
    /// One string of each member, one after another.
    Seq(Items<Pattern>),
    /// A string of any one member.
    Alt(Items<Pattern>),
    /// Any number of strings of the inner pattern, one after another.
    Star(Boxed<Pattern>),
    /// At least one.
    Plus(Boxed<Pattern>),
    /// One string of the inner pattern, or nothing.
    Opt(Boxed<Pattern>),
}

impl Pattern {
    /// The pattern whose one string is these bytes. No bytes at all are refused, and so is a line feed.
    pub fn literal(alloc: Global, bytes: &[u8]) -> Result<Pattern, PatternFault>
        ensures pattern { IfOk result (λ p. p ≡ literal_pattern bytes.now) }
        ensures empty { (result ≡ Err PatternFault.MatchesEmpty) ↔ (bytes.now ≡ []) }
        ensures line_feed { (result ≡ Err PatternFault.Syntax) ↔ Contains bytes.now 10 }
    {
        if bytes.contains(&LINE_FEED) {
            return Err(PatternFault::Syntax);
        }
        match bytes {
            [] => Err(PatternFault::MatchesEmpty),
            [byte] => Ok(Pattern::Set(ByteSet::only(*byte))),
            _ => Ok(Pattern::Seq(byte_patterns(alloc, bytes)?)),
        }
    }
}

/// The set of each byte, in order.
fn byte_patterns(alloc: Global, bytes: &[u8]) -> Result<Items<Pattern>, PatternFault>
    requires { ¬ (Contains bytes.now 10) }
    ensures ok { IfOk result (λ members. members ≡ map byte_pattern bytes.now) }
    ensures err { IfErr result (λ fault. fault ≡ PatternFault.NoMemory) }
{
    let mut members = Vec::with_capacity(alloc, bytes.len())?;
    for byte in bytes {
        members.push(Pattern::Set(ByteSet::only(*byte)))?;
    }
    Ok(Items::from_vec(members))
}

/// What a scan makes of a pattern's string.
#[derive(Clone, Copy, Debug, PartialEq, Eq)]
pub enum Meaning {
    Token(TokenId),
    Skip,
}
