//! The order in which a sheet's patterns are scanned.
ghost use Rattle.std.specs.Prelude.{◌≡◌, ◌+◌, ◌≤◌, [], ◌∷◌, ◌++◌, length, All, IfOk, OnOk};
ghost use Rattle.lr_base.specs.declared.limits.TheConstants.{TOKENS};
ghost use Rattle.sheet_theory.specs.Names.{declared_names};
ghost use Rattle.sheet_theory.specs.ScanOrder.{ranked_literal, declared_literals, unnamed_literals, declared_patterns};
ghost use Rattle.sheet_reader.specs.WellFormed.{IsLiteralText, IsOrdinaryDecl};
ghost use Rattle.sheet_reader.specs.Ranking.{Ranks};

use crate::copies::copy_pattern;
use lr_base::{NoMemory, TokenId};
use pattern_data::{Meaning, Pattern, PatternFault};
use sheet_data::{Bytes, Decl};
use std::alloc::Global;

/// Patterns in order of rank, each with what its string is.
pub type Ranking = Vec<(Pattern, Meaning)>;

/// Patterns in order of rank, and what the string of each is.
#[derive(Debug, Drop)]
pub struct ScanOrder {
    pub patterns: Vec<Pattern>,
    pub means: Vec<Meaning>,
}

impl ScanOrder {
    /// The patterns and the meanings of a ranking, each for themselves.
    pub(crate) fn of_ranking(alloc: Global, ranking: Ranking) -> Result<ScanOrder, NoMemory>
        ensures { IfOk result (λ order. Ranks order ranking.items) }
    {
        let mut patterns = Vec::with_capacity(alloc, ranking.len())?;
        let mut means = Vec::with_capacity(alloc, ranking.len())?;
        for (pattern, meaning) in ranking {
            patterns.push(pattern)?;
            means.push(meaning)?;
        }
        Ok(ScanOrder { patterns, means })
    }
}

/// Ranks the literal of a token behind the others.
fn push_literal(
    ranking: &mut Ranking,
    alloc: Global,
    token: u32,
    bytes: &[u8],
) -> Result<(), NoMemory>
    requires { IsLiteralText bytes.now }
    ensures { OnOk result (ranking.new.items ≡ ranking.old.items ++ ranked_literal token bytes.now ∷ []) }
{
    let pattern = match Pattern::literal(alloc, bytes) {
        Ok(pattern) => pattern,
        Err(PatternFault::NoMemory) => return Err(NoMemory),
        Err(PatternFault::Syntax | PatternFault::MatchesEmpty) => unreachable!(),
    };
    ranking.push((pattern, Meaning::Token(TokenId(token))))?;
    Ok(())
}

/// The number of the next declared token, behind a declaration where the next one has this number.
fn next_token(token: u32, decl: &Decl) -> u32
    requires { token + length (declared_names (decl.now ∷ [])) ≤ TOKENS }
    ensures { result ≡ token + length (declared_names (decl.now ∷ [])) }
{
    match decl {
        Decl::Literal { .. } | Decl::Matched { .. } => token + 1,
        Decl::Skip { .. } => token,
    }
}

/// Ranks the literal of a declaration, which declares the token of this number, behind the others.
fn rank_literal(
    ranking: &mut Ranking,
    alloc: Global,
    token: u32,
    decl: &Decl,
) -> Result<(), NoMemory>
    requires { IsOrdinaryDecl decl.now }
    ensures { OnOk result (ranking.new.items ≡ ranking.old.items ++ declared_literals token (decl.now ∷ [])) }
{
    match decl {
        Decl::Literal { bytes, .. } => push_literal(ranking, alloc, token, bytes.as_slice()),
        Decl::Matched { .. } | Decl::Skip { .. } => Ok(()),
    }
}

/// Ranks the declared literals behind the others.
pub fn rank_literals(ranking: &mut Ranking, alloc: Global, decls: &[Decl]) -> Result<(), NoMemory>
    requires each { All IsOrdinaryDecl decls.now }
    requires few { length (declared_names decls.now) ≤ TOKENS }
    ensures { OnOk result (ranking.new.items ≡ ranking.old.items ++ declared_literals 0 decls.now) }
{
    let mut token = 0;
    for decl in decls {
        rank_literal(ranking, alloc, token, decl)?;
        token = next_token(token, decl);
    }
    Ok(())
}

/// Ranks literals without a name behind the others; the first of them is the token of this number.
pub fn rank_unnamed(
    ranking: &mut Ranking,
    alloc: Global,
    first: u32,
    literals: &[Bytes],
) -> Result<(), NoMemory>
    requires each { All IsLiteralText literals.now }
    requires few { first + length literals.now ≤ TOKENS }
    ensures { OnOk result (ranking.new.items ≡ ranking.old.items ++ unnamed_literals first literals.now) }
{
    let mut token = first;
    for bytes in literals {
        push_literal(ranking, alloc, token, bytes.as_slice())?;
        token += 1;
    }
    Ok(())
}

/// Ranks the pattern of a declaration behind the others; the next declared token has this number.
fn rank_pattern(
    ranking: &mut Ranking,
    alloc: Global,
    token: u32,
    decl: &Decl,
) -> Result<(), NoMemory>
    ensures { OnOk result (ranking.new.items ≡ ranking.old.items ++ declared_patterns token (decl.now ∷ [])) }
{
    match decl {
        Decl::Literal { .. } => Ok(()),
        Decl::Matched { pattern, .. } => {
            let copy = copy_pattern(alloc, pattern)?;
            ranking.push((copy, Meaning::Token(TokenId(token))))?;
            Ok(())
        }
        Decl::Skip { pattern } => {
            let copy = copy_pattern(alloc, pattern)?;
            ranking.push((copy, Meaning::Skip))?;
            Ok(())
        }
    }
}

/// Ranks the declared patterns, skips among them, behind the others.
pub fn rank_patterns(ranking: &mut Ranking, alloc: Global, decls: &[Decl]) -> Result<(), NoMemory>
    requires { length (declared_names decls.now) ≤ TOKENS }
    ensures { OnOk result (ranking.new.items ≡ ranking.old.items ++ declared_patterns 0 decls.now) }
{
    let mut token = 0;
    for decl in decls {
        rank_pattern(ranking, alloc, token, decl)?;
        token = next_token(token, decl);
    }
    Ok(())
}
