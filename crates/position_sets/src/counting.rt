//! How many positions patterns have.
ghost use Rattle.std.specs.Prelude.{◌≡◌, ◌^◌, ◌-◌, min};
ghost use Rattle.pattern_data.specs.Language.{positions_of};
ghost use Rattle.position_theory.specs.Positions.{count_all};

use pattern_data::Pattern;

/// The number of positions of a pattern, or the greatest number where there are more.
#[cycle(counts)]
pub fn count_positions(pattern: &Pattern) -> usize
    ensures { result ≡ min (positions_of pattern.now) (2 ^ 64 - 1) }
{
    match pattern {
        Pattern::Set(_) => 1,
        Pattern::Seq(members) => count_together(members.as_slice()),
        Pattern::Alt(members) => count_together(members.as_slice()),
        Pattern::Star(inner) => count_positions(inner.get()),
        Pattern::Plus(inner) => count_positions(inner.get()),
        Pattern::Opt(inner) => count_positions(inner.get()),
    }
}

/// The number of positions of some patterns together, or the greatest number where there are more.
#[cycle(counts)]
pub fn count_together(patterns: &[Pattern]) -> usize
    ensures { result ≡ min (count_all patterns.now) (2 ^ 64 - 1) }
{
    let mut count: usize = 0;
    let mut at = patterns.len();
    while at > 0 {
        at -= 1;
        count = count.saturating_add(count_positions(&patterns[at]));
    }
    count
}
