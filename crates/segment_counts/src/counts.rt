ghost use Rattle.std.specs.Prelude.{◌≡◌, ◌+◌, ◌<◌, ◌≤◌, ℕ, IfOk};
ghost use Rattle.lr_base.specs.declared.limits.TheConstants.{TEXT_BYTES};
ghost use Rattle.cutting_theory.specs.Cuttings.{segments_of};
ghost use Rattle.segment_counts.specs.Ranges.{AreCountsOf, AreCountsTo, CanRun};

use crate::job::Job;
use arrow_table::Arrows;
use line_lexer::lex_lines;
use lr_base::NoMemory;
use segment_parser::parse_segment_by;
use std::alloc::Global;

/// How many tokens the segments of a text have, and how many pieces.
#[derive(Clone, Copy, Debug, PartialEq, Eq)]
pub struct Counts {
    pub tokens: u64,
    pub pieces: u64,
}

impl Counts {
    /// The counts with those of one more segment, which is scanned, and parsed from left to right for all left contexts at once, by a
    /// table of maps that keeps what it comes to.
    fn with(
        self,
        alloc: Global,
        job: &Job<'_>,
        arrows: &mut Arrows<'_>,
        segment: u32,
    ) -> Result<Counts, NoMemory>
        requires can { CanRun job.now }
        requires within { segment < segments_of job.now.cutting.now }
        requires tables { arrows.old.0 ≡ job.now.tables.now }
        requires counts { AreCountsTo job.now segment self.tokens self.pieces }
        ensures tables { arrows.new.0 ≡ arrows.old.0 }
        ensures counts { IfOk result (λ counts. AreCountsTo job.now (segment + 1) counts.tokens counts.pieces) }
    {
        job.tables.holds();
        let (from, to) = job.cutting.bounds(segment);
        let tokens = lex_lines(alloc, job.scanner, job.means, job.text, job.lines, from, to)?;
        let parsed = parse_segment_by(alloc, arrows, segment, &tokens)?;
        Ok(Counts {
            tokens: self.tokens + tokens.len() as u64,
            pieces: self.pieces + parsed.block.count() as u64,
        })
    }
}

/// Counts the tokens of all segments of a text, and the pieces that they come to; each segment is scanned and parsed for itself.
pub fn count_segments(alloc: Global, job: &Job<'_>) -> Result<Counts, NoMemory>
    requires { CanRun job.now }
    ensures { IfOk result (AreCountsOf job.now) }
{
    let mut arrows = Arrows::new(alloc, job.tables);
    let mut counts = Counts {
        tokens: 0,
        pieces: 0,
    };
    for segment in 0..job.cutting.segments() {
        counts = counts.with(alloc, job, &mut arrows, segment)?;
    }
    Ok(counts)
}
