ghost use Rattle.std.specs.Prelude.{◌≡◌, ◌+◌, ◌*◌, ◌<◌, ◌≤◌, ℕ, IfOk};
ghost use Rattle.arrow_table.specs.Looks.{Grows};
ghost use Rattle.cutting_theory.specs.Cuttings.{segments_of};
ghost use Rattle.segment_counts.specs.Ranges.{CanRun};
ghost use Rattle.segment_runs.specs.Ranges.{IsJoined};

use arrow_table::Arrows;
use line_lexer::lex_lines;
use lr_base::NoMemory;
use piece_lists::Pieces;
use segment_counts::Job;
use segment_parser::{Segment, parse_segment_by};
use stack_join::join;
use std::alloc::Global;

/// Segments that stand one after another, joined: the pieces of their tokens, how many tokens they have, and how many pieces
/// they had before any join.
#[derive(Debug, Drop)]
pub struct Joined {
    pub pieces: Pieces,
    pub tokens: u64,
    pub count: u64,
}

impl Joined {
    /// One segment, scanned and parsed from left to right for all left contexts at once, by a table of maps, which keeps what it
    /// comes to.
    pub fn of_segment(
        alloc: Global,
        job: &Job<'_>,
        arrows: &mut Arrows<'_>,
        segment: u32,
    ) -> Result<Joined, NoMemory>
        requires can { CanRun job.now }
        requires within { segment < segments_of job.now.cutting.now }
        requires tables { arrows.old.0 ≡ job.now.tables.now }
        ensures tables { arrows.new.0 ≡ arrows.old.0 }
        ensures grows { Grows arrows.old.1 arrows.new.1 }
        ensures joined { IfOk result (λ joined. IsJoined job.now segment (segment + 1) joined) }
    {
        job.tables.holds();
        let (from, to) = job.cutting.bounds(segment);
        let tokens = lex_lines(alloc, job.scanner, job.means, job.text, job.lines, from, to)?;
        let Segment { block, store } = parse_segment_by(alloc, arrows, segment, &tokens)?;
        let count = block.count() as u64;
        Ok(Joined {
            pieces: Pieces::new(alloc, block, store)?,
            tokens: tokens.len() as u64,
            count,
        })
    }

    /// Two neighbours, joined at the segment that the right one begins with, by a table of maps, which keeps what it comes to.
    pub fn with(
        self,
        alloc: Global,
        job: &Job<'_>,
        arrows: &mut Arrows<'_>,
        right: Joined,
        boundary: u32,
    ) -> Result<Joined, NoMemory>
        requires can { CanRun job.now }
        requires tables { arrows.old.0 ≡ job.now.tables.now }
        requires sides { (first : ℕ) × (last : ℕ) × (first < boundary) × (boundary < last) × (last ≤ segments_of job.now.cutting.now)
            × IsJoined job.now first boundary self × IsJoined job.now boundary last right }
        ensures tables { arrows.new.0 ≡ arrows.old.0 }
        ensures grows { Grows arrows.old.1 arrows.new.1 }
        ensures joined { IfOk result (λ joined. (first last : ℕ) → first < boundary → boundary < last → last ≤ segments_of job.now.cutting.now
            → IsJoined job.now first boundary self → IsJoined job.now boundary last right → IsJoined job.now first last joined) }
    {
        let chunk = job.cutting.segments() + boundary;
        Ok(Joined {
            pieces: join(alloc, arrows, self.pieces, right.pieces, chunk)?,
            tokens: self.tokens + right.tokens,
            count: self.count + right.count,
        })
    }
}
