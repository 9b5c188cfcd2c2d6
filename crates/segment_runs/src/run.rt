ghost use Rattle.std.specs.Prelude.{◌≡◌, ◌≤◌, IfOk};
ghost use Rattle.cutting_theory.specs.Cuttings.{segments_of};
ghost use Rattle.segment_counts.specs.Ranges.{CanRun};
ghost use Rattle.segment_runs.specs.Ranges.{IsJoined};
ghost use Rattle.segment_runs.specs.Runs.{IsRunOf};

use crate::halves::parse_halves;
use crate::joined::Joined;
use lr_base::NoMemory;
use plain_parse::Parsed;
use segment_counts::Job;
use stack_finish::finish;
use std::alloc::Global;
use std::thread::Threads;

/// A text that was parsed in segments: what the parse came to, how many tokens there are, and how many pieces the segments had
/// before any join.
#[derive(Debug, Drop)]
pub struct SegmentRun {
    pub parsed: Parsed,
    pub tokens: u64,
    pub pieces: u64,
}

impl Joined {
    /// Ends the parse where all segments are joined.
    fn finish(self, alloc: Global, job: &Job<'_>) -> Result<SegmentRun, NoMemory>
        requires can { CanRun job.now }
        requires joined { IsJoined job.now 0 (segments_of job.now.cutting.now) self }
        ensures { IfOk result (IsRunOf job.now) }
    {
        let Joined {
            pieces,
            tokens,
            count,
        } = self;
        let chunk = 2 * job.cutting.segments();
        Ok(SegmentRun {
            parsed: finish(alloc, job.tables, pieces, chunk)?,
            tokens,
            pieces: count,
        })
    }
}

/// Scans and parses a text in segments, by so many workers: these are threads, each with a table of maps of its own.
///
/// The value is what one parse of the text's tokens comes to, but for the references of the nodes, with the number of tokens,
/// and with the number of the pieces of all segments, which depends on the cutting.
pub fn parse_lines<R: Threads + Sync>(
    rt: &R,
    alloc: Global,
    job: &Job<'_>,
    workers: u32,
) -> Result<SegmentRun, NoMemory>
    requires can { CanRun job.now }
    requires some { 1 ≤ workers }
    ensures { IfOk result (IsRunOf job.now) }
{
    let joined = parse_halves(rt, alloc, job, 0, job.cutting.segments(), workers)?;
    joined.finish(alloc, job)
}
