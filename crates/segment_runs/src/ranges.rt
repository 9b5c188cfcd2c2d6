ghost use Rattle.std.specs.Prelude.{◌≡◌, ◌+◌, ◌-◌, ◌/◌, ◌<◌, ◌≤◌, IfOk};
ghost use Rattle.arrow_table.specs.Looks.{Grows};
ghost use Rattle.cutting_theory.specs.Cuttings.{segments_of};
ghost use Rattle.segment_counts.specs.Ranges.{CanRun};
ghost use Rattle.segment_runs.specs.Ranges.{IsJoined};

use crate::joined::Joined;
use arrow_table::Arrows;
use lr_base::NoMemory;
use segment_counts::Job;
use std::alloc::Global;

/// The segment in the middle between two, with which the second half begins.
pub fn middle_of(first: u32, last: u32) -> u32
    requires { first + 1 < last }
    ensures middle { result ≡ first + (last - first) / 2 }
    ensures after { first < result }
    ensures before { result < last }
{
    first + (last - first) / 2
}

/// The segments from `first` up to `last`, parsed from left to right and joined by halves, by one table of maps, which keeps
/// what it comes to.
pub fn parse_range(
    alloc: Global,
    job: &Job<'_>,
    arrows: &mut Arrows<'_>,
    first: u32,
    last: u32,
) -> Result<Joined, NoMemory>
    requires can { CanRun job.now }
    requires some { first < last }
    requires within { last ≤ segments_of job.now.cutting.now }
    requires tables { arrows.old.0 ≡ job.now.tables.now }
    ensures tables { arrows.new.0 ≡ arrows.old.0 }
    ensures grows { Grows arrows.old.1 arrows.new.1 }
    ensures joined { IfOk result (IsJoined job.now first last) }
{
    if last - first == 1 {
        return Joined::of_segment(alloc, job, arrows, first);
    }
    let middle = middle_of(first, last);
    let left = parse_range(alloc, job, arrows, first, middle)?;
    let right = parse_range(alloc, job, arrows, middle, last)?;
    left.with(alloc, job, arrows, right, middle)
}
