ghost use Rattle.std.specs.Prelude.{◌≡◌, ◌↔◌, ◌⊎◌, ℕ, ◌+◌, ◌<◌, ◌≤◌, IfOk, IsTrue};
ghost use denote.Param.Send.{IsSync};
ghost use Rattle.cutting_theory.specs.Cuttings.{segments_of};
ghost use Rattle.segment_counts.specs.Ranges.{CanRun};
ghost use Rattle.segment_runs.specs.Ranges.{IsJoined};

use crate::joined::Joined;
use crate::ranges::{middle_of, parse_range};
use arrow_table::Arrows;
use lr_base::NoMemory;
use segment_counts::Job;
use std::alloc::Global;
use std::thread::{self, Threads};

/// Whether one worker does the segments from `first` up to `last` alone.
fn is_alone(first: u32, last: u32, workers: u32) -> bool
    requires { first < last }
    ensures { IsTrue result ↔ ((workers ≡ 1) ⊎ (last ≡ first + 1)) }
{
    workers == 1 || last - first == 1
}

/// So many workers for the first half of the segments, and for the second, which gets the odd one.
fn split_workers(workers: u32) -> (u32, u32)
    requires { 2 ≤ workers }
    ensures all { result.0 + result.1 ≡ workers }
    ensures some { 1 ≤ result.0 }
    ensures even { (result.1 ≡ result.0) ⊎ (result.1 ≡ result.0 + 1) }
{
    let few = workers / 2;
    (few, workers - few)
}

/// The segments from `first` up to `last`, by a table of maps of their own.
fn parse_alone(alloc: Global, job: &Job<'_>, first: u32, last: u32) -> Result<Joined, NoMemory>
    requires can { CanRun job.now }
    requires some { first < last }
    requires within { last ≤ segments_of job.now.cutting.now }
    ensures { IfOk result (IsJoined job.now first last) }
{
    let mut arrows = Arrows::new(alloc, job.tables);
    parse_range(alloc, job, &mut arrows, first, last)
}

/// Two neighbours, joined at the segment that the right one begins with, by a table of maps of their own.
fn join_at(
    alloc: Global,
    job: &Job<'_>,
    left: Joined,
    right: Joined,
    boundary: u32,
) -> Result<Joined, NoMemory>
    requires can { CanRun job.now }
    requires sides { (first : ℕ) × (last : ℕ) × (first < boundary) × (boundary < last) × (last ≤ segments_of job.now.cutting.now)
        × IsJoined job.now first boundary left × IsJoined job.now boundary last right }
    ensures { IfOk result (λ joined. (first last : ℕ) → first < boundary → boundary < last → last ≤ segments_of job.now.cutting.now
        → IsJoined job.now first boundary left → IsJoined job.now boundary last right → IsJoined job.now first last joined) }
{
    let mut arrows = Arrows::new(alloc, job.tables);
    left.with(alloc, job, &mut arrows, right, boundary)
}

/// The segments from `first` up to `last`, parsed and joined by halves, by so many workers, which are threads: half of them work the
/// first half of the segments.
#[cycle(halves)]
pub fn parse_halves<R: Threads + Sync>(
    rt: &R,
    alloc: Global,
    job: &Job<'_>,
    first: u32,
    last: u32,
    workers: u32,
) -> Result<Joined, NoMemory>
    requires can { CanRun job.now }
    requires some { first < last }
    requires workers { 1 ≤ workers }
    requires within { last ≤ segments_of job.now.cutting.now }
    ensures { IfOk result (IsJoined job.now first last) }
{
    if is_alone(first, last, workers) {
        return parse_alone(alloc, job, first, last);
    }
    let middle = middle_of(first, last);
    let (few, others) = split_workers(workers);
    let front = move || -> Result<Joined, NoMemory>
        requires { IsSync R.row × CanRun job.now × (first < middle) × (1 ≤ few) × (middle ≤ segments_of job.now.cutting.now) }
        ensures { IfOk result (IsJoined job.entry.now first middle) }
    { parse_halves(rt, alloc, job, first, middle, few) };
    let back = move || -> Result<Joined, NoMemory>
        requires { IsSync R.row × CanRun job.now × (middle < last) × (1 ≤ others) × (last ≤ segments_of job.now.cutting.now) }
        ensures { IfOk result (IsJoined job.entry.now middle last) }
    { parse_halves(rt, alloc, job, middle, last, others) };
    let (left, right) = thread::join(rt, front, back);
    join_at(alloc, job, left?, right?, middle)
}
