//! How the jobs of a heap are made.

ghost use Rattle.std.specs.Prelude.{◌≡◌, ◌<◌, if◌then◌else◌, length, IfOk};
ghost use Rattle.gh_run.specs.Jobs.{AreJobsOf, IsJobOf};
ghost use Rattle.gh_shared.specs.Handles.{number_of, AreFresh, IsFresh, IsHeapOf};
ghost use Rattle.gh_world.specs.Turns.{count_of, is_of_seat, total_by};

use crate::job::HeapJob;
use gh_base::{Answer, modulo};
use gh_gate::Gate;
use gh_script::Script;
use gh_shared::{Handle, Heap};
use gh_world::Progress;
use std::alloc::{AllocError, Global};

/// A job for each handle that the heap of this script has opened with, in their order. It takes all the memory that their
/// answers need, and is refused only for want of that; the handles are dropped then.
pub fn jobs<'h, 's, G: Gate + Sync>(
    alloc: Global,
    heap: &'h Heap,
    handles: Vec<Handle<'s>>,
    script: &'h Script,
    gate: &'h G,
) -> Result<Vec<HeapJob<'h, 's, G>>, AllocError>
    requires script { IsHeapOf script.now heap.now }
    requires fresh { AreFresh heap.now handles.items }
    ensures { IfOk result (λ jobs. AreJobsOf script.now heap.now jobs.items) }
{
    let mut jobs = Vec::new(alloc);
    for handle in handles {
        let job = job_of(alloc, heap, handle, script, gate)?;
        jobs.push(job)?;
    }
    Ok(jobs)
}

/// The job of one actor, before its first step.
fn job_of<'h, 's, G: Gate + Sync>(
    alloc: Global,
    heap: &'h Heap,
    handle: Handle<'s>,
    script: &'h Script,
    gate: &'h G,
) -> Result<HeapJob<'h, 's, G>, AllocError>
    requires script { IsHeapOf script.now heap.now }
    requires fresh { IsFresh heap.now (number_of handle) handle }
    ensures { IfOk result (λ j. IsJobOf script.now heap.now (number_of handle.entry) j) }
{
    let seat = handle.actor();
    let answers: Vec<(u32, Answer)> = Vec::with_capacity(alloc, total_by(script, seat))?;
    Ok(HeapJob {
        heap,
        script,
        gate,
        handle,
        progress: Progress::opening(script, seat),
        answers,
    })
}

/// How many statements the goroutines of the processor at this seat have, all together.
fn total_by(script: &Script, seat: u32) -> usize
    ensures { result ≡ total_by script.now seat }
{
    script.is_well_formed();
    let mut total = 0;
    for g in 0..script.goroutines() {
        total += count_by(script, seat, g) as usize;
    }
    total
}

/// How many statements goroutine `g` has, where it is one of the processor at this seat, and else 0.
fn count_by(script: &Script, seat: u32, g: u32) -> u32
    requires { g < length script.now.goroutines }
    ensures { result ≡ (if is_of_seat script.now seat g then count_of script.now g else 0) }
{
    script.is_well_formed();
    if modulo(g, script.settings().procs) == seat {
        script.count(g)
    } else {
        0
    }
}
