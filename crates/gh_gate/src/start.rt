//! Starting jobs in threads of their own, and bringing them back to their places.
//!
//! The last job is taken off the list, its thread started, the same done with the jobs before it, the thread joined, and
//! the job put back. So each comes back to its place without a second list, and needs no memory for its handle. With the
//! list empty all threads are made, and the start flag is set to yes. Where a thread cannot be made it is set to no at once.
//! The threads that are started later are told that too, and the job that got none is told it here.
ghost use Rattle.std.specs.Prelude.{◌≡◌, ℕ, ◌≤◌, All, vec_len, vec_capacity};
ghost use Rattle.gh_gate.specs.Jobs.{DidAsTold, AllDidAsTold};

use crate::job::Job;
use crossbeam_utils::Backoff;
use std::snapshot::Snapshot;
use std::sync::{OnceLock, OnceToken, Wait};
use std::thread;
use std::thread::{Promise, Scope};

// What a thread gives back: the job, and whether the thread was told to run it.
#[derive(Drop)]
struct Back<'e, J> {
    job: J,
    told: OnceToken<'e, bool>,
}

// The thread was told by this flag, and did with this job as it was told.
#[derive(Drop)]
struct AsTold<'e, J> {
    start: &'e OnceLock<bool>,
    was: Snapshot<J>,
}

impl<'e, J: Job> Promise<Back<'e, J>> for AsTold<'e, J> {
    ghost kept_by = { λ p back. (back.told.of ≡ p.start.now.id) × DidAsTold J.ended J.which back.told.value p.was.value back.job };
}

// Waits for the start flag, and does with the job as it says.
fn as_told<'e, R: Wait, J: Job>(rt: &R, start: &'e OnceLock<bool>, mut job: J) -> Back<'e, J>
    requires { J.started job }
    ensures told { result.told.of ≡ start.now.id }
    ensures did { DidAsTold J.ended J.which result.told.value job result.job }
{
    let told = wait_for_start(rt, start);
    if *start.value(&told) {
        job.run(rt);
    }
    Back { job, told }
}

// Waits until the start flag is set.
fn wait_for_start<'e, R: Wait>(rt: &R, start: &'e OnceLock<bool>) -> OnceToken<'e, bool>
    ensures { result.of ≡ start.now.id }
{
    let backoff = Backoff::new();
    for _ in rt.forever() {
        if let Some(told) = start.witness() {
            return told;
        }
        backoff.snooze();
    }
    unreachable!()
}

// Sets the start flag, unless it was set before.
fn tell<'e, R: Wait>(rt: &R, start: &'e OnceLock<bool>, run: bool) -> OnceToken<'e, bool>
    ensures { result.of ≡ start.now.id }
{
    match start.try_insert(rt, run) {
        Ok(told) => told,
        Err((told, _)) => told,
    }
}

// Starts a thread for each job, from the last to the first, sets the start flag, and takes the jobs back to their places.
fn each<'s, E, R: thread::Threads + Wait + Sync + 's, J: Job + Send + Drop + 's>(
    rt: &'s R,
    scope: &'s Scope<'s, E>,
    start: &'s OnceLock<bool>,
    jobs: &mut Vec<J>,
) -> OnceToken<'s, bool>
    requires { All J.started jobs.old.items }
    ensures told { result.of ≡ start.now.id }
    ensures did { AllDidAsTold J.ended J.which result.value jobs.old.items jobs.new.items }
    ensures room { vec_capacity jobs.old ≤ vec_capacity jobs.new }
    ensures len { vec_len jobs.new ≡ vec_len jobs.old }
{
    let Some(job) = jobs.pop() else {
        return tell(rt, start, true);
    };
    let promise = AsTold {
        start,
        was: Snapshot::of(&job),
    };
    match scope.spawn_with(promise, move || as_told(rt, start, job)) {
        Ok(thread) => {
            let told = each(rt, scope, start, jobs);
            let back = thread.join(rt);
            back.told.agrees(&told);
            jobs.push_reserved(back.job);
            told
        }
        Err(refused) => {
            tell(rt, start, false);
            let told = each(rt, scope, start, jobs);
            let back = (refused.value)();
            back.told.agrees(&told);
            jobs.push_reserved(back.job);
            told
        }
    }
}

// The jobs, and whether all ran. Else none made a step.
pub(crate) fn all_or_none<R: thread::Threads + Wait + Sync, J: Job + Send + Drop>(
    rt: &R,
    jobs: Vec<J>,
) -> (Vec<J>, bool)
    requires { All J.started jobs.items }
    ensures { AllDidAsTold J.ended J.which result.1 jobs.items result.0.items }
{
    let start = OnceLock::new();
    let start = &start;
    thread::scope(
        thread::scope_env(),
        rt,
        move |scope| -> (Vec<J>, bool)
            requires { All J.started jobs.items }
            ensures { AllDidAsTold J.ended J.which result.1 jobs.items result.0.items }
        {
            let mut jobs = jobs;
            let told = each(rt, scope, start, &mut jobs);
            (jobs, *start.value(&told))
        },
    )
}
