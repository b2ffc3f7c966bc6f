//! How all actors of a heap are run, each in a thread of its own, or none.

ghost use Rattle.std.specs.Prelude.{◌≡◌, ◌+◌, ◌≤◌, All, IfOk, IfSome, length};
ghost use Rattle.std.specs.Vec.{vec_capacity};
ghost use Rattle.gh_base.specs.Cells.{seats_of};
ghost use Rattle.gh_shared.specs.Calls.{IsGoing};
ghost use Rattle.gh_shared.specs.declared.heap.Heap.{Heap};
ghost use Rattle.gh_shared.specs.Handles.{carries_of, plan_of, AreFresh, IsHandleOf, IsHeapOf};
ghost use Rattle.gh_shared.specs.Runners.{AreOf};

use crate::fault::RunFault;
use crate::handle::Handle;
use crate::heap::Heap;
use gh_gate::{Job, Open, Spawner, Threads};
use gh_script::Script;
use std::alloc::{AllocError, Global};
use std::sync::Wait;
use std::thread;

/// What a program does on the processors of its heap. Each actor has a value of it, and each processor is run by its own.
pub trait Play {
    /// Runs a processor, in a thread of its own. The workers and the coordinator are done only once each processor has left.
    fn play<'s, R: Wait>(&mut self, rt: &R, heap: &Heap, script: &Script, h: &mut Handle<'s>)
        requires going { IsGoing heap.now h.old }
        requires script { IsHeapOf script.now heap.now }
        ensures { IsHandleOf heap.now h.new };
}

/// An actor of a heap, with what its processor does, if it is one.
#[derive(Drop)]
pub struct Runner<'h, 's, P> {
    pub heap: &'h Heap,
    pub script: &'h Script,
    pub handle: Handle<'s>,
    pub play: P,
}

impl<'h, 's, P: Play> Job for Runner<'h, 's, P> {
    ghost Which = { Heap };

    ghost started = { λ j. IsHandleOf j.heap.now j.handle × IsHeapOf j.script.now j.heap.now };

    ghost ended = { λ j. IsHandleOf j.heap.now j.handle };

    ghost which = { λ j. j.heap.now };

    fn run<R: Wait>(&mut self, rt: &R) {
        let (heap, h) = (self.heap, &mut self.handle);
        if h.ended() {
            return;
        }
        if h.is_worker() {
            heap.work(rt, h, &Open);
        } else if h.is_coordinator() {
            heap.coordinate(rt, h, &Open);
        } else if h.is_processor() {
            self.play.play(rt, heap, self.script, h);
        }
    }
}

/// A job for each handle.
fn runners_of<'h, 's, P: Copy + Drop>(
    alloc: Global,
    heap: &'h Heap,
    script: &'h Script,
    handles: Vec<Handle<'s>>,
    play: P,
) -> Result<Vec<Runner<'h, 's, P>>, AllocError>
    requires handles { AreFresh heap.now handles.items }
    requires script { IsHeapOf script.now heap.now }
    ensures of { IfOk result (λ runners. AreOf heap.now runners.items) }
    ensures many { IfOk result (λ runners. length runners.items ≤ seats_of (plan_of heap.now).layout) }
{
    let mut runners = Vec::new(alloc);
    for handle in handles {
        runners.push(Runner {
            heap,
            script,
            handle,
            play,
        })?;
    }
    Ok(runners)
}

/// The handles of all actors in one, and what their plays have become, in the same order.
fn gathered<'h, 's, P: Drop>(
    heap: &Heap,
    done: Vec<Runner<'h, 's, P>>,
    room: Vec<P>,
) -> Option<(Handle<'s>, Vec<P>)>
    requires of { All (λ j. IsHandleOf heap.now j.handle) done.items }
    requires room { length room.items + length done.items ≤ vec_capacity room }
    ensures { IfSome result (λ r. IsHandleOf heap.now r.0) }
{
    let mut plays = room;
    let mut last = None;
    for runner in done {
        let Runner { handle, play, .. } = runner;
        plays.push_reserved(play);
        last = Some(joined(heap, last, handle));
    }
    Some((last?, plays))
}

/// The handle, which carries what the other carried, if there was another.
fn joined<'s>(heap: &Heap, other: Option<Handle<'s>>, handle: Handle<'s>) -> Handle<'s>
    requires other { IfSome other (IsHandleOf heap.now) }
    requires handle { IsHandleOf heap.now handle }
    ensures { IsHandleOf heap.now result }
{
    let mut all = handle;
    if let Some(other) = other {
        heap.gather(&mut all, other);
    }
    all
}

/// Runs all actors, each in a thread of its own, or none: the processors by this play, of which each actor has its own copy.
/// It returns once every actor has come to its end, and answers one handle that carries them all, as the close asks, and the copies, in
/// the order of the handles: those of the processors come first.
///
/// `NoMemory` and `NoThread` come before any actor has made a step.
pub fn run_all<'s, R: thread::Threads + Wait + Sync, P: Play + Copy + Send + Drop>(
    rt: &R,
    alloc: Global,
    heap: &Heap,
    script: &Script,
    handles: Vec<Handle<'s>>,
    play: P,
) -> Result<(Handle<'s>, Vec<P>), RunFault>
    requires handles { AreFresh heap.now handles.items }
    requires script { IsHeapOf script.now heap.now }
    ensures of { IfOk result (λ ran. IsHandleOf heap.now ran.0) }
    ensures all { IfOk result (λ ran. carries_of ran.0 ≡ seats_of (plan_of heap.now).layout) }
{
    let many = heap.actors();
    let room = Vec::with_capacity(alloc, many as usize)?;
    let runners = runners_of(alloc, heap, script, handles, play)?;
    let Ok(done) = Threads::new().all(rt, runners) else {
        return Err(RunFault::NoThread);
    };
    let Some((all, plays)) = gathered(heap, done, room) else {
        return Err(RunFault::NotAll);
    };
    if all.carries() != many {
        return Err(RunFault::NotAll);
    }
    Ok((all, plays))
}
