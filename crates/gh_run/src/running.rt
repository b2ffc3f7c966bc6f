//! A script's run by threads.

ghost use Rattle.std.specs.Prelude.{◌≡◌, ◌<◌, ◌^◌, ◌+◌, ◌++◌, ◌≤◌, IfOk, IfErr, OnOk, OnErr, IsErr, length};
ghost use Rattle.std.specs.Vec.{vec_capacity};
ghost use Rattle.gh_gate.specs.Counts.{Rose};
ghost use Rattle.gh_run.specs.Told.{outcome_of, IsRunByThreads};
ghost use Rattle.gh_world.specs.Turns.{total_of};
ghost use Rattle.gh_run.specs.declared.fault.RunFault.TheVariants.{NoThread};

use crate::fault::RunFault;
use crate::gathering::{all_told, gathered};
use crate::job::HeapJob;
use crate::making::jobs;
use gh_actor::AnyActor;
use gh_base::laws::a_state_is_of_its_own_entries;
use gh_base::{Answer, Op};
use gh_coord::Cycle;
use gh_explained::every_run_is_explained;
use gh_gate::{Gate, Refused, Spawner};
use gh_script::Script;
use gh_shared::Heap;
use gh_world::{most_cycles, total_of};
use std::alloc::Global;
use std::sync::Wait;
use std::thread;

/// What a script's run by threads came to.
#[derive(Drop)]
pub struct ThreadRun {
    /// What the statements were answered, each answer with its goroutine: goroutine by goroutine, and each goroutine's in the
    /// order of its statements.
    pub answers: Vec<(u32, Answer)>,
    /// The swept cycles, in their order.
    pub cycles: Vec<Cycle>,
    /// The words of credit that the workers earned, and how many of them were spent and have lapsed.
    pub earned: u64,
    pub spent: u64,
    pub lapsed: u64,
    /// How many objects the last cycle marked; 0 where none was swept.
    pub objects: u64,
    /// How many bytes that cycle marked.
    pub live: u64,
}

/// Runs the script, each of its actors in a thread of its own. The gate is called by each actor between two of its steps,
/// whenever its marks have changed.
///
/// `NoThread` comes where the spawner starts no thread, or could not make one for each actor; it has counted a fault then.
/// `NoMemory` comes where there is no memory for the heap, the jobs or the answers. All memory is taken before the first
/// step of an actor, so in both cases none has made a step.
pub fn run<R: thread::Threads + Wait + Sync, G: Gate + Sync, P: Spawner>(
    rt: &R,
    alloc: Global,
    script: &Script,
    gate: &G,
    sp: &mut P,
) -> Result<ThreadRun, RunFault>
    ensures explained { IfOk result (λ r. IsRunByThreads script.now (outcome_of r)) }
    ensures room { IfOk result (λ r. length r.answers.items ≤ total_of script.now) }
    ensures few { IfOk result (λ r. length r.answers.items + length r.cycles.items + 3 < 2 ^ 32) }
    ensures ran { OnOk result (Rose (P.ran sp.old) (P.ran sp.new)) }
    ensures no_thread { IfErr result (λ fault. fault ≡ NoThread → Rose (P.faults sp.old) (P.faults sp.new)) }
    ensures none_ran { OnErr result (P.ran sp.new ≡ P.ran sp.old) }
    ensures refused { P.refuses sp.old → IsErr result }
    ensures faults_never_fall { P.faults sp.old ≤ P.faults sp.new }
    ensures ran_never_falls { P.ran sp.old ≤ P.ran sp.new }
{
    let (heap, handles) = Heap::open(alloc, script)?;
    let mut answers = Vec::with_capacity(alloc, total_of(script))?;
    let mut cycles = Vec::with_capacity(alloc, most_cycles(script) as usize)?;
    let made = jobs(alloc, &heap, handles, script, gate)?;
    let done = match sp.all(rt, made) {
        Ok(done) => done,
        Err(Refused::Thread(_)) => return Err(RunFault::NoThread),
        Err(Refused::Memory(_)) => return Err(RunFault::NoMemory),
    };
    all_told(&heap, script, &done, &mut answers);
    let all = gathered(&heap, script, done);
    script.is_well_formed();
    a_state_is_of_its_own_entries::<AnyActor, Op>();
    every_run_is_explained();
    let closed = heap.close(all);
    copy(closed.coordinator.cycles(), &mut cycles);
    let objects = match closed.coordinator.last_cycle() {
        Some(cycle) => cycle.marked,
        None => 0,
    };
    let earned = closed.earned();
    let spent = closed.spent();
    let lapsed = closed.lapsed();
    let live = closed.live();
    Ok(ThreadRun {
        answers,
        cycles,
        earned,
        spent,
        lapsed,
        objects,
        live,
    })
}

/// Appends the cycles.
fn copy(cycles: &[Cycle], copies: &mut Vec<Cycle>)
    requires { length copies.old.items + length cycles.now ≤ vec_capacity copies.old }
    ensures { copies.new.items ≡ copies.old.items ++ cycles.now }
{
    for cycle in cycles {
        copies.push_reserved(*cycle);
    }
}
