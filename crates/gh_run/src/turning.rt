//! How an actor is run to its end, and how a processor takes its turns.

ghost use Rattle.std.specs.Prelude.{◌≡◌, ℕ, List, Some};
ghost use Rattle.gh_base.specs.declared.value.Answer.{Answer};
ghost use Rattle.std.specs.Vec.{vec_capacity};
ghost use Rattle.gh_run.specs.Jobs.{told, IsAtEnd, IsAtStart, IsBetweenTurns};
ghost use Rattle.gh_shared.specs.Calls.{May, Operated};
ghost use Rattle.gh_shared.specs.Handles.{machine_of, number_of};
ghost use Rattle.gh_actor.specs.Machines.{IsCoordinator, IsProcessor, IsWorker};
ghost use Rattle.gh_world.specs.Turns.{op_due};

use crate::telling::keep;
use gh_actor::AnyActor;
use gh_base::laws::a_state_is_of_its_own_entries;
use gh_base::{Answer, Op};
use gh_gate::Gate;
use gh_mutator::laws::polls_make_room;
use gh_script::Script;
use gh_shared::{Handle, Heap};
use gh_table::Marked;
use gh_world::{Progress, what_is_due_fits};
use std::sync::Wait;

/// Runs an actor until it has ended. The gate is called between two steps, whenever the actor's marks have changed.
pub fn run_actor<'s, R: Wait, G: Gate>(
    rt: &R,
    heap: &Heap,
    script: &Script,
    gate: &G,
    h: &mut Handle<'s>,
    progress: &mut Progress,
    answers: &mut Vec<(u32, Answer)>,
)
    requires { IsAtStart script.now heap.now h.old progress.old answers.old.items (vec_capacity answers.old) }
    ensures end { IsAtEnd script.now heap.now h.new answers.new.items }
    ensures number { number_of h.new ≡ number_of h.old }
{
    if h.is_worker() {
        run_worker(rt, heap, script, gate, h, progress, answers);
    } else if h.is_coordinator() {
        run_coordinator(rt, heap, script, gate, h, progress, answers);
    } else {
        take_turns(rt, heap, script, gate, h, progress, answers);
    }
}

/// Runs a worker until it is done.
fn run_worker<'s, R: Wait, G: Gate>(
    rt: &R,
    heap: &Heap,
    _script: &Script,
    gate: &G,
    h: &mut Handle<'s>,
    _progress: &Progress,
    _answers: &Vec<(u32, Answer)>,
)
    requires start { IsAtStart _script.now heap.now h.old _progress.now _answers.now.items (vec_capacity _answers.now) }
    requires worker { IsWorker (machine_of h.old) }
    ensures end { IsAtEnd _script.now heap.now h.new _answers.now.items }
    ensures number { number_of h.new ≡ number_of h.old }
{
    heap.work(rt, h, gate);
}

/// Runs the coordinator until the last cycle is swept.
fn run_coordinator<'s, R: Wait, G: Gate>(
    rt: &R,
    heap: &Heap,
    _script: &Script,
    gate: &G,
    h: &mut Handle<'s>,
    _progress: &Progress,
    _answers: &Vec<(u32, Answer)>,
)
    requires start { IsAtStart _script.now heap.now h.old _progress.now _answers.now.items (vec_capacity _answers.now) }
    requires coordinator { IsCoordinator (machine_of h.old) }
    ensures end { IsAtEnd _script.now heap.now h.new _answers.now.items }
    ensures number { number_of h.new ≡ number_of h.old }
{
    heap.coordinate(rt, h, gate);
}

/// Runs a processor until it has left: turn after turn of the script's. The gate is called between two steps, whenever the
/// processor has answered a statement.
fn take_turns<'s, R: Wait, G: Gate>(
    rt: &R,
    heap: &Heap,
    script: &Script,
    gate: &G,
    h: &mut Handle<'s>,
    progress: &mut Progress,
    answers: &mut Vec<(u32, Answer)>,
)
    requires start { IsAtStart script.now heap.now h.old progress.old answers.old.items (vec_capacity answers.old) }
    requires processor { IsProcessor (machine_of h.old) }
    ensures end { IsAtEnd script.now heap.now h.new answers.new.items }
    ensures number { number_of h.new ≡ number_of h.old }
{
    what_is_due_fits();
    let mut marks = marks_of(h);
    for _ in rt.forever() {
        match progress.due(script) {
            Some(op) => take_turn(rt, heap, script, h, progress, answers, op),
            None => return,
        }
        marks = pass(gate, h, marks);
    }
    unreachable!()
}

/// Runs what is due to its end, and keeps its answer where it is a statement.
fn take_turn<'s, R: Wait>(
    rt: &R,
    heap: &Heap,
    script: &Script,
    h: &mut Handle<'s>,
    progress: &mut Progress,
    answers: &mut Vec<(u32, Answer)>,
    op: Op,
)
    requires between { IsBetweenTurns script.now heap.now h.old progress.old answers.old.items (vec_capacity answers.old) }
    requires due { op_due script.now progress.old.next ≡ Some op }
    ensures between { IsBetweenTurns script.now heap.now h.new progress.new answers.new.items (vec_capacity answers.new) }
    ensures number { number_of h.new ≡ number_of h.old }
{
    script.is_well_formed();
    what_is_due_fits();
    polls_make_room();
    a_state_is_of_its_own_entries::<AnyActor, Op>();
    let answer = operate(rt, heap, h, op);
    progress.advance(script, h.actor(), op);
    keep(answers, op, answer);
}

/// Runs an operation of a processor to its end. It answers what a statement is answered.
fn operate<'s, R: Wait>(rt: &R, heap: &Heap, h: &mut Handle<'s>, op: Op) -> Answer
    requires { May heap.now h.old op }
    ensures { (answer : Answer) × (founds : List ℕ) × Operated heap.now op h.old h.new answer founds × (told op result ≡ told op answer) }
{
    match op {
        Op::New { g, d, t } => heap.new_object(rt, h, g, d, t),
        Op::Load { g, d, b, k } => heap.load(h, g, d, b, k),
        Op::Store { g, b, k, v } => heap.store(h, g, b, k, v),
        Op::GetGlobal { g, d, k } => heap.get_global(h, g, d, k),
        Op::SetGlobal { g, k, v } => heap.set_global(h, g, k, v),
        Op::Int { g, d, n } => heap.int(h, g, d, n),
        Op::Move { g, d, s } => heap.move_reg(h, g, d, s),
        Op::Nil { g, d } => heap.nil(h, g, d),
        Op::Gc { g } => heap.collect(rt, h, g),
        Op::End(g) => heap.finish(h, g),
        Op::Poll => {
            heap.poll(rt, h);
            Answer::Done
        }
        Op::Leave => {
            heap.leave(rt, h);
            Answer::Done
        }
    }
}

/// How many statements the processor has answered.
fn marks_of<'s>(h: &Handle<'s>) -> u64 {
    h.hand.machine.marks()
}

/// Calls the gate where the processor's marks are not those of before. It answers what they are now.
fn pass<'s, G: Gate>(gate: &G, h: &Handle<'s>, before: u64) -> u64 {
    let marks = marks_of(h);
    if marks != before {
        gate.at(h.actor() as u8, marks);
    }
    marks
}
