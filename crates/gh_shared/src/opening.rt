//! How a heap opens, with a handle for each actor.

ghost use Rattle.std.specs.Prelude.{◌≡◌, ◌<◌, [], IfOk};
ghost use Rattle.gh_base.specs.Cells.{seats_of};
ghost use Rattle.gh_table.specs.Views.{all_carried, one_carried};
ghost use Rattle.gh_world.specs.World.{LaysOut, pacing_of};
ghost use Rattle.gh_shared.specs.Handles.{AreFresh, IsFresh, IsHeapOf};
ghost use Rattle.gh_actor.specs.Machines.{opening};
ghost use Rattle.gh_actor.specs.Plans.{setting};

use crate::fault::OpenFault;
use crate::handle::Handle;
use crate::heap::Heap;
use gh_actor::{ActorMachine, Counts, HeapActor, HeapPlan};
use gh_base::Op;
use gh_coord::Coord;
use gh_mutator::Mutator;
use gh_script::Script;
use gh_table::{ActorSeat, Hand, open, split_first};
use gh_words::opening_list;
use gh_worker::Worker;
use gh_world::{layout_for, most_cycles, opening_trigger};
use std::alloc::{AllocError, Global};
use std::snapshot::Snapshot;

/// The machine of the actor of this number, before its first step.
fn machine_at<'s>(
    alloc: Global,
    plan: &HeapPlan,
    script: &'s Script,
    actor: u32,
) -> Result<ActorMachine<'s>, AllocError>
    requires script { script.now ≡ plan.now.script }
    requires actor { actor < seats_of plan.now.layout }
    ensures { IfOk result (λ m. m ≡ record { layout = plan.now.layout; actor = opening plan.now actor }) }
{
    script.is_well_formed();
    let layout = &plan.layout;
    if actor < layout.procs {
        let processor = Mutator::new(actor, script.shapes());
        return Ok(ActorMachine::new(layout, HeapActor::Runs(processor)));
    }
    if actor < layout.procs + layout.workers {
        return Ok(ActorMachine::new(layout, HeapActor::Marks(Worker::new(actor))));
    }
    let settings = script.settings();
    let cycles = most_cycles(script);
    let coordinator = Coord::new(
        alloc,
        layout,
        actor,
        settings.gogc,
        settings.minheap,
        cycles,
    )?;
    Ok(ActorMachine::new(layout, HeapActor::Leads(coordinator)))
}

impl Heap {
    /// A heap that runs the script, and a handle for each of its actors: the processors, then the workers, and the
    /// coordinator last. It takes all the memory that there is need for, and is refused only for want of that.
    pub fn open<'s>(alloc: Global, script: &'s Script) -> Result<(Heap, Vec<Handle<'s>>), OpenFault>
        ensures heap { IfOk result (λ r. IsHeapOf script.now r.0) }
        ensures handles { IfOk result (λ r. AreFresh r.0 r.1.items) }
    {
        let layout = layout_for(script);
        let plan = HeapPlan {
            script: Snapshot::of(script),
            layout,
        };
        let trigger = opening_trigger(script, &layout);
        let (heap, seat) = Heap::of_plan(alloc, &plan, trigger)?;
        let handles = heap.deal(alloc, seat, &plan, script)?;
        Ok((heap, handles))
    }

    /// A heap of this plan, whose trigger opens with this word, and a seat that carries all its actors.
    fn of_plan(
        alloc: Global,
        plan: &HeapPlan,
        trigger: u64,
    ) -> Result<(Heap, ActorSeat<HeapPlan, Op>), AllocError>
        requires { trigger ≡ (pacing_of plan.now.script).trigger }
        ensures key { IfOk result (λ r. r.0.table.shared.key ≡ plan.now) }
        ensures layout { IfOk result (λ r. r.0.layout ≡ plan.now.layout) }
        ensures table { IfOk result (λ r. r.1.table_id ≡ r.0.table.shared.table_id) }
        ensures seat { IfOk result (λ r. r.1.me ≡ (all_carried plan.now (setting plan.now).actors, [])) }
    {
        let words = opening_list(alloc, &plan.layout, trigger)?;
        let (table, seat) = open(alloc, words.as_slice(), plan)?;
        let heap = Heap {
            table,
            layout: plan.layout,
        };
        Ok((heap, seat))
    }

    /// The handle of the actor whom this seat carries, before its first step.
    fn handle_of<'s>(
        &self,
        alloc: Global,
        place: ActorSeat<HeapPlan, Op>,
        plan: &HeapPlan,
        script: &'s Script,
        actor: u32,
    ) -> Result<Handle<'s>, AllocError>
        requires key { self.now.table.shared.key ≡ plan.now }
        requires script { script.now ≡ plan.now.script }
        requires lays { LaysOut plan.now.script plan.now.layout }
        requires actor { actor < seats_of plan.now.layout }
        requires table { place.table_id ≡ self.now.table.shared.table_id }
        requires seat { place.me ≡ (one_carried plan.now actor, []) }
        ensures { IfOk result (λ h. IsFresh self.now actor h) }
    {
        let machine = machine_at(alloc, plan, script, actor)?;
        let counts = Counts::new(alloc, script)?;
        let hand = Hand::new(actor, machine, place);
        Ok(Handle {
            hand,
            counts,
            carried: 1,
            drawn: 0,
            led: None,
        })
    }

    /// A handle for each actor, where the seat carries them all.
    fn deal<'s>(
        &self,
        alloc: Global,
        seat: ActorSeat<HeapPlan, Op>,
        plan: &HeapPlan,
        script: &'s Script,
    ) -> Result<Vec<Handle<'s>>, AllocError>
        requires key { self.now.table.shared.key ≡ plan.now }
        requires script { script.now ≡ plan.now.script }
        requires lays { LaysOut plan.now.script plan.now.layout }
        requires table { seat.table_id ≡ self.now.table.shared.table_id }
        requires seat { seat.me ≡ (all_carried plan.now (setting plan.now).actors, []) }
        ensures { IfOk result (λ handles. AreFresh self.now handles.items) }
    {
        let mut rest = seat;
        let many = plan.layout.seats();
        let mut handles = Vec::with_capacity(alloc, many as usize)?;
        for actor in 0..many {
            let place = split_first(&self.table.shared, &mut rest);
            let handle = self.handle_of(alloc, place, plan, script, actor)?;
            handles.push_reserved(handle);
        }
        Ok(handles)
    }
}
