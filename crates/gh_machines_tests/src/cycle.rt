//! A run of all actors of a heap, step by step: each step is compared with the lines of `lines`.
//!
//! The processor runs the statements `new r0 node` and `gc`, with a poll before each and one before its goroutine's end,
//! and leaves. In each round it makes one step, then the worker, then the coordinator. `runs/cycle_steps.heap`
//! is that script, and `runs/cycle_steps.steps` says at which of these steps something happens.

ghost use Rattle.std.specs.Prelude.{◌≡◌, ◌+◌, ◌<◌, length, true, IsNone, IsTrue};
ghost use Rattle.gh_base.specs.Cells.{length_of};
ghost use Rattle.gh_base.specs.Machines.{IsBusy};
ghost use Rattle.gh_coord.specs.Sound.{listing, SoundCoordinating};
ghost use Rattle.gh_mutator.specs.Mutating.{is_busy};
ghost use Rattle.gh_mutator.specs.Sound.{has_room, SoundMutating, SoundOp};
ghost use Rattle.gh_worker.specs.Sound.{SoundWorking};
ghost use Rattle.gh_world.specs.World.{MadeAtMost};

use crate::lines::{COORDINATOR, Column, NEVER, PROCESSOR, WORKER};
use gh_base::{Answer, Layout, LayoutPlan, Name, Op, Routine};
use gh_coord::Coord;
use gh_mutator::Mutator;
use gh_script::parse;
use gh_words::{Plain, Words};
use gh_worker::Worker;
use std::test::Fail;

const SCRIPT: &str =
    "procs 1\nworkers 1\narena 16\nglobals 1\ngogc 0\ntype node p\ngo a\nnew r0 node\ngc\nend\n";

/// What the operations of the processor are answered.
const ANSWERS: [Option<Answer>; 7] = [
    Some(Answer::Done),
    Some(Answer::Ref(Name { g: 0, k: 0 })),
    Some(Answer::Done),
    Some(Answer::Swept),
    Some(Answer::Done),
    Some(Answer::Done),
    Some(Answer::Done),
];

/// The processor leaves in round 456, the worker in round 772, and the coordinator is done in round 769: of each how many lines there are, how
/// many steps it made, and how many of these were its lines.
const COUNTS: [(usize, usize, usize); 3] = [(456, 456, 456), (772, 772, 772), (769, 769, 769)];

/// The lines of each actor.
#[derive(Drop)]
struct Columns {
    processor: Column,
    worker: Column,
    coord: Column,
}

/// The words, the actors, and the lines of each actor.
#[derive(Drop)]
struct Actors<'s> {
    layout: Layout,
    words: Plain,
    processor: Mutator<'s>,
    // How many operations the processor has begun.
    begun: u32,
    worker: Worker,
    coord: Coord,
    // The coordinator is not done.
    leads: bool,
    columns: Columns,
}

/// One step of a routine.
fn step<R: Routine>(
    layout: &Layout,
    words: &mut Plain,
    column: &mut Column,
    routine: &mut R,
) -> Option<R::Out>
    requires sound { (R.listing layout.now).sound routine.old }
    requires busy { IsBusy (R.listing layout.now) routine.old }
    requires words { length words.old ≡ length_of layout.now }
    ensures sound { (R.listing layout.now).sound routine.new }
    ensures words { length words.new ≡ length words.old }
    ensures out { result ≡ (R.listing layout.now).given routine.new }
{
    let request = routine.next(layout);
    let found = words.step(request);
    column.count(request, found);
    routine.take(layout, found)
}

/// One step of the worker, if it is not done.
fn works(actors: &mut Actors<'_>)
    requires words { length actors.old.words ≡ length_of actors.old.layout }
    requires worker { SoundWorking actors.old.layout actors.old.worker }
    requires coord { (IsTrue actors.old.leads → IsBusy (listing actors.old.layout) actors.old.coord) × SoundCoordinating actors.old.layout actors.old.coord }
    ensures words { length actors.new.words ≡ length_of actors.new.layout }
    ensures worker { SoundWorking actors.new.layout actors.new.worker }
    ensures coord { (IsTrue actors.new.leads → IsBusy (listing actors.new.layout) actors.new.coord) × SoundCoordinating actors.new.layout actors.new.coord }
    ensures others { actors.new ≡ record actors.old { words = actors.new.words; worker = actors.new.worker; columns = actors.new.columns } }
{
    if !actors.worker.is_done() {
        step(
            &actors.layout,
            &mut actors.words,
            &mut actors.columns.worker,
            &mut actors.worker,
        );
    }
}

/// One step of the coordinator, if it is not done.
fn leads(actors: &mut Actors<'_>)
    requires words { length actors.old.words ≡ length_of actors.old.layout }
    requires worker { SoundWorking actors.old.layout actors.old.worker }
    requires coord { (IsTrue actors.old.leads → IsBusy (listing actors.old.layout) actors.old.coord) × SoundCoordinating actors.old.layout actors.old.coord }
    ensures words { length actors.new.words ≡ length_of actors.new.layout }
    ensures worker { SoundWorking actors.new.layout actors.new.worker }
    ensures coord { (IsTrue actors.new.leads → IsBusy (listing actors.new.layout) actors.new.coord) × SoundCoordinating actors.new.layout actors.new.coord }
    ensures others { actors.new ≡ record actors.old { words = actors.new.words; coord = actors.new.coord; leads = actors.new.leads; columns = actors.new.columns } }
{
    if actors.leads {
        let out = step(
            &actors.layout,
            &mut actors.words,
            &mut actors.columns.coord,
            &mut actors.coord,
        );
        actors.leads = out.is_none();
    }
}

/// One step of the worker and one of the coordinator, of those that are not done.
fn others(actors: &mut Actors<'_>)
    requires words { length actors.old.words ≡ length_of actors.old.layout }
    requires worker { SoundWorking actors.old.layout actors.old.worker }
    requires coord { (IsTrue actors.old.leads → IsBusy (listing actors.old.layout) actors.old.coord) × SoundCoordinating actors.old.layout actors.old.coord }
    ensures words { length actors.new.words ≡ length_of actors.new.layout }
    ensures worker { SoundWorking actors.new.layout actors.new.worker }
    ensures coord { (IsTrue actors.new.leads → IsBusy (listing actors.new.layout) actors.new.coord) × SoundCoordinating actors.new.layout actors.new.coord }
    ensures others { actors.new ≡ record actors.old { words = actors.new.words; worker = actors.new.worker; coord = actors.new.coord; leads = actors.new.leads; columns = actors.new.columns } }
{
    works(actors);
    leads(actors);
}

/// One step of the processor, which is at an operation, and one of each other that is not done: what the operation is
/// answered, if it is.
fn round(actors: &mut Actors<'_>) -> Option<Answer>
    requires words { length actors.old.words ≡ length_of actors.old.layout }
    requires worker { SoundWorking actors.old.layout actors.old.worker }
    requires coord { (IsTrue actors.old.leads → IsBusy (listing actors.old.layout) actors.old.coord) × SoundCoordinating actors.old.layout actors.old.coord }
    requires processor { SoundMutating actors.old.layout actors.old.processor.shapes actors.old.processor.processor }
    requires busy { is_busy actors.old.processor ≡ true }
    requires made { MadeAtMost actors.old.begun actors.old.processor.processor }
    ensures words { length actors.new.words ≡ length_of actors.new.layout }
    ensures worker { SoundWorking actors.new.layout actors.new.worker }
    ensures coord { (IsTrue actors.new.leads → IsBusy (listing actors.new.layout) actors.new.coord) × SoundCoordinating actors.new.layout actors.new.coord }
    ensures processor { SoundMutating actors.new.layout actors.new.processor.shapes actors.new.processor.processor }
    ensures busy { IsNone result → is_busy actors.new.processor ≡ true }
    ensures made { MadeAtMost actors.new.begun actors.new.processor.processor }
    ensures stays { (actors.new.layout ≡ actors.old.layout) × (actors.new.begun ≡ actors.old.begun) × (actors.new.processor.shapes ≡ actors.old.processor.shapes) }
{
    let request = actors.processor.next(&actors.layout);
    let found = actors.words.step(request);
    actors.columns.processor.count(request, found);
    let answer = actors.processor.take(&actors.layout, found);
    others(actors);
    answer
}

/// The processor runs an operation, if it is at none: what that is answered, if it ends within 1000 rounds.
fn turn(actors: &mut Actors<'_>, op: Op) -> Option<Answer>
    requires words { length actors.old.words ≡ length_of actors.old.layout }
    requires worker { SoundWorking actors.old.layout actors.old.worker }
    requires coord { (IsTrue actors.old.leads → IsBusy (listing actors.old.layout) actors.old.coord) × SoundCoordinating actors.old.layout actors.old.coord }
    requires processor { SoundMutating actors.old.layout actors.old.processor.shapes actors.old.processor.processor }
    requires made { MadeAtMost actors.old.begun actors.old.processor.processor }
    requires op { SoundOp actors.old.processor.shapes actors.old.layout op }
    requires room { has_room actors.old.processor.processor op ≡ true }
    ensures words { length actors.new.words ≡ length_of actors.new.layout }
    ensures worker { SoundWorking actors.new.layout actors.new.worker }
    ensures coord { (IsTrue actors.new.leads → IsBusy (listing actors.new.layout) actors.new.coord) × SoundCoordinating actors.new.layout actors.new.coord }
    ensures processor { SoundMutating actors.new.layout actors.new.processor.shapes actors.new.processor.processor }
    ensures made { MadeAtMost actors.new.begun actors.new.processor.processor }
    ensures stays { (actors.new.layout ≡ actors.old.layout) × (actors.new.processor.shapes ≡ actors.old.processor.shapes) }
{
    if actors.processor.is_busy() || actors.begun >= 1000 {
        return None;
    }
    actors.processor.begin(&actors.layout, op);
    actors.begun += 1;
    for _ in 0..1000 {
        if !actors.processor.is_busy() {
            return None;
        }
        let answer = round(actors);
        if answer.is_some() {
            return answer;
        }
    }
    None
}

/// As many as 1000 rounds once the processor has left.
fn rest(actors: &mut Actors<'_>)
    requires words { length actors.old.words ≡ length_of actors.old.layout }
    requires worker { SoundWorking actors.old.layout actors.old.worker }
    requires coord { (IsTrue actors.old.leads → IsBusy (listing actors.old.layout) actors.old.coord) × SoundCoordinating actors.old.layout actors.old.coord }
    ensures words { length actors.new.words ≡ length_of actors.new.layout }
    ensures worker { SoundWorking actors.new.layout actors.new.worker }
    ensures coord { (IsTrue actors.new.leads → IsBusy (listing actors.new.layout) actors.new.coord) × SoundCoordinating actors.new.layout actors.new.coord }
    ensures layout { actors.new.layout ≡ actors.old.layout }
{
    for _ in 0..1000 {
        others(actors);
    }
}

#[test]
fn a_cycle_keeps_and_frees(rt: HostRuntime) -> Result<(), Fail> {
    let alloc = rt.alloc();
    let script = parse(alloc, SCRIPT.as_bytes())?;
    script.is_well_formed();
    let layout = Layout::new(LayoutPlan::LEAST)?;
    assert!(rt; !script.shapes().rows.is_empty());
    let mut actors = Actors {
        layout,
        words: Plain::new(alloc, &layout, NEVER)?,
        processor: Mutator::new(0, script.shapes()),
        begun: 0,
        worker: Worker::new(1),
        coord: Coord::new(alloc, &layout, 2, 0, 0, 2)?,
        leads: true,
        columns: Columns {
            processor: Column::of(alloc, &layout, PROCESSOR)?,
            worker: Column::of(alloc, &layout, WORKER)?,
            coord: Column::of(alloc, &layout, COORDINATOR)?,
        },
    };
    let told = [
        turn(&mut actors, Op::Poll),
        turn(&mut actors, Op::New { g: 0, d: 0, t: 0 }),
        turn(&mut actors, Op::Poll),
        turn(&mut actors, Op::Gc { g: 0 }),
        turn(&mut actors, Op::Poll),
        turn(&mut actors, Op::End(0)),
        turn(&mut actors, Op::Leave),
    ];
    assert_eq!(rt; told, ANSWERS);
    rest(&mut actors);
    let columns = &actors.columns;
    let counts = [
        columns.processor.counts(),
        columns.worker.counts(),
        columns.coord.counts(),
    ];
    assert_eq!(rt; counts, COUNTS);
    assert!(rt; actors.processor.has_left() && actors.worker.is_done() && !actors.leads);
    Ok(())
}
