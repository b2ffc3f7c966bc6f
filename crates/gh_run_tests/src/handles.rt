//! Actors that are run in threads of their own, by their handles.

ghost use Rattle.std.specs.Prelude.{◌≡◌, All, IfOk, IfSome};
ghost use Rattle.gh_shared.specs.declared.heap.Heap.{Heap};
ghost use Rattle.gh_shared.specs.Handles.{AreFresh, IsHandleOf, IsHeapOf};

use gh_base::{Answer, Name};
use gh_gate::{Job, Open, Spawner, Threads};
use gh_script::{Script, parse};
use gh_shared::{Handle, Heap};
use std::alloc::{AllocError, Global};
use std::sync::Wait;
use std::test::*;
use std::thread;

/// What a goroutine was answered.
#[derive(Drop)]
struct Told {
    /// By its `new`.
    made: Option<Answer>,
    /// By the load of the field that it had stored 7 into.
    field: Option<Answer>,
    /// By its `gc`.
    swept: Option<Answer>,
    /// How many loads of global 0 named its own object, one of another goroutine, and nothing of the two.
    own: u32,
    others: u32,
    neither: u32,
}

impl Told {
    fn nothing() -> Told {
        Told {
            made: None,
            field: None,
            swept: None,
            own: 0,
            others: 0,
            neither: 0,
        }
    }
}

/// An actor of a heap, which is run to its end.
#[derive(Drop)]
struct Runner<'h, 's> {
    heap: &'h Heap,
    script: &'h Script,
    handle: Handle<'s>,
    rounds: u32,
    told: Told,
}

impl<'h, 's> Job for Runner<'h, 's> {
    ghost Which = { Heap };

    ghost started = { λ j. IsHandleOf j.heap.now j.handle × IsHeapOf j.script.now j.heap.now };

    ghost ended = { λ j. IsHandleOf j.heap.now j.handle };

    ghost which = { λ j. j.heap.now };

    fn run<R: Wait>(&mut self, rt: &R) {
        if self.handle.ended() {
            return;
        }
        if self.handle.is_worker() {
            self.heap.work(rt, &mut self.handle, &Open);
        } else if self.handle.is_coordinator() {
            self.heap.coordinate(rt, &mut self.handle, &Open);
        } else {
            plays(
                rt,
                self.heap,
                self.script,
                &mut self.handle,
                self.rounds,
                &mut self.told,
            );
        }
    }
}

/// The goroutine of a processor makes an object, and stores and loads its field and the global. Then it collects, ends, and
/// its processor leaves.
fn plays<'s, R: Wait>(
    rt: &R,
    heap: &Heap,
    script: &Script,
    h: &mut Handle<'s>,
    rounds: u32,
    told: &mut Told,
)
    requires of { IsHandleOf heap.now h.old }
    requires script { IsHeapOf script.now heap.now }
    ensures { IsHandleOf heap.now h.new }
{
    told.made = makes(rt, heap, script, h);
    told.field = stores(rt, heap, h);
    for _ in 0..rounds {
        let found = races(rt, heap, script, h);
        counts(told, h.actor(), found);
    }
    told.swept = collects(rt, heap, h);
    leaves(rt, heap, h);
}

/// Register 0 names a new object.
fn makes<'s, R: Wait>(rt: &R, heap: &Heap, script: &Script, h: &mut Handle<'s>) -> Option<Answer>
    requires of { IsHandleOf heap.now h.old }
    requires script { IsHeapOf script.now heap.now }
    ensures { IsHandleOf heap.now h.new }
{
    let g = h.actor();
    if !h.is_processor() || h.ended() || !h.runs(g) || h.left(g) < 1 {
        return None;
    }
    if script.shapes().count() == 0 {
        return None;
    }
    Some(heap.new_object(rt, h, g, 0, 0))
}

/// Field 1 of the object takes 7, and is loaded.
fn stores<'s, R: Wait>(rt: &R, heap: &Heap, h: &mut Handle<'s>) -> Option<Answer>
    requires of { IsHandleOf heap.now h.old }
    ensures { IsHandleOf heap.now h.new }
{
    let g = h.actor();
    if !h.is_processor() || h.ended() || !h.runs(g) {
        return None;
    }
    heap.int(h, g, 1, 7);
    heap.poll(rt, h);
    heap.store(h, g, 0, 1, 1);
    Some(heap.load(h, g, 2, 0, 1))
}

/// Global 0 takes the object, and is loaded.
fn races<'s, R: Wait>(rt: &R, heap: &Heap, script: &Script, h: &mut Handle<'s>) -> Option<Answer>
    requires of { IsHandleOf heap.now h.old }
    requires script { IsHeapOf script.now heap.now }
    ensures { IsHandleOf heap.now h.new }
{
    let g = h.actor();
    if !h.is_processor() || h.ended() || !h.runs(g) || script.settings().globals == 0 {
        return None;
    }
    heap.poll(rt, h);
    heap.set_global(h, g, 0, 0);
    Some(heap.get_global(h, g, 1, 0))
}

/// Counts what a load of the global has found.
fn counts(told: &mut Told, g: u32, found: Option<Answer>) {
    match found {
        Some(Answer::Ref(name)) if name.k == 0 && name.g == g => {
            told.own = told.own.saturating_add(1);
        }
        Some(Answer::Ref(name)) if name.k == 0 => told.others = told.others.saturating_add(1),
        _ => told.neither = told.neither.saturating_add(1),
    }
}

/// Asks for a cycle, and waits for it.
fn collects<'s, R: Wait>(rt: &R, heap: &Heap, h: &mut Handle<'s>) -> Option<Answer>
    requires of { IsHandleOf heap.now h.old }
    ensures { IsHandleOf heap.now h.new }
{
    let g = h.actor();
    if !h.is_processor() || h.ended() || !h.runs(g) || h.left(g) < 1 {
        return None;
    }
    Some(heap.collect(rt, h, g))
}

/// The goroutine ends, and its processor leaves.
fn leaves<'s, R: Wait>(rt: &R, heap: &Heap, h: &mut Handle<'s>)
    requires of { IsHandleOf heap.now h.old }
    ensures { IsHandleOf heap.now h.new }
{
    let g = h.actor();
    if !h.is_processor() || h.ended() || !h.runs(g) {
        return;
    }
    heap.finish(h, g);
    if h.runs_none() {
        heap.leave(rt, h);
    }
}

/// A job for each handle.
fn jobs_of<'h, 's>(
    alloc: Global,
    heap: &'h Heap,
    script: &'h Script,
    handles: Vec<Handle<'s>>,
    rounds: u32,
) -> Result<Vec<Runner<'h, 's>>, AllocError>
    requires handles { All (IsHandleOf heap.now) handles.items }
    requires script { IsHeapOf script.now heap.now }
    ensures { IfOk result (λ jobs. All (λ j. (j.heap.now ≡ heap.now) × IsHandleOf heap.now j.handle × IsHeapOf j.script.now heap.now) jobs.items) }
{
    let mut jobs = Vec::new(alloc);
    for handle in handles {
        jobs.push(Runner {
            heap,
            script,
            handle,
            rounds,
            told: Told::nothing(),
        })?;
    }
    Ok(jobs)
}

/// The handles of all jobs in one, and what each was told: the last job first, and the others in their order.
fn gathered<'h, 's>(
    alloc: Global,
    heap: &Heap,
    mut done: Vec<Runner<'h, 's>>,
) -> Result<Option<(Handle<'s>, Vec<Told>)>, AllocError>
    requires { All (λ j. IsHandleOf heap.now j.handle) done.items }
    ensures { IfOk result (λ ran. IfSome ran (λ r. IsHandleOf heap.now r.0)) }
{
    let Some(
        Runner {
            handle: mut last,
            told,
            ..
        },
    ) = done.pop()
    else {
        return Ok(None);
    };
    let mut tolds = Vec::new(alloc);
    tolds.push(told)?;
    for job in done {
        heap.gather(&mut last, job.handle);
        tolds.push(job.told)?;
    }
    Ok(Some((last, tolds)))
}

/// Runs all actors in threads, and gathers them into the handle of the last.
fn run_all<'s, R: thread::Threads + Wait + Sync>(
    rt: &R,
    alloc: Global,
    heap: &Heap,
    script: &Script,
    handles: Vec<Handle<'s>>,
    rounds: u32,
) -> Result<Option<(Handle<'s>, Vec<Told>)>, AllocError>
    requires handles { AreFresh heap.now handles.items }
    requires script { IsHeapOf script.now heap.now }
    ensures { IfOk result (λ ran. IfSome ran (λ r. IsHandleOf heap.now r.0)) }
{
    let jobs = jobs_of(alloc, heap, script, handles, rounds)?;
    let Ok(done) = Threads::new().all(rt, jobs) else {
        return Ok(None);
    };
    gathered(alloc, heap, done)
}

/// A goroutine that asks for a cycle.
const ONE: &str =
    "procs 1\nworkers 1\narena 16\nglobals 1\ngogc 0\nminheap 0\ntype node pn\ngo a\nnew r0 node\ngc\nend\n";

/// Two on processors of their own, which race on the global and ask for none.
const TWO: &str =
    "procs 2\nworkers 1\narena 16\nglobals 1\ngogc 0\nminheap 0\ntype node pn\ngo a\nnew r0 node\nend\ngo b\nnew r0 node\nend\n";

#[test]
fn handles_run_in_threads(rt: HostRuntime) -> Result<(), Fail> {
    // the script and the rounds; what a `gc` is answered, the objects that each cycle keeps and frees, and the sweep generation at the end,
    // which rises by 2 in each cycle. Of the objects the global names the one that was stored last.
    for (text, rounds, swept, cycles, generation) in [
        (ONE, 1, Some(Answer::Swept), [(1, 0), (1, 0)].as_slice(), 6),
        (TWO, 500, None, [(1, 1)].as_slice(), 4),
    ] {
        let script = parse(rt.alloc(), text.as_bytes())?;
        let (heap, handles) = Heap::open(rt.alloc(), &script)?;
        let Some((last, tolds)) = run_all(&rt, rt.alloc(), &heap, &script, handles, rounds)? else {
            return Err(Fail::new("no thread"));
        };
        // behind the coordinator come the processors; a load names what was stored last, by this goroutine or by the other since then
        for (g, told) in (0u32..script.settings().procs).zip(tolds.iter().skip(1)) {
            let made = Some(Answer::Ref(Name { g, k: 0 }));
            let seven = Some(Answer::Int(7));
            let loads = told.own.saturating_add(told.others);
            assert_eq!(rt;
                (told.made, told.field, told.swept, loads, told.neither),
                (made, seven, swept, rounds, 0)
            );
        }
        assert!(rt; last.carries() == heap.actors());
        let closed = heap.close(last);
        assert_eq!(rt;
            (closed.cycles().len(), closed.live(), closed.word(2)),
            (cycles.len(), 16, generation)
        );
        for (cycle, kept) in closed.cycles().iter().zip(cycles) {
            assert_eq!(rt; (cycle.marked, cycle.freed), *kept, "cycle {cycle:?}");
        }
    }
    Ok(())
}
