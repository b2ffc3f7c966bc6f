//! What jobs have come to, gathered.

ghost use Rattle.std.specs.Prelude.{◌≡◌, ℕ, ◌<◌, ◌≤◌, ◌%◌, [], length, slice_get, Some};
ghost use Rattle.std.specs.Vec.{vec_capacity};
ghost use Rattle.gh_base.specs.Cells.{seats_of};
ghost use Rattle.gh_base.specs.Lists.{by};
ghost use Rattle.gh_lines.specs.Text.{answers_by};
ghost use Rattle.gh_run.specs.Jobs.{AreDoneOf};
ghost use Rattle.gh_run.specs.declared.job.HeapJob.{HeapJob};
ghost use Rattle.gh_shared.specs.Handles.{carries_of, own_of, plan_of, view_of, IsHeapOf, IsHandleOf};
ghost use Rattle.gh_world.specs.Turns.{total_of};

use crate::job::HeapJob;
use crate::telling::add_answers;
use gh_base::{Answer, modulo};
use gh_script::Script;
use gh_shared::{Handle, Heap};

/// What all jobs were answered, goroutine by goroutine, each goroutine's in its order.
pub fn all_told<'h, 's, G>(
    heap: &Heap,
    script: &Script,
    done: &[HeapJob<'h, 's, G>],
    answers: &mut Vec<(u32, Answer)>,
)
    requires script { IsHeapOf script.now heap.now }
    requires done { AreDoneOf script.now heap.now done.now }
    requires none { answers.old.items ≡ [] }
    requires room { vec_capacity answers.old ≡ total_of script.now }
    ensures few { length answers.new.items ≤ total_of script.now }
    ensures told { (g : ℕ) (j : HeapJob G) → slice_get done.now (g % script.now.settings.procs) ≡ Some j → answers_by g answers.new.items ≡ answers_by g j.answers.items }
{
    script.is_well_formed();
    for g in 0..script.goroutines() {
        let job = &done[modulo(g, script.settings().procs) as usize];
        add_answers(g, &job.answers, answers);
    }
}

/// The handles of all jobs in one.
pub fn gathered<'h, 's, G>(
    heap: &Heap,
    script: &Script,
    mut done: Vec<HeapJob<'h, 's, G>>,
) -> Handle<'s>
    requires script { IsHeapOf script.now heap.now }
    requires done { AreDoneOf script.now heap.now done.items }
    ensures of { IsHandleOf heap.now result }
    ensures all { carries_of result ≡ seats_of (plan_of heap.now).layout }
    ensures own { (a : ℕ) (j : HeapJob G) → slice_get done.entry.items a ≡ Some j → by a (view_of result).log ≡ own_of j.handle }
{
    let Some(last) = done.pop() else {
        unreachable!()
    };
    let mut all = last.into_handle();
    for job in done {
        heap.gather(&mut all, job.into_handle());
    }
    all
}
