//! One actor of a heap, which is run to its end.

ghost use Rattle.std.specs.Prelude.{◌≡◌};
ghost use Rattle.gh_run.specs.Jobs.{answer_among};

use crate::telling::answer_among;
use crate::turning::run_actor;
use gh_base::Answer;
use gh_gate::{Gate, Job};
use gh_script::Script;
use gh_shared::{Handle, Heap};
use gh_world::Progress;
use std::sync::Wait;

/// One actor of a heap, with what its statements were answered so far.
#[derive(Drop)]
pub struct HeapJob<'h, 's, G> {
    pub heap: &'h Heap,
    pub script: &'h Script,
    pub gate: &'h G,
    /// The actor's handle.
    pub handle: Handle<'s>,
    /// How far a processor is among its turns.
    pub progress: Progress,
    /// What its statements were answered, each answer with its goroutine, in the order of its turns.
    pub answers: Vec<(u32, Answer)>,
}

impl<'h, 's, G: Gate + Sync> Job for HeapJob<'h, 's, G> {
    ghost use Rattle.std.specs.Vec.{vec_capacity};
    ghost use Rattle.gh_run.specs.Jobs.{IsAtEnd, IsAtStart, which_job, WhichJob};

    ghost Which = { WhichJob };

    ghost started = { λ j. IsAtStart j.script.now j.heap.now j.handle j.progress j.answers.items (vec_capacity j.answers) };

    ghost ended = { λ j. IsAtEnd j.script.now j.heap.now j.handle j.answers.items };

    ghost which = { which_job };

    /// Runs the actor until it has ended. The gate is called between two steps, whenever its marks have changed.
    fn run<R: Wait>(&mut self, rt: &R) {
        run_actor(
            rt,
            self.heap,
            self.script,
            self.gate,
            &mut self.handle,
            &mut self.progress,
            &mut self.answers,
        );
    }
}

impl<'h, 's, G> HeapJob<'h, 's, G> {
    /// What statement `n` of goroutine `g` was answered, counted from 1; `None` exactly where the job has not answered it.
    pub fn answer(&self, g: u32, n: u32) -> Option<Answer>
        ensures { result ≡ answer_among self.now.answers.items g n }
    {
        answer_among(&self.answers, g, n)
    }

    /// The actor's handle.
    pub fn into_handle(self) -> Handle<'s>
        ensures { result ≡ self.entry.handle }
    {
        self.handle
    }
}
