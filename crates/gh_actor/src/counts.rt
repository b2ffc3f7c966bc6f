//! What a handle counts of a processor's goroutines.

ghost use Rattle.std.specs.Prelude.{◌≡◌, IfOk};
ghost use Rattle.gh_actor.specs.Counting.{gone_after, left_after, over_after, CountsFirst, MayCount};

use gh_base::Op;
use gh_script::Script;
use gh_world::{most_cycles, wishes_of};
use std::alloc::{AllocError, Global};

/// What is left of each goroutine's `new` and `gc`, and which goroutines have ended.
#[derive(Drop)]
pub struct Counts {
    pub procs: u32,
    /// How many `new` and `gc` of each goroutine have not begun.
    pub left: Vec<u32>,
    /// Whether each goroutine has ended.
    pub over: Vec<bool>,
    /// Whether the processor has left.
    pub gone: bool,
}

impl Counts {
    /// Before anything is begun. Its memory is taken here.
    pub fn new(alloc: Global, script: &Script) -> Result<Counts, AllocError>
        ensures { IfOk result (λ counts. CountsFirst script.now counts.procs counts.left.items counts.over.items counts.gone) }
    {
        script.is_well_formed();
        most_cycles(script);
        let many = script.goroutines();
        let mut left = Vec::with_capacity(alloc, many as usize)?;
        let mut over = Vec::with_capacity(alloc, many as usize)?;
        for g in 0..many {
            left.push_reserved(wishes_of(script, g));
            over.push_reserved(false);
        }
        Ok(Counts {
            procs: script.settings().procs,
            left,
            over,
            gone: false,
        })
    }

    /// Counts an operation that was begun.
    pub fn note(&mut self, op: Op)
        requires { MayCount self.old.left.items self.old.over.items op }
        ensures left { self.new.left.items ≡ left_after self.old.left.items op }
        ensures over { self.new.over.items ≡ over_after self.old.over.items op }
        ensures gone { self.new.gone ≡ gone_after self.old.gone op }
        ensures procs { self.new.procs ≡ self.old.procs }
    {
        match op {
            Op::New { g, .. } | Op::Gc { g } => self.left[g as usize] -= 1,
            Op::End(g) => self.over[g as usize] = true,
            Op::Leave => self.gone = true,
            _ => {}
        }
    }
}
