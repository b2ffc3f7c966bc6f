//! What the processor is at: nothing, or a statement of a goroutine, or an operation of its own.

ghost use Rattle.std.specs.Prelude.{◌≡◌};

use crate::global::{Direct, Global, GlobalWrite};
use crate::load::Load;
use crate::new::New;
use crate::register::Register;
use crate::store::Store;
use gh_poll::{Leave, Wait};

/// What the processor is at. Each statement is a small machine, in the file of its name. No value of it is made: it is what
/// clauses speak of. A processor keeps it as a [`TaskAt`] and a [`LargeTask`].
#[derive(Drop)]
pub enum Task<'s> {
    /// Nothing is begun.
    Idle,
    /// It has left.
    Left,
    /// The load of a field.
    Load(Load),
    /// The store of a field.
    Store(Store),
    /// The load or the store of a global.
    Global(Global),
    /// A statement on registers alone.
    Register(Register),
    /// A new object.
    New(New<'s>),
    /// A `gc` of this goroutine: the processor waits for a cycle.
    Gc(u32, Wait),
    /// A poll of a turn's own. It is the processor's [`gh_poll::Poll`] that runs.
    Poll,
    /// This goroutine ends: its stack counts as scanned in each cycle to come.
    End(u32),
    /// It gives back what it holds, and leaves.
    Leave(Leave),
}

/// What the processor is at, as it is kept: what most steps are of stands here itself, so that it begins, goes on and ends in a few
/// words, and the large tasks beside it.
#[derive(Clone, Copy)]
pub enum TaskAt {
    /// Nothing is begun.
    Idle,
    /// It has left.
    Left,
    /// The load of a field.
    Load(Load),
    /// The load or the store of a global without a write barrier.
    Direct(Direct),
    /// A statement on registers alone.
    Register(Register),
    /// A `gc` of this goroutine.
    Gc(u32, Wait),
    /// A poll of a turn's own.
    Poll,
    /// This goroutine ends.
    End(u32),
    /// The large task that is kept.
    Large,
}

/// A task that is large. The last one stays where it is over, so that nothing is written there.
#[derive(Drop)]
pub enum LargeTask<'s> {
    /// The store of a field.
    Store(Store),
    /// The store of a global behind the write barrier.
    Write(GlobalWrite),
    /// A new object.
    New(New<'s>),
    /// It gives back what it holds, and leaves.
    Leave(Leave),
}

/// A statement whose steps change no more than its register.
pub(crate) trait Statement<'s> {
    ghost use Rattle.std.specs.Prelude.{◌≡◌};
    ghost use Rattle.gh_mutator.specs.declared.task.Task.{Task};
    ghost use Rattle.gh_mutator.specs.Tasks.{task_kept};

    ghost as_task: { Self → Task };

    /// The processor runs it from now on. No more is written than the statement.
    fn put(self, at: &mut TaskAt, large: &mut LargeTask<'s>)
        ensures { task_kept at.new large.new ≡ as_task self };
}

impl<'s> Statement<'s> for Load {
    ghost use Rattle.gh_mutator.specs.declared.task.Task.TheVariants as task;

    ghost as_task = { task.Load };

    fn put(self, at: &mut TaskAt, _large: &mut LargeTask<'s>) {
        *at = TaskAt::Load(self);
    }
}

impl<'s> Statement<'s> for Store {
    ghost use Rattle.gh_mutator.specs.declared.task.Task.TheVariants as task;

    ghost as_task = { task.Store };

    fn put(self, at: &mut TaskAt, large: &mut LargeTask<'s>) {
        *at = TaskAt::Large;
        match large {
            LargeTask::Store(x) => *x = self,
            _ => *large = LargeTask::Store(self),
        }
    }
}

impl<'s> Statement<'s> for Direct {
    ghost use Rattle.gh_mutator.specs.Tasks.{direct};

    ghost as_task = { direct };

    fn put(self, at: &mut TaskAt, _large: &mut LargeTask<'s>) {
        *at = TaskAt::Direct(self);
    }
}

impl<'s> Statement<'s> for Register {
    ghost use Rattle.gh_mutator.specs.declared.task.Task.TheVariants as task;

    ghost as_task = { task.Register };

    fn put(self, at: &mut TaskAt, _large: &mut LargeTask<'s>) {
        *at = TaskAt::Register(self);
    }
}
