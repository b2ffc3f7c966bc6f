//! What is run in a thread of its own, and what runs many of them beside each other.
//!
//! That a count of a [`Spawner`] rose shows whoever called that jobs were run in threads, or that a thread could not be had.
//! So both counts rise in [`Spawner::all`] alone: the methods that count ask for a [`CountToken`], which has a private field
//! and is made nowhere but in `all`. Else a caller could count by itself, and answer that no thread could be had without
//! asking for one, or that jobs were run, with no thread.
ghost use Rattle.std.specs.Prelude.{◌≡◌, ℕ, ◌<◌, ◌≤◌, All, IfOk, IfErr, OnOk, OnErr, IsErr, false, vec_len};
ghost use Rattle.gh_gate.specs.Counts.{Rose};
ghost use Rattle.gh_gate.specs.Jobs.{AllHaveRun};
ghost use Rattle.gh_gate.specs.Refusals.{given_back, IsCounted};

use crate::start::all_or_none;
use std::sync::Wait;
use std::thread;

/// What runs to an end, once. It may wait for other jobs that are run with it.
pub trait Job {
    /// What tells one job from another.
    ghost Which: { Type 0 };

    /// It stands where `run` may begin.
    ghost started: { Self → Type 0 };

    /// It has come to its end.
    ghost ended: { Self → Type 0 };

    /// Which job it is: data that `run` leaves as it was.
    ghost which: { Self → Which };

    /// Runs it to its end. Where another job does not come to its end, it may wait for ever.
    fn run<R: Wait>(&mut self, rt: &R)
        requires { started self.old }
        ensures ended { ended self.new }
        ensures which { which self.new ≡ which self.old };
}

/// Why no job was run. The jobs are given back, each at its place and as it was.
#[derive(Drop)]
pub enum Refused<J> {
    /// A thread could not be made. The spawner has counted a fault.
    Thread(Vec<J>),
    /// There was no memory for all jobs. A spawner needs none of its own, so only those who make a list of jobs answer this.
    Memory(Vec<J>),
}

/// The right to count what came of jobs. `all` of a [`Spawner`] makes it and lends it to the spawner's own methods; it can be
/// made nowhere else, nor kept.
#[derive(Drop)]
pub struct CountToken {
    of_all: (),
}

/// What runs many jobs, which may wait for each other. It keeps two counts, each of which may stand still at the greatest
/// u64: its faults, and how often jobs were run. Both rise in `all` alone. Those who make one say whether it starts threads
/// and how it counts; all else is `all`, which is one for all spawners.
pub trait Spawner {
    /// How many faults there were so far.
    ghost faults: { Self → ℕ };

    /// How often jobs were run so far.
    ghost ran: { Self → ℕ };

    /// It never starts a thread.
    ghost refuses: { Self → Type 0 };

    /// Whether it starts threads at all.
    fn may_start(&self) -> bool
        ensures { refuses self.now → result ≡ false };

    /// Counts that a thread could not be had.
    fn count_fault(&mut self, token: &CountToken)
        ensures failed { Rose (faults self.old) (faults self.new) }
        ensures faults_never_fall { faults self.old ≤ faults self.new }
        ensures none_ran { ran self.new ≡ ran self.old };

    /// Counts that jobs were run.
    fn count_run(&mut self, token: &CountToken)
        ensures rose { Rose (ran self.old) (ran self.new) }
        ensures ran_never_falls { ran self.old ≤ ran self.new }
        ensures no_fault { faults self.new ≡ faults self.old };

    /// Runs all jobs, each in a thread of its own, or none. Where all ran, each has come to its end and stands at its old
    /// place, and that jobs were run is counted. No job makes a step before every thread is made.
    /// `Refused::Thread` comes where the spawner starts no thread, or where one could not be made. A fault is counted then,
    /// and the jobs are given back as they were. It takes no memory but that of the threads, and so does not answer
    /// `Refused::Memory`. It returns once every thread has ended.
    final fn all<R: thread::Threads + Wait + Sync, J: Job + Send + Drop>(
        &mut self,
        rt: &R,
        jobs: Vec<J>,
    ) -> Result<Vec<J>, Refused<J>>
        requires { All J.started jobs.items }
        ensures ran { IfOk result (λ done. AllHaveRun J.ended J.which jobs.items done.items) }
        ensures rose { OnOk result (0 < vec_len jobs → Rose (ran self.old) (ran self.new)) }
        ensures refused { refuses self.old → IsErr result }
        ensures counted { refuses self.old → Rose (faults self.old) (faults self.new) }
        ensures kept { IfErr result (λ refused. given_back refused ≡ jobs.items) }
        ensures failed { IfErr result (λ refused. IsCounted refused (faults self.old) (faults self.new)) }
        ensures none_ran { OnErr result (ran self.new ≡ ran self.old) }
        ensures no_fault { OnOk result (faults self.new ≡ faults self.old) }
        ensures faults_never_fall { faults self.old ≤ faults self.new }
        ensures ran_never_falls { ran self.old ≤ ran self.new }
    {
        let token = CountToken { of_all: () };
        if !self.may_start() {
            self.count_fault(&token);
            return Err(Refused::Thread(jobs));
        }
        let (jobs, ran) = all_or_none(rt, jobs);
        if ran {
            self.count_run(&token);
            Ok(jobs)
        } else {
            self.count_fault(&token);
            Err(Refused::Thread(jobs))
        }
    }
}
