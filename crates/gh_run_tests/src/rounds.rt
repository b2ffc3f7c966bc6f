//! A script of two goroutines, each on a processor of its own, whose answers are the same in each run: each makes its own objects, and
//! has its own global. A cycle is due after every few objects, so that cycle after cycle runs beside them.

use gh_base::{Answer, Name};
use gh_run::ThreadRun;

/// The script.
pub const ROUNDS: &str =
    "procs 2\nworkers 2\nglobals 2\ngogc 50\nminheap 0\narena 16\ntype node pn\ngo a\nrepeat 1000\nnew r0 node\nint r1 5\nstore r0 1 r1\ngstore 0 r0\ngload r2 0\nload r3 r2 1\nnil r0\nnil r2\nend\nend\ngo b\nrepeat 1000\nnew r0 node\nint r1 5\nstore r0 1 r1\ngstore 1 r0\ngload r2 1\nload r3 r2 1\nnil r0\nnil r2\nend\nend\n";

/// How many statements a round has.
const ROUND: u32 = 8;

/// How many statements a goroutine has.
const STATEMENTS: u32 = 1_000 * ROUND;

/// What statement `n` of goroutine `g` is answered, counted from 0: in each round the object that it makes, loaded again from the
/// global, and the number that was put into it.
fn said(g: u32, n: u32) -> Answer {
    match n % ROUND {
        0 | 4 => Answer::Ref(Name { g, k: n / ROUND }),
        5 => Answer::Int(5),
        _ => Answer::Done,
    }
}

/// How many of the answers are those of the script, each at its place.
fn answered_as_said(answers: &[(u32, Answer)]) -> u32 {
    let mut good = 0u32;
    for g in 0..2u32 {
        for n in 0..STATEMENTS {
            let at = (g * STATEMENTS + n) as usize;
            if answers.get(at).copied() == Some((g, said(g, n))) {
                good = good.saturating_add(1);
            }
        }
    }
    good
}

/// How many objects the cycles freed.
fn freed(told: &ThreadRun) -> u64 {
    let mut freed = 0u64;
    for cycle in &told.cycles {
        freed = freed.saturating_add(cycle.freed);
    }
    freed
}

/// What is the same in each run.
#[derive(Clone, Copy, Debug, PartialEq, Eq)]
pub struct Outcome {
    /// How many answers there are, and how many of them are those of the script.
    answers: usize,
    as_said: u32,
    /// How many objects the cycles freed, how many are live, and how many bytes these have.
    freed: u64,
    objects: u64,
    live: u64,
    /// What was earned was spent or has lapsed.
    credit_adds_up: bool,
    /// There was a cycle besides the last.
    has_early_cycle: bool,
}

/// That of a run with such a cycle: each goroutine's last object is live, by its global.
pub const EXPECTED: Outcome = Outcome {
    answers: 16_000,
    as_said: 16_000,
    freed: 1_998,
    objects: 2,
    live: 32,
    credit_adds_up: true,
    has_early_cycle: true,
};

/// That of this run.
pub fn outcome_of(told: &ThreadRun) -> Outcome {
    Outcome {
        answers: told.answers.len(),
        as_said: answered_as_said(&told.answers),
        freed: freed(told),
        objects: told.objects,
        live: told.live,
        credit_adds_up: told.earned == told.spent.wrapping_add(told.lapsed),
        has_early_cycle: told.cycles.len() > 1,
    }
}
