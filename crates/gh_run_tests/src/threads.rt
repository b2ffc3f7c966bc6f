//! Scripts that are run by threads, and one that gets none.

use gh_base::{Answer, Name};
use gh_gate::{NoSpawn, Open, Threads};
use gh_run::{RunFault, run};
use gh_script::parse;
use std::test::*;

// Two goroutines, each on a processor of its own. In each round each makes an object, puts its own number into it, puts it into the
// one global, and loads from both.
const RACE: &str =
    "procs 2\nworkers 1\narena 64\nglobals 1\ngogc 0\nminheap 0\ntype node pn\ngo a\nrepeat 1000\nnew r0 node\nint r1 7\nstore r0 1 r1\ngstore 0 r0\ngload r2 0\nload r3 r0 1\nend\nend\ngo b\nrepeat 1000\nnew r0 node\nint r1 8\nstore r0 1 r1\ngstore 0 r0\ngload r2 0\nload r3 r0 1\nend\nend\n";

/// How many of the answers name an object, are a number, and are `done`.
fn kinds(answers: &[(u32, Answer)]) -> (u32, u32, u32) {
    let mut named = 0u32;
    let mut numbers = 0u32;
    let mut done = 0u32;
    for (_, answer) in answers {
        match answer {
            Answer::Ref(_) => named = named.saturating_add(1),
            Answer::Int(_) => numbers = numbers.saturating_add(1),
            Answer::Done => done = done.saturating_add(1),
            _ => {}
        }
    }
    (named, numbers, done)
}

#[test]
fn two_processors_race_a_thousand_rounds(rt: HostRuntime) -> Result<(), Fail> {
    let script = parse(rt.alloc(), RACE.as_bytes())?;
    let mut threads = Threads::new();
    match run(&rt, rt.alloc(), &script, &Open, &mut threads) {
        Ok(told) => {
            assert_eq!(rt; told.answers.len(), 12_000);
            // a load of the global names what was stored last, by whomever
            assert_eq!(rt; kinds(&told.answers), (4_000, 2_000, 6_000));
            // goroutine by goroutine, each by its own statements: what it makes last, and what it loads of that
            let made = Answer::Ref(Name { g: 1, k: 999 });
            assert_eq!(rt; told.answers.get(11_994).copied(), Some((1, made)));
            let loaded = (
                told.answers.get(5_999).copied(),
                told.answers.get(11_999).copied(),
            );
            assert_eq!(rt;
                loaded,
                (Some((0, Answer::Int(7))), Some((1, Answer::Int(8))))
            );
            // no goroutine asked for a cycle, and of all objects the global names the one that was stored last
            assert_eq!(rt; told.cycles.len(), 1);
            let last = told.cycles.get(0).copied();
            assert_eq!(rt;
                last.map(|cycle| (cycle.k, cycle.marked, cycle.freed)),
                Some((1, 1, 1_999))
            );
            assert_eq!(rt; (told.objects, told.live), (1, 16));
        }
        Err(_) => assert!(rt; false),
    }
    Ok(())
}

#[test]
fn without_threads_nothing_runs(rt: HostRuntime) -> Result<(), Fail> {
    let text = "procs 1\nworkers 1\narena 16\nglobals 1\ntype node pn\ngo a\nnew r0 node\nend\n";
    let script = parse(rt.alloc(), text.as_bytes())?;
    let mut refusing = NoSpawn::new();
    let refused = matches!(
        run(&rt, rt.alloc(), &script, &Open, &mut refusing),
        Err(RunFault::NoThread)
    );
    assert!(rt; refused);
    Ok(())
}
