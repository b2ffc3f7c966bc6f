//! That nobody passes a stop of the world while a processor, in a thread of its own, has not come to it: the stop that opens a cycle, and the
//! one that is to end its marking.
//!
//! A processor that is held between two statements has not acknowledged the stop that is asked for meanwhile. So as long as it is held
//! the coordinator does not store the phase word again, and nobody goes on: the other processor answers the statement that it was
//! at, at most, and each worker scans what it was at. Once the processor is let go, the cycle ends.

use crate::marks::{COORDINATOR, FIRST, Marks, SECOND, add, read};
use crate::rounds::{EXPECTED, ROUNDS, outcome_of};
use gh_gate::{Gate, Threads};
use gh_run::run;
use gh_script::parse;
use std::sync::atomic::{AtomicU64, Ordering};
use std::test::*;

/// After so many statements the processor waits until a stop is asked for, so that it does not end before the first cycle is opened.
const EARLY: u64 = 80;
/// How often the processor looks, once a stop is asked for, before it goes on. It does not let other threads run between two looks, so
/// that these take some milliseconds and no more.
const PAUSE: u32 = 2_000_000;

/// Holds the second processor between two statements, from before a stop is asked for.
#[derive(Drop)]
struct HoldAtStop {
    marks: Marks,
    /// The coordinator's marks when it has asked for this stop: 1 when it opens a cycle, and 3 when marking seems to be over.
    stop: u64,
    /// The second processor has come, with the stop yet to be asked for.
    held: AtomicU64,
    /// It is about to go on.
    let_go: AtomicU64,
    /// How often somebody passed the stop before.
    passed: AtomicU64,
}

impl HoldAtStop {
    /// The gate that holds the processor until the coordinator has stored the phase word so often.
    fn new(stop: u64) -> HoldAtStop {
        HoldAtStop {
            marks: Marks::new(),
            stop,
            held: AtomicU64::new(0),
            let_go: AtomicU64::new(0),
            passed: AtomicU64::new(0),
        }
    }

    /// The second processor has answered so many statements. The first time that the stop is the next to be asked for, it is held.
    fn second(&self, marks: u64) {
        let all = &self.marks;
        if marks == EARLY {
            all.hold(&[(&all.phases, 1)]);
        }
        if read(&all.phases).wrapping_add(1) == self.stop && read(&self.held) == 0 {
            self.held.store(1, Ordering::SeqCst);
            self.watch();
            self.let_go.store(1, Ordering::SeqCst);
        }
    }

    /// Waits until the stop is asked for, and looks for a while whether somebody passes it.
    fn watch(&self) {
        let all = &self.marks;
        all.hold(&[(&all.phases, self.stop)]);
        let (first, scans) = (read(&all.first), read(&all.scans));
        for _ in 0..PAUSE {
            if read(&all.phases) != self.stop {
                break;
            }
        }
        // what the others were at they may end: a statement, and a scan of each worker
        if read(&all.phases) != self.stop
            || read(&all.first) > first.saturating_add(1)
            || read(&all.scans) > scans.saturating_add(2)
        {
            add(&self.passed, 1);
        }
    }

    /// The coordinator has stored the phase word so often. It does not ask for the stop before the processor is held.
    fn coordinator(&self, marks: u64) {
        if marks.wrapping_add(1) == self.stop {
            self.marks.hold(&[(&self.held, 1)]);
        }
        if marks > self.stop && read(&self.let_go) == 0 {
            add(&self.passed, 1);
        }
    }
}

impl Gate for HoldAtStop {
    fn at(&self, who: u8, marks: u64) {
        let all = &self.marks;
        all.note(who, marks);
        match who {
            FIRST if marks == 1 => all.hold(&[(&all.second, 1)]),
            SECOND => self.second(marks),
            COORDINATOR => self.coordinator(marks),
            _ => {}
        }
    }
}

#[test]
fn nobody_passes_a_stop_while_a_processor_is_held(rt: HostRuntime) -> Result<(), Fail> {
    let script = parse(rt.alloc(), ROUNDS.as_bytes())?;
    for (stop, holds) in [(1, 3), (3, 4)] {
        let gate = HoldAtStop::new(stop);
        let mut threads = Threads::new();
        match run(&rt, rt.alloc(), &script, &gate, &mut threads) {
            Ok(told) => {
                let seen = (gate.marks.holds(), read(&gate.let_go), read(&gate.passed));
                assert_eq!(rt; seen, ((holds, 0), 1, 0));
                // the coordinator went on: each cycle stops the world twice or more often, and lets it go on each time
                let phases = read(&gate.marks.phases);
                let cycles = told.cycles.len() as u64;
                assert!(rt; phases >= cycles.saturating_mul(4) && phases % 2 == 0);
                assert_eq!(rt; outcome_of(&told), EXPECTED);
            }
            Err(_) => assert!(rt; false),
        }
    }
    Ok(())
}
