//! That the jobs of a run run beside each other: two processors in threads of their own, and both of them while a cycle marks.
//!
//! Their gate holds an actor at some of its marks until another has come to one of its own. So a run ends without a hold that has missed
//! only if its actors are run beside each other: on one thread, in whatever order, an actor that is held is waited for in vain, since
//! nobody else is run meanwhile.

use crate::marks::{COORDINATOR, FIRST, Marks, SECOND, read};
use crate::rounds::{EXPECTED, ROUNDS, outcome_of};
use gh_gate::{Gate, Threads};
use gh_run::run;
use gh_script::parse;
use std::test::*;

/// After so many statements both processors wait until a stop is asked for. Each has made ten objects by then, more than a cycle needs to
/// be asked for; so neither ends before the first cycle is opened.
const EARLY: u64 = 80;
/// So many statements each has to answer before the first cycle's marking may end: two rounds after the stop that opens it.
const LATE: u64 = 96;

/// Holds each processor at its first statement until the other has answered one, and the coordinator where marking is on until a worker has
/// scanned something and both processors have gone on.
#[derive(Drop)]
struct Meet {
    marks: Marks,
}

impl Gate for Meet {
    fn at(&self, who: u8, marks: u64) {
        let all = &self.marks;
        all.note(who, marks);
        match (who, marks) {
            (FIRST, 1) => all.hold(&[(&all.second, 1)]),
            (SECOND, 1) => all.hold(&[(&all.first, 1)]),
            (FIRST | SECOND, EARLY) => all.hold(&[(&all.phases, 1)]),
            // it has stored the phase word twice: the world was stopped, and marking is on
            (COORDINATOR, 2) => {
                all.hold(&[(&all.scans, 1), (&all.first, LATE), (&all.second, LATE)])
            }
            _ => {}
        }
    }
}

#[test]
fn two_processors_and_a_cycle_that_marks_run_beside_each_other(
    rt: HostRuntime,
) -> Result<(), Fail> {
    let script = parse(rt.alloc(), ROUNDS.as_bytes())?;
    let gate = Meet {
        marks: Marks::new(),
    };
    let mut threads = Threads::new();
    match run(&rt, rt.alloc(), &script, &gate, &mut threads) {
        Ok(told) => {
            // each actor that was held went on since the others had come
            assert_eq!(rt; gate.marks.holds(), (5, 0));
            // each processor's last marks are all its statements
            let last = (read(&gate.marks.first), read(&gate.marks.second));
            assert_eq!(rt; last, (8_000, 8_000));
            assert_eq!(rt; outcome_of(&told), EXPECTED);
        }
        Err(_) => assert!(rt; false),
    }
    Ok(())
}
