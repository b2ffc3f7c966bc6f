//! The call where its words ask for threads, and none can be had: nothing is written then. And what asks for no script reads none.

use gh_gate::{NoSpawn, Open};
use gh_io::{MemSink, MemSource};
use gh_top::{quiet, top};
use std::test::Fail;

const TEXT: &str = "go a\nint r1 7\nend\n";

const RUN: &[&str] = &["goheap", "run"];

const SOAK: &[&str] = &["goheap", "soak", "--seed", "7", "--size", "12"];

const GEN: &[&str] = &["goheap", "gen", "--size=12", "--seed=7"];

/// The words, the text, the reads and the writes that fail, counted from 1; the status, and what the sink has taken.
type Row = (
    &'static [&'static str],
    &'static str,
    &'static [u64],
    &'static [u64],
    u8,
    &'static str,
);

const ROWS: &[Row] = &[
    (RUN, TEXT, &[], &[1], 7, ""),
    (RUN, TEXT, &[1], &[], 4, ""),
    (RUN, "go a\nfree r0\nend\n", &[], &[], 3, "line 2: word\n"),
    (SOAK, TEXT, &[1], &[1], 7, ""),
    (GEN, TEXT, &[1], &[1], 5, ""),
];

#[test]
fn where_no_thread_is_had_nothing_is_written(rt: HostRuntime) -> Result<(), Fail> {
    for (words, text, reads, writes, code, taken) in ROWS {
        let mut src = MemSource::new(rt.alloc(), text.as_bytes(), reads)?;
        let mut out = MemSink::new(rt.alloc(), 1000, writes)?;
        let mut sp = NoSpawn::new();
        let status = top(&rt, rt.alloc(), words, &mut src, &mut out, &Open, &mut sp);
        assert_eq!(rt; status.code(), *code, "{words:?}");
        assert_eq!(rt; out.bytes(), taken.as_bytes(), "{words:?}");
    }
    // who does not wait leaves them to others
    for words in [RUN, SOAK] {
        let mut src = MemSource::new(rt.alloc(), TEXT.as_bytes(), &[1])?;
        let mut out = MemSink::new(rt.alloc(), 1000, &[1])?;
        assert!(rt; quiet(rt.alloc(), words, &mut src, &mut out).is_none());
    }
    Ok(())
}
