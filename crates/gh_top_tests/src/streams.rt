//! The call over streams in memory, some of which fail: how it ends, and what the sink has taken then.

use gh_io::{MemSink, MemSource};
use gh_top::{Status, quiet};
use std::alloc::Global;
use std::test::Fail;

const TEXT: &str =
    "procs 1\nworkers 1\narena 16\nglobals 1\ngogc 0\ntype node pn\ngo a\nnew r0 node\nint r1 7\nstore r0 1 r1\nload r2 r0 1\nend\n";

/// The lines of the script.
const LINES: &str =
    "a 1 ref a.0\na 4 int 7\ncycle 1 marked 0 freed 1\ncredit earned 1 spent 0 lapsed 1\nlive 0 bytes 0\n";

const PLAIN: &[&str] = &["goheap", "replay"];

const SHORT: &[&str] = &["goheap", "replay", "--budget", "1"];

const VERIFY: &[&str] = &["goheap", "verify"];

/// A dump of two objects that hold each other.
const DUMP: &str =
    "global 0 ref a.0\nobject a.0 bytes 16 rank 0 global 0\nfield 1 ref a.1\nobject a.1 bytes 16 rank 1 parent a.0 field 1\nfield 0 ref a.0\ntotal 2 bytes 32\n";

/// The same two objects, which no global holds: each is the other's parent.
const CIRCLE: &str =
    "object a.0 bytes 16 rank 1 parent a.1 field 0\nfield 1 ref a.1\nobject a.1 bytes 16 rank 2 parent a.0 field 1\nfield 0 ref a.0\ntotal 2 bytes 32\n";

/// The words, the reads and the writes that fail, counted from 1, and the room of the sink; the status, and what the sink has taken.
type Row = (
    &'static [&'static str],
    &'static [u64],
    &'static [u64],
    usize,
    u8,
    &'static str,
);

const ROWS: &[Row] = &[
    (PLAIN, &[], &[], 1000, 0, LINES),
    (PLAIN, &[], &[1], 1000, 5, ""),
    (PLAIN, &[], &[2], 1000, 5, "a 1 ref a.0\n"),
    (PLAIN, &[], &[3], 1000, 5, "a 1 ref a.0\na 4 int 7\n"),
    (PLAIN, &[], &[], 5, 5, "a 1 r"),
    (PLAIN, &[1], &[], 1000, 4, ""),
    (PLAIN, &[2], &[], 1000, 4, ""),
    // there are two reads and five writes
    (PLAIN, &[3], &[6], 1000, 0, LINES),
    (SHORT, &[], &[], 1000, 8, "turns 1\n"),
    (SHORT, &[], &[1], 1000, 5, ""),
    // where the words are refused, nothing is read
    (&["goheap"], &[1], &[], 1000, 2, "words refused\n"),
    (&[], &[1], &[], 5, 5, "words"),
];

/// The text, the reads and the writes that fail and the room of the sink, where the words ask for `verify`; the status, and what the
/// sink has taken.
type DumpRow = (
    &'static str,
    &'static [u64],
    &'static [u64],
    usize,
    u8,
    &'static str,
);

const DUMP_ROWS: &[DumpRow] = &[
    (DUMP, &[], &[], 1000, 0, "reachable 2\n"),
    (DUMP, &[1], &[], 1000, 4, ""),
    (DUMP, &[2], &[], 1000, 4, ""),
    (DUMP, &[], &[1], 1000, 5, ""),
    (DUMP, &[], &[], 5, 5, "reach"),
    (CIRCLE, &[], &[], 1000, 9, "line 1: parent\n"),
    (CIRCLE, &[], &[1], 1000, 5, ""),
    (CIRCLE, &[1], &[], 1000, 4, ""),
    ("total 0 bytes 0\n", &[], &[], 1000, 0, "reachable 0\n"),
    ("", &[], &[], 1000, 9, "line 0: total\n"),
    ("\n", &[], &[], 1000, 9, "line 1: word\n"),
    (
        "global 0 ref a.0\ntotal 0 bytes 0\n",
        &[],
        &[],
        1000,
        9,
        "line 1: unknown\n",
    ),
    ("total 1 bytes 0\n", &[], &[], 1000, 9, "line 1: total\n"),
    (TEXT, &[], &[], 1000, 9, "line 1: word\n"),
];

#[test]
fn each_dump_is_told(rt: HostRuntime) -> Result<(), Fail> {
    for (text, reads, writes, room, code, taken) in DUMP_ROWS {
        let mut src = MemSource::new(rt.alloc(), text.as_bytes(), reads)?;
        let mut out = MemSink::new(rt.alloc(), *room, writes)?;
        let status = quiet(rt.alloc(), VERIFY, &mut src, &mut out);
        assert_eq!(rt; status.map(code_of), Some(*code), "{text}");
        assert_eq!(rt; out.bytes(), taken.as_bytes(), "{text}");
    }
    Ok(())
}

fn code_of(status: Status) -> u8 {
    status.code()
}

#[test]
fn each_fault_of_the_outside_has_its_status(rt: HostRuntime) -> Result<(), Fail> {
    for (words, reads, writes, room, code, taken) in ROWS {
        let mut src = MemSource::new(rt.alloc(), TEXT.as_bytes(), reads)?;
        let mut out = MemSink::new(rt.alloc(), *room, writes)?;
        let status = quiet(rt.alloc(), words, &mut src, &mut out);
        assert_eq!(rt; status.map(code_of), Some(*code), "{words:?}");
        assert_eq!(rt; out.bytes(), taken.as_bytes(), "{words:?}");
    }
    Ok(())
}

/// Of a source in pieces of 16 bytes: the read that fails; the status, and how many bytes the sink has taken. Nine reads read the script.
const BY_READ: &[(u64, u8, usize)] = &[
    (1, 4, 0),
    (2, 4, 0),
    (3, 4, 0),
    (4, 4, 0),
    (5, 4, 0),
    (6, 4, 0),
    (7, 4, 0),
    (8, 4, 0),
    (9, 4, 0),
    (10, 0, 95),
];

/// Of a sink in pieces of 7 bytes: the write that fails; the status, and how many bytes the sink has taken. Sixteen writes write the
/// lines, of 12, 10, 25, 33 and 15 bytes, and each line begins a piece.
const BY_WRITE: &[(u64, u8, usize)] = &[
    (1, 5, 0),
    (2, 5, 7),
    (3, 5, 12),
    (4, 5, 19),
    (5, 5, 22),
    (6, 5, 29),
    (7, 5, 36),
    (8, 5, 43),
    (9, 5, 47),
    (10, 5, 54),
    (11, 5, 61),
    (12, 5, 68),
    (13, 5, 75),
    (14, 5, 80),
    (15, 5, 87),
    (16, 5, 94),
    (17, 0, 95),
];

/// The status of a call over these streams, and how many bytes the sink has taken, if they are the first of the lines.
fn ended(alloc: Global, mut src: MemSource, mut out: MemSink) -> (Option<u8>, Option<usize>) {
    let status = quiet(alloc, PLAIN, &mut src, &mut out);
    let taken = out.bytes();
    let count = LINES.as_bytes().starts_with(taken).then_some(taken.len());
    (status.map(code_of), count)
}

#[test]
fn streams_in_pieces_fail_at_each_call(rt: HostRuntime) -> Result<(), Fail> {
    let alloc = rt.alloc();
    for (read, code, taken) in BY_READ {
        let src = MemSource::new(alloc, TEXT.as_bytes(), &[*read])?.pieces(16);
        let out = MemSink::new(alloc, 1000, &[])?;
        assert_eq!(rt;
            ended(alloc, src, out),
            (Some(*code), Some(*taken)),
            "read {read}"
        );
    }
    for (write, code, taken) in BY_WRITE {
        let src = MemSource::new(alloc, TEXT.as_bytes(), &[])?;
        let out = MemSink::new(alloc, 1000, &[*write])?.pieces(7);
        assert_eq!(rt;
            ended(alloc, src, out),
            (Some(*code), Some(*taken)),
            "write {write}"
        );
    }
    let src = MemSource::new(alloc, TEXT.as_bytes(), &[])?;
    let out = MemSink::new(alloc, 30, &[])?.pieces(1);
    assert_eq!(rt; ended(alloc, src, out), (Some(5), Some(30)));
    Ok(())
}
