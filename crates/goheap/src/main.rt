//! `goheap replay` and `goheap run` read a script from standard input, run it, the one in turns and the other by threads, and
//! write the lines of its answers to standard output; `goheap gen` writes a script, and `goheap soak` runs such a one by threads.
//! `goheap verify` reads a dump of a heap, and writes whether it lists exactly what its globals reach.
//!
//! What a call says and how it ends is proved of [`gh_top::top`]. Here it gets the words of the
//! command line, standard input and standard output, a gate that holds nobody, and threads. Nothing goes to standard error.
//!
//! Standard output gathers what `top` has it take. So `top` can answer before the last part is written: `main` writes that part out before the
//! process ends, and ends with status 5 if that fails. That it does so is read here, and no contract says it.
#![tactic(auto)]

use gh_gate::{Open, Threads};
use gh_io::{Failed, Sink, Source, StdSink, StdSource};
use gh_top::{Status, top};
use std::io::ErrorKind;
use std::process::ExitCode;
use std::rt::Env;
use std::sync::Wait;
use std::{env, thread};

fn main(rt: HostRuntime) -> ExitCode {
    let mut src = StdSource::new(rt.stdin());
    let Ok(mut out) = StdSink::new(rt.alloc(), rt.stdout()) else {
        return ExitCode::from(Status::NoMemory.code());
    };
    let status = called(&rt, &mut src, &mut out);
    // The sink gathers, so the last part goes out here: where that fails, a write failed, whatever `top` answered.
    let ended = match out.flush() {
        Ok(()) => status,
        Err(Failed) => Status::WriteFault,
    };
    ExitCode::from(ended.code())
}

// The call with the words of the command line. Where they cannot be had, and not for want of memory (a
// word is not UTF-8), the command line is not taken, as one of no words is not.
fn called<R: Env + AllocGlobal + thread::Threads + Wait + Sync, S: Source, K: Sink>(
    rt: &R,
    src: &mut S,
    out: &mut K,
) -> Status {
    let alloc = rt.alloc();
    let mut threads = Threads::new();
    let args = match env::args(rt) {
        Ok(args) => args,
        Err(e) if e.kind() == ErrorKind::OutOfMemory => return Status::NoMemory,
        Err(_) => return top(rt, alloc, &[], src, out, &Open, &mut threads),
    };
    let Ok(args) = args.collect::<Vec<String>>(alloc) else {
        return Status::NoMemory;
    };
    let Ok(words) = args.iter().map(|w| w.as_str()).collect::<Vec<&str>>(alloc) else {
        return Status::NoMemory;
    };
    top(rt, alloc, &words, src, out, &Open, &mut threads)
}
