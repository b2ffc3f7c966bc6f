//! `goheap_steps [--pacing] [list]` reads a script from standard input, runs it as `goheap replay --list list` does, and writes a line
//! for each turn at which something happens that an item of a list can wait for: the turn's number, the actor, how many steps
//! that actor has taken, and what happened: a statement acts, or is answered, a cycle is swept, the actor is done, or its marks rise.
//! So it does where the marking of a cycle has ended, and where a processor shades an object, which no item can wait for.
//!
//! Behind the line of a turn at which a cycle's marking has ended or the cycle is swept stands the arena, a line for each span and for
//! each run of free pages, with the turn's number in front:
//!
//! ```text
//! 552 page 0: class 1, 2-word slots, pointers: marked a.0 to a.2, unmarked a.3, free 508
//! 552 pages 1 to 5: large, 5120-word slots, no pointers: marked a.4
//! 552 pages 6 to 15: free
//! ```
//!
//! With `--pacing` it writes other lines: one for each turn behind which the heap's bytes, those of the trigger or the phase are not what they
//! were. So `runs/pacing.heap` reaches its trigger, and a cycle is opened, for which the trigger is `never`:
//!
//! ```text
//! 4516 heap 5744 trigger 5734 phase off
//! 4527 heap 5744 trigger 5734 phase stop
//! 4552 heap 5760 trigger 5734 phase stop
//! 4596 heap 5760 trigger never phase stop
//! 4611 heap 5760 trigger never phase mark
//! ```
//!
//! `goheap_steps --trace [--seed n] [--budget n] [list]` runs a script as `goheap replay` does with these, and tells all that happens, in
//! the lines that docs/TRACE.md has. With `--waits` it tells how each actor stands once the budget's turns are taken.
//!
//! It shows where the numbers of a list come from, what a cycle keeps and frees, and what paces cycles. It is a tool beside `goheap`, over public calls of
//! `gh_world`: that it stops at no fault is proved, and what it writes is tested, by its `stdin` and `stdout`.
#![tactic(auto)]

mod arena;
mod now;
mod order;
mod pacing;
mod seen;
mod shades;
mod stands;
mod stop;
mod trace;
mod turns;

use crate::pacing::tell_pacing;
use crate::stop::Stop;
use crate::trace::{tell_trace, tell_waits};
use crate::turns::{MOST_TURNS, tell_turns};
use gh_io::{Failed, Sink, Source, StdSink, StdSource, read_up_to, write_all};
use gh_lines::LineBuf;
use gh_replay::{Schedule, Turn, parse_list};
use gh_script::{MOST_BYTES, ParseError, Script, ScriptFault, parse};
use std::alloc::Global;
use std::env;
use std::process::ExitCode;
use std::rt::Env;

fn main(rt: HostRuntime) -> ExitCode {
    let mut src = StdSource::new(rt.stdin());
    let Ok(mut out) = StdSink::new(rt.alloc(), rt.stdout()) else {
        return ExitCode::from(Stop::NoMemory.code());
    };
    let told = called(&rt, &mut src, &mut out);
    // The sink gathers, so the last part goes out here, and may fail.
    match (out.flush(), told) {
        (Ok(()), Ok(())) => ExitCode::from(0),
        (Ok(()), Err(stop)) => ExitCode::from(stop.code()),
        (Err(Failed), _) => ExitCode::from(Stop::WriteFault.code()),
    }
}

// What is told of a run.
#[derive(Clone, Copy, PartialEq, Eq)]
enum Subject {
    Turns,
    Pacing,
    Trace,
    Waits,
}

// What is told of which run.
#[derive(Drop)]
struct Asked {
    subject: Subject,
    schedule: Schedule,
    budget: u64,
}

// The call with the words of the command line: the program's name, what is told, and a list or none, or the words of `replay`.
fn called<R: Env + AllocGlobal, S: Source, K: Sink>(
    rt: &R,
    src: &mut S,
    out: &mut K,
) -> Result<(), Stop> {
    let Ok(args) = env::args(rt) else {
        return Err(Stop::BadWords);
    };
    let words = args.collect::<Vec<String>>(rt.alloc())?;
    let asked = read_words(rt.alloc(), &words)?;
    run(rt.alloc(), asked, src, out)
}

// What the words ask for. The number of turns is the most that is told of without a budget.
fn read_words(alloc: Global, words: &[String]) -> Result<Asked, Stop> {
    let subject = match word_at(words, 1) {
        "--trace" => Subject::Trace,
        "--waits" => Subject::Waits,
        "--pacing" => Subject::Pacing,
        _ => Subject::Turns,
    };
    let mut at = if subject == Subject::Turns {
        1usize
    } else {
        2usize
    };
    let mut seed = None;
    let mut budget = u64::from(MOST_TURNS);
    if subject == Subject::Trace || subject == Subject::Waits {
        if word_at(words, at) == "--seed" {
            seed = Some(number(words, at + 1)?);
            at += 2;
        }
        if word_at(words, at) == "--budget" {
            budget = number(words, at + 1)?;
            at += 2;
        }
    }
    let list = listed(alloc, words, at)?;
    Ok(Asked {
        subject,
        schedule: Schedule { list, seed },
        budget,
    })
}

// The word at this place, or an empty one.
fn word_at(words: &[String], at: usize) -> &str {
    match words.get(at) {
        Some(word) => word.as_str(),
        None => "",
    }
}

// The number that the word at this place spells.
fn number(words: &[String], at: usize) -> Result<u64, Stop> {
    match word_at(words, at).parse::<u64>() {
        Ok(number) => Ok(number),
        Err(_) => Err(Stop::BadWords),
    }
}

// The list that stands after so many words, as the last one, or an empty one.
fn listed(alloc: Global, words: &[String], behind: usize) -> Result<Vec<Turn>, Stop> {
    if words.len().saturating_sub(behind) > 1 {
        return Err(Stop::BadWords);
    }
    match words.get(behind) {
        Some(word) => match parse_list(alloc, word.as_str())? {
            Some(list) => Ok(list),
            None => Err(Stop::BadWords),
        },
        None => Ok(Vec::new(alloc)),
    }
}

// Reads the script, and tells this of its run.
fn run<S: Source, K: Sink>(
    alloc: Global,
    asked: Asked,
    src: &mut S,
    out: &mut K,
) -> Result<(), Stop> {
    let Ok(text) = read_up_to(alloc, src, MOST_BYTES + 1) else {
        return Err(Stop::ReadFault);
    };
    match parse(alloc, &text) {
        Ok(script) => tell(alloc, &script, asked, out),
        Err(ParseError::Script(fault)) => refuse(fault, out),
        Err(ParseError::NoMemory) => Err(Stop::NoMemory),
    }
}

fn tell<K: Sink>(alloc: Global, script: &Script, asked: Asked, out: &mut K) -> Result<(), Stop> {
    let Asked {
        subject,
        schedule,
        budget,
    } = asked;
    match subject {
        Subject::Turns => tell_turns(alloc, script, schedule, out),
        Subject::Pacing => tell_pacing(alloc, script, schedule, out),
        Subject::Trace => tell_trace(alloc, script, schedule, budget, out),
        Subject::Waits => tell_waits(alloc, script, schedule, budget, out),
    }
}

// Writes why the text is no script.
fn refuse<K: Sink>(fault: ScriptFault, out: &mut K) -> Result<(), Stop> {
    let mut line = LineBuf::new();
    line.bad_script(fault.line, fault.why);
    match write_all(out, line.bytes()) {
        Ok(()) => Err(Stop::BadScript),
        Err(_) => Err(Stop::WriteFault),
    }
}
