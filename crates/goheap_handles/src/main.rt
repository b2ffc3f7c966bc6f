//! `goheap_handles WORK N` does one work N times, and writes what came of it. It has no clock: `bench/handles.sh` times whole runs of it.
//!
//! The works `load`, `store` and `new` are calls on the handle of a heap's processor. No other actor runs beside it, so none of
//! them waits. `loads` and `stores` are plain loops, whose round makes as many atomic operations as a call of `load` or `store` has
//! steps. All works open the same heap, so that the difference between two runs of one work is that of its rounds.
#![tactic(auto)]

mod calls;
mod plain;

use crate::calls::called;
use crate::plain::Words;
use anyhow::{Result, bail};
use gh_script::parse;
use gh_shared::Heap;
use std::env;
use std::rt::Env;

/// A heap of 8 MiB, in which a goroutine has 199,000 `new` to ask for. They take less than half of it.
const SCRIPT: &str =
    "procs 1\nworkers 1\narena 1024\nglobals 1\ngogc 0\nminheap 0\ntype node pn\ngo a\nrepeat 199000\nnew r0 node\nend\nend\n";

/// What is done in each round.
#[derive(Clone, Copy, Debug, PartialEq, Eq)]
pub enum Work {
    /// A number field is loaded: three steps, all loads.
    Load,
    /// A number field is stored: three steps, two loads and a store.
    Store,
    /// An object of two words is made.
    New,
    /// Three atomic loads.
    Loads,
    /// Two atomic loads and an atomic store.
    Stores,
}

impl Work {
    /// The work of this name.
    fn of(name: &str) -> Option<Work> {
        match name {
            "load" => Some(Work::Load),
            "store" => Some(Work::Store),
            "new" => Some(Work::New),
            "loads" => Some(Work::Loads),
            "stores" => Some(Work::Stores),
            _ => None,
        }
    }
}

/// The work, and how often it is done, by the words of the command line behind the program's name.
fn asked<R: Env + AllocGlobal>(rt: &R) -> Result<(Work, u32)> {
    let words = env::args(rt)?.collect::<Vec<String>>(rt.alloc())?;
    let (Some(name), Some(times)) = (words.get(1), words.get(2)) else {
        bail!("two words are wanted: a work, and how often");
    };
    let Some(work) = Work::of(name.as_str()) else {
        bail!("a work is load, store, new, loads or stores");
    };
    let times = times.parse::<u32>()?;
    Ok((work, times))
}

fn main(rt: HostRuntime) -> Result<()> {
    let (work, times) = asked(&rt)?;
    let script = parse(rt.alloc(), SCRIPT.as_bytes())?;
    let (heap, mut handles) = Heap::open(rt.alloc(), &script)?;
    let words = Words::new(rt.alloc())?;
    let done = match work {
        Work::Loads => words.loads(times),
        Work::Stores => words.stores(times),
        _ => called(&rt, &heap, &script, &mut handles, work, times),
    };
    println!(rt; "{work:?} {done}")?;
    Ok(())
}
