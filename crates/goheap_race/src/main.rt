//! Two goroutines in threads of their own race on one global of a heap.
//!
//! docs/LIBRARY.md shows what stands between the two marks here, and `tools/check_library_example.sh` compares them.
#![tactic(auto)]

// docs/LIBRARY.md shows this, from here on.
ghost use Rattle.std.specs.Prelude.{◌≡◌, ◌<◌, true};
ghost use Rattle.gh_shared.specs.Calls.{IsGoing};
ghost use Rattle.gh_shared.specs.Handles.{plan_of, runs_in};

use anyhow::Result;
use gh_base::Answer;
use gh_script::{Script, Settings, Wishes};
use gh_shared::{Handle, Heap, Play, run_all};
use std::sync::Wait;

const SETTINGS: Settings = Settings {
    procs: 2,
    workers: 1,
    arena: 16,
    globals: 1,
    gogc: 0,
    minheap: 0,
};

// How many loads of the global have found an object.
#[derive(Clone, Copy)]
struct Racer {
    found: u32,
}

// Stores register 0 into the global and loads it, so often.
fn race<'s, R: Wait>(rt: &R, heap: &Heap, h: &mut Handle<'s>, g: u32, times: u32) -> u32
    requires going { IsGoing heap.now h.old }
    requires runs { runs_in h.old g ≡ true }
    requires global { 0 < (plan_of heap.now).layout.globals }
    ensures going { IsGoing heap.now h.new }
    ensures runs { runs_in h.new g ≡ true }
{
    let mut found = 0u32;
    for _ in 0..times {
        heap.poll(rt, h);
        heap.set_global(h, g, 0, 0);
        if let Answer::Ref(_) = heap.get_global(h, g, 1, 0) {
            found = found.saturating_add(1);
        }
    }
    found
}

impl Play for Racer {
    fn play<'s, R: Wait>(&mut self, rt: &R, heap: &Heap, script: &Script, h: &mut Handle<'s>) {
        let g = h.actor(); // goroutine 0 is processor 0's, and goroutine 1 is processor 1's
        if !h.runs(g) || h.left(g) < 1 || script.shapes().count() == 0 {
            return;
        }
        if script.settings().globals == 0 {
            return;
        }
        heap.new_object(rt, h, g, 0, 0);
        self.found = race(rt, heap, h, g, 1000);
        heap.finish(h, g);
        if h.runs_none() {
            heap.leave(rt, h);
        }
    }
}

fn main(rt: HostRuntime) -> Result<()> {
    let goroutine = Wishes { news: 1, gcs: 0 };
    let script = Script::make(rt.alloc(), SETTINGS, &["pn"], &[goroutine, goroutine])?;
    let (heap, handles) = Heap::open(rt.alloc(), &script)?;
    let racer = Racer { found: 0 };
    let (all, racers) = run_all(&rt, rt.alloc(), &heap, &script, handles, racer)?;
    heap.close(all);
    for racer in racers.iter().take(2) {
        println!(rt; "found an object {} times", racer.found)?;
    }
    Ok(())
}
// docs/LIBRARY.md shows this, up to here.
