//! The heap as a library: a program that opens one, runs its actors in threads, and closes it.
//!
//! docs/LIBRARY.md shows what stands between the two marks here, and `tools/check_library_example.sh` compares them.
#![tactic(auto)]

// docs/LIBRARY.md shows this, from here on.
use anyhow::Result;
use gh_base::Answer;
use gh_script::{Script, Settings, Wishes};
use gh_shared::{Handle, Heap, Play, run_all};
use std::sync::Wait;

// The actors, and the heap.
const SETTINGS: Settings = Settings {
    procs: 1,
    workers: 1,
    arena: 16,
    globals: 1,
    gogc: 100,
    minheap: 32768,
};

// What runs a processor, and what goroutine 0 has loaded there.
#[derive(Clone, Copy)]
struct Player {
    loaded: Option<Answer>,
}

impl Play for Player {
    fn play<'s, R: Wait>(&mut self, rt: &R, heap: &Heap, script: &Script, h: &mut Handle<'s>) {
        if !h.runs(0) || h.left(0) < 2 || script.shapes().count() == 0 {
            return;
        }
        heap.new_object(rt, h, 0, 0, 0); // register 0 names a new object of type 0
        heap.int(h, 0, 1, 7); // register 1 takes 7
        heap.poll(rt, h); // stops if the world is stopped; after it a store has room
        heap.store(h, 0, 0, 1, 1); // field 1 of the object in register 0 takes register 1
        self.loaded = Some(heap.load(h, 0, 2, 0, 1)); // register 2 takes that field
        heap.collect(rt, h, 0); // a cycle, which keeps the object, since register 0 names it
        heap.finish(h, 0); // the goroutine ends, and its registers with it
        if h.runs_none() {
            heap.leave(rt, h); // the processor leaves; after the last one a last cycle begins
        }
    }
}

fn main(rt: HostRuntime) -> Result<()> {
    // one type, a pointer and a number; and one goroutine, which may ask for one object and one cycle
    let goroutine = Wishes { news: 1, gcs: 1 };
    let script = Script::make(rt.alloc(), SETTINGS, &["pn"], &[goroutine])?;
    let (heap, handles) = Heap::open(rt.alloc(), &script)?;
    let player = Player { loaded: None };
    let (all, players) = run_all(&rt, rt.alloc(), &heap, &script, handles, player)?;
    let closed = heap.close(all);
    if let Some(player) = players.first() {
        println!(rt; "loaded {:?}", player.loaded)?;
    }
    for cycle in closed.cycles() {
        println!(rt;
            "cycle {} marked {} freed {}",
            cycle.k, cycle.marked, cycle.freed
        )?;
    }
    println!(rt; "live bytes {}", closed.live())?;
    Ok(())
}
// docs/LIBRARY.md shows this, up to here.
