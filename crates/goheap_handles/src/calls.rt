//! Calls on the handle of a processor, one kind again and again.

ghost use Rattle.std.specs.Prelude.{◌≡◌, ◌≤◌, All, IfSome, true};
ghost use Rattle.gh_shared.specs.Calls.{IsGoing};
ghost use Rattle.gh_shared.specs.Handles.{AreFresh, IsHandleOf, IsHeapOf, room_of, runs_in};

use crate::Work;
use gh_base::Answer;
use gh_script::Script;
use gh_shared::{Handle, Heap};
use std::sync::Wait;

/// What stands in a number field, in an answer.
fn number_of(answer: Answer) -> u64 {
    match answer {
        Answer::Int(number) => number,
        _ => 0,
    }
}

/// Loads field 1 of the object in register 0 so often.
fn loads<'s>(heap: &Heap, h: &mut Handle<'s>, times: u32) -> u64
    requires going { IsGoing heap.now h.old }
    requires runs { runs_in h.old 0 ≡ true }
{
    let mut last = Answer::Done;
    for _ in 0..times {
        last = heap.load(h, 0, 2, 0, 1);
    }
    number_of(last)
}

/// Afterwards a store has room.
fn makes_room<'s, R: Wait>(rt: &R, heap: &Heap, h: &mut Handle<'s>)
    requires going { IsGoing heap.now h.old }
    requires runs { runs_in h.old 0 ≡ true }
    ensures going { IsGoing heap.now h.new }
    ensures runs { runs_in h.new 0 ≡ true }
    ensures room { 2 ≤ room_of h.new }
{
    if h.room() < 2 {
        heap.poll(rt, h);
    }
}

/// Stores register 1 into it so often, and loads it.
fn stores<'s, R: Wait>(rt: &R, heap: &Heap, h: &mut Handle<'s>, times: u32) -> u64
    requires going { IsGoing heap.now h.old }
    requires runs { runs_in h.old 0 ≡ true }
{
    for _ in 0..times {
        makes_room(rt, heap, h);
        heap.store(h, 0, 0, 1, 1);
    }
    number_of(heap.load(h, 0, 2, 0, 1))
}

/// Makes an object, where there is one to ask for and room for it. It answers whether it did.
fn makes<'s, R: Wait>(rt: &R, heap: &Heap, script: &Script, h: &mut Handle<'s>) -> bool
    requires script { IsHeapOf script.now heap.now }
    requires going { IsGoing heap.now h.old }
    requires runs { runs_in h.old 0 ≡ true }
    ensures going { IsGoing heap.now h.new }
    ensures runs { runs_in h.new 0 ≡ true }
{
    if h.left(0) < 1 {
        return false;
    }
    if script.shapes().count() == 0 {
        return false;
    }
    let answer = heap.new_object(rt, h, 0, 0, 0);
    matches!(answer, Answer::Ref(_))
}

/// Makes as many objects, or as many as there are still to ask for. It answers how many.
fn news<'s, R: Wait>(rt: &R, heap: &Heap, script: &Script, h: &mut Handle<'s>, times: u32) -> u64
    requires script { IsHeapOf script.now heap.now }
    requires going { IsGoing heap.now h.old }
    requires runs { runs_in h.old 0 ≡ true }
{
    let mut made = 0u64;
    for _ in 0..times {
        if !makes(rt, heap, script, h) {
            break;
        }
        made = made.saturating_add(1);
    }
    made
}

/// Makes an object with the number 7 in its field 1, does the work so often, and answers what came of it.
fn worked<'s, R: Wait>(
    rt: &R,
    heap: &Heap,
    script: &Script,
    h: &mut Handle<'s>,
    work: Work,
    times: u32,
) -> u64
    requires script { IsHeapOf script.now heap.now }
    requires of { IsHandleOf heap.now h.old }
{
    if !h.is_processor() || h.ended() || !h.runs(0) || h.left(0) < 1 {
        return 0;
    }
    if script.shapes().count() == 0 {
        return 0;
    }
    heap.new_object(rt, h, 0, 0, 0);
    heap.int(h, 0, 1, 7);
    heap.poll(rt, h);
    heap.store(h, 0, 0, 1, 1);
    match work {
        Work::Load => loads(heap, h, times),
        Work::Store => stores(rt, heap, h, times),
        _ => news(rt, heap, script, h, times),
    }
}

/// The last of the handles.
fn last_of<'s>(heap: &Heap, handles: &mut Vec<Handle<'s>>) -> Option<Handle<'s>>
    requires { All (IsHandleOf heap.now) handles.old.items }
    ensures rest { All (IsHandleOf heap.now) handles.new.items }
    ensures last { IfSome result (IsHandleOf heap.now) }
{
    handles.pop()
}

/// The same on the first of the three handles of a heap.
pub fn called<'s, R: Wait>(
    rt: &R,
    heap: &Heap,
    script: &Script,
    handles: &mut Vec<Handle<'s>>,
    work: Work,
    times: u32,
) -> u64
    requires handles { AreFresh heap.now handles.old.items }
    requires script { IsHeapOf script.now heap.now }
{
    let _coordinator = last_of(heap, handles);
    let _worker = last_of(heap, handles);
    match last_of(heap, handles) {
        Some(mut h) => worked(rt, heap, script, &mut h, work, times),
        None => 0,
    }
}
