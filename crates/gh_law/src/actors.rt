//! All actors of a heap, in one list of steps: processors, workers and the coordinator.
//!
//! A script cannot tell the heap from one that never frees. Between two cycles that is so by the rights of processors
//! (`gh_heap`), and all spans are swept. Where the coordinator begins a cycle the world is stopped, and what a script
//! reaches then are the objects of the cycle. While it is marked, processors go on: they load, store, make objects and
//! give spans back, and each of their steps is one of the heap and one of marking at once (`gh_mutator`, `beside`). So a
//! script may lose what it reached when the cycle began, and make what nobody has seen; but what it had lost by then it
//! never reaches again (`gh_cycle`, `since`). Where marking ends, all that a script reaches is marked, whoever marked and
//! stored in which order, and nothing that was lost when the cycle began is.
//!
//! Then the world runs, and the spans are swept while it does, by whoever comes first to one: a processor that searches for a
//! slot, a worker, or the coordinator. A span that is not swept is nobody's, so no object is made in it, and its bits change
//! by its sweep alone. Each object that a script reaches in it is marked: it stood where marking ended, and was reached
//! then, since what no script reached then none reaches later. So no sweep frees it. What goroutines make meanwhile lies in
//! swept spans, where no mark is needed. So which objects a sweep frees was settled where marking ended, whoever sweeps
//! when. The coordinator goes over all pages, and waits for each span that another sweeps. Behind that each head has the
//! sweep generation's number again, as between two cycles, and the counts are those of the end of marking. No cycle is
//! opened before.
//!
//! So one invariant goes through every list (`gh_holds`). The heap and its sweep are one state (`gh_state`), and what holds
//! of it holds at each stage of the coordinator: each step is a move of it that its actor may make, one of the heap by its
//! rights, or one of the sweep that it runs (`gh_marked`, `specs/Sweepers.antt`). Where a cycle is opened the state keeps
//! what the sweep had told, since the next cycle clears the counts and sets marks; where marking ends it takes the bits and
//! the count of bytes as they stand, and each span is unswept. What a processor has placed and not counted is told at every
//! moment, so what stands is counted exactly where marking ends. Marking is a state of its own beside it, as long as a cycle
//! is marked.
//!
//! The coordinator ends a cycle's marking where it has found, in a stopped world, that no buffer has an entry, that the
//! cursor is past the last global and that each stack is scanned. In a stopped world nobody else moves, so its many loads
//! tell one moment; and each actor has acknowledged the stop, with nothing in hand, before the first of them. What a buffer
//! that is held has in it would be seen by nobody: this is why each actor gives its buffer back before it acknowledges, and
//! why the coordinator looks after that. That it has looked before, while the world ran, makes the check likely to find all
//! as wanted, and is not needed for this.
//!
//! Why the write barrier is right is argued of a picture (`gh_tri`), which has eight moves and no words. While a cycle is
//! marked there is a state of marking, with the words as they stand, whose picture comes step by step, by these moves and by
//! changes of registers, of one as at a cycle's begin (`gh_marked`, `specs/Drawn.antt`). Each state on the way is one of the
//! list's heap (`gh_marked`, `specs/Tied.antt`): its objects stand with the words of their types, its registers are those of
//! the heap that never frees, as long as a goroutine goes on, its colours the mark bits; and each actor has in hand what its
//! stage says.
//!
//! Beside that every list keeps who scans a stack and how often (`specs/Scans.antt`), what the numbers of spans and the marks
//! say while no cycle is marked (`specs/SweepMarks.antt`), which spans there are and who owns how many (`gh_holds`,
//! `specs/Spans.antt`), what the heap's count of bytes is of (`gh_marked`, `specs/HeapBytes.antt`), who knows of a phase and
//! who marks (`specs/Phases.antt`), who asked for a cycle (`specs/Asked.antt`), how many there are (`gh_lists`,
//! `specs/Counts.antt`), and that a search for a slot finds no room only when there is none (`specs/Searches.antt`).

ghost use Rattle.gh_law.specs.Actors.{EveryListOfActorsStands};

use gh_holds::{every_list_holds, ties_show_what_there_is};
use gh_state::laws::slots_are_read;

/// After every legal list of steps of all actors, in every order:
///
/// * **The heap.** The words stand for the heap that never frees, and each processor was answered as that heap answers, save
///   `full`, which stands only where there was no room. Whenever a search for a slot ends without room, the first of a `new` or
///   the one after its wait, there is none in the words in which it frees the lock. Each object that stands, reached or not, has
///   one address, and no two share a word or an address. Each step that an actor may make next is on a word that there is.
/// * **Spans.** Each page is free, or one of a span for objects of one of the types. Who owns a span is a processor, and it owns no
///   two of one span class. Whatever a processor is at, also in a poll, a wait or a leave, the spans that it owns are those that
///   it has cached and not given back yet, and that of a large object which it makes; and each is swept.
/// * **The heap's count** is the bytes of the slots of all objects that stand, less those of the objects whose alloc bit a `new` has
///   set and whose bytes it has not added yet, and with those of the objects that sweeps have cleared and not taken off yet.
/// * **Cycles.** Who waits for a cycle goes on once one that began behind its first entry is swept. Each cycle was asked for
///   since the one before was opened, but the last; none is left out of the coordinator's list, as long as there is room; and
///   its numbers are how often the list stores each.
/// * **While one is marked** what was placed where it began is placed there still. There is a state of marking of this heap, in
///   which each actor has in hand what its stage says. It has each object that a script reaches, what registers name, and the
///   marks: so it is no empty one. And there is a picture of it that comes, by lists of moves of `gh_tri`'s picture
///   and of changes of registers, one for each step since, of one as at a cycle's begin; so it has the invariants, and once the
///   coordinator has checked the end of marking it is done in the picture too. A stack is scanned once in a cycle at most,
///   and the words that workers scan are at most one for each global and twice the heap's. They count each global exactly once
///   in a cycle: so does each that the cursor has passed, but for those that workers have in hand.
/// * **Where its marking ends** the cursor is past the globals, each stack's word is the cycle's or END, no buffer has an entry,
///   and no actor has anything in hand; nothing is grey, all that a script reaches is marked, and what is marked was reached
///   where the cycle began or was made since.
/// * **Once it is swept** an object that was placed where it began, and that no script reached then, is placed nowhere; the
///   numbers that the coordinator keeps for it are those of the objects placed and marked where its marking ended, and of those
///   placed and not marked. So an object that becomes unreachable is placed nowhere once the second cycle whose marking ends
///   after that is swept. While a cycle is swept goroutines run, and any actor may sweep: each span is swept, or nobody owns
///   it, and what a script reaches is marked where its span is not swept. While none is marked, marks are left only there.
/// * **Phases.** Who marks knows that a cycle is marked, and in a stopped world nobody but the coordinator moves. From the
///   acknowledgement of a stop until it has gone on a processor has cached no span, no actor holds a buffer, and a worker has
///   handed over all that it has scanned. The world is stopped only where a cycle is opened, and where it is checked that its
///   marking is over.
/// * **Once all is over** the objects that stand are those that the globals reach.
pub fn every_list_of_actors_stands()
    ensures { EveryListOfActorsStands }
{
    every_list_holds();
    ties_show_what_there_is();
    slots_are_read();
}
