//! A store of a pointer while marking is on, behind its write barrier.
//!
//! Goroutines go on while others mark, and change the paths along which marking goes. Still each object that a
//! goroutine can reach when marking ends is to be marked by then. What is scanned is not looked at again, be it an
//! object, a global or a stack. So without a barrier marking could miss a white object in two ways. A goroutine puts
//! the object's only pointer into a field that was scanned, and drops it where it was still to be found. Or it loads
//! the object into a stack that was scanned, and overwrites the field from which marking would have found it. The
//! barrier is two shades and then the store, and each shade is against one of these:
//!
//! ```text
//! writePointer(slot, ptr):
//!     shade(*slot)
//!     shade(ptr)
//!     *slot = ptr
//! ```
//!
//! **The first shade is the deletion half** (after Yuasa). A stack is scanned once and no more: later a load may
//! bring it a white object. That is safe as long as the object is protected, which is to say that a path of white
//! objects leads to it from a grey object or from a global that is still to be scanned. A store cuts paths at one
//! place, at the pointer that it overwrites. So that one is shaded first, and no path through white objects goes
//! there any more.
//!
//! **The second shade is the insertion half** (after Dijkstra). Until a stack is scanned its registers may hold
//! the only pointer to a white object. Where that goes into a slot that is scanned already nobody would find it.
//! So it is shaded first, and a scanned slot never names a white object.
//!
//! **It is made whatever the colour of the stack.** A scanned stack may hold a white object that is protected, and
//! one could think that it needs no shade then, since what protects it is still there. But two goroutines may store
//! to one slot at a time. Between a store's load of the old value and the store itself another's store may come, so
//! that the value which is overwritten is not the one that was shaded. It is marked nevertheless, just because the
//! other's barrier shaded it before it was put there. So what is known of the slot behind the load is that it holds
//! what was loaded, or a value that is marked; and after the first shade that it holds a marked value, or nil. That
//! lasts whatever others store.
//!
//! **Both come before the store.** At each moment what is scanned names what is marked, and a scanned stack what is
//! marked or protected. With the store first there would be moments at which this is false, and the object would
//! depend on steps that one processor is still to make, of which the shared words say nothing.
//!
//! **What is shaded is grey, not black.** Its mark bit keeps it from the sweep, but what its own fields name is
//! found only where somebody scans them. So it becomes an entry of the work buffer that the processor holds, unless
//! it has no pointer fields, or somebody has marked it before and had it in hand.
//!
//! There is no safe point within a store, and it waits for nobody. So it is begun with two free entries in the
//! buffer that is held, one for each shade; the poll before the statement sees to that. It makes eight steps at the
//! most.
//!
//! That the two shades are enough is proved in `gh_tri`, of a picture of a heap; `gh_marks` shows that each state of
//! marking has such a picture.
//!
//! This is the hybrid write barrier of proposal 17503 and of Go's `mbarrier.go`. Go keeps the two pointers in a
//! buffer (`mwbbuf.go`) and shades them later, before the next safe point; here each is shaded at once.
#![tactic(auto)]

pub mod laws;
mod pointer_cell;
mod write_pointer;

pub use pointer_cell::PointerCell;
pub use write_pointer::{WritePointer, WriteStage, has_two};
