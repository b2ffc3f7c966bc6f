//! A cycle over one heap: where it begins, while it is marked, and what has become of the heap since.
//!
//! Two states speak of the same words. That of `gh_heap` has the heap that never frees, and where each
//! object was placed: what a script reaches. That of `gh_marks` has colours, and which heap words are
//! objects of the cycle. Each has its own laws. Here it is said what they are to each other, so that what
//! the one proves the other may begin with.
//!
//! * **Where a cycle begins** (`opening`), what a script reaches becomes the objects of the cycle. Marking
//!   asks by a test which these are; that a script reaches an object is a path. So first there is such a
//!   test: a heap names finitely many objects, and from what globals and registers name a search follows
//!   their fields until a round finds nothing new. What a path leads to is placed and has the words of its
//!   type, so marking may rely on what page words and pointer bits say of it.
//! * **While it is marked, processors go on** (`beside`): they load and store, make objects and take and give
//!   back spans. What a script reaches is of the cycle still, and each object of the cycle that stands has the
//!   words of its type; so each step over the heap is made of moves of marking, if the processor keeps to the
//!   write barrier, marks a slot before it makes the object there, and takes into a register only what its
//!   goroutine can see. That is enough for the end: what a script reaches then is marked.
//! * **Where marking ends**, each object that a script reaches is marked, since a path of names is a path of
//!   words; and what is marked stands. A marked word is that of an object which a script reached where the cycle
//!   began, or which was made since (`since`). So what was lost by then is not marked; what a script lost later
//!   may be.
//!
//! Where the cycle ends, and the sweep of its spans, is `gh_state`'s, which has the heap and its sweep as one
//! state: it asks of marking only what holds of the mark words then.
#![tactic(auto)]

pub mod beside;
pub mod opening;
pub mod since;
