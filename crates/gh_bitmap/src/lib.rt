//! Which words of an object are pointer fields: the heap's bitmap.
//!
//! The bitmap has a bit for each heap word, 64 heap words to a word, set where that word is a pointer
//! field of an object. Who loads a field reads its bit first, to know whether what it holds is a
//! reference or a number; so does whoever scans the object. [`SetPointers`] writes the bits of a new
//! object's slot, by the shape of its type, and [`ReadPointer`] reads the bit of one word. What they
//! ask for and where they go is their listing, in specs/SetPointers.antt and specs/ReadPointer.antt; above
//! that stand the laws of [`laws`]: the bits of the slot become those of the type, every other bit
//! stays, and what is read is the word's bit.
//!
//! This is Go's heap bitmap (`heapBitsSetType`, and `heapBitsForAddr` with `heapBits.isPointer`, in
//! mbitmap.go). Go keeps two bits for each word, in a bitmap for each arena; here the bits are a row of
//! words of their own, one for each heap word.
#![tactic(auto)]

mod bits;
pub mod laws;
mod read_pointer;
mod set_pointers;

pub use read_pointer::{ReadPointer, ReadStage};
pub use set_pointers::{SetPointers, SetStage};
