//! What every crate of the heap speaks of.
//!
//! An object has two identities. To a script it is a [`Name`]: the k-th object that goroutine g
//! made, for ever. To the heap it is an address, an index into the heap's words, which is used
//! again once the object is freed. A [`Value`] is what a word of the heap holds; an [`Answer`] is
//! what a script is told, and speaks of names alone.
//!
//! All that actors share are words, and one atomic step on one word is all that an actor does at
//! a time. A word is named by its [`Cell`], a step by an [`Ask`]; a [`Layout`] numbers the words, and a
//! [`Req`] is the same step by number. Who makes steps is a [`Machine`]. The words that hold more
//! than one number are packed and read in one module. What a run is, a legal list of steps, is
//! defined in specs/Lists.antt; [`laws`] has what is proved of these definitions.
#![tactic(auto)]

mod cell;
mod held;
mod index;
pub mod laws;
mod layout;
pub mod limits;
mod machine;
mod operation;
mod pack;
mod plan;
mod routine;
mod shape;
pub mod trace;
mod value;

pub use cell::{Ask, Cell, Req};
pub use held::Held;
pub use index::modulo;
pub use layout::{Layout, LayoutFault};
pub use machine::{Entry, Machine};
pub use operation::Op;
pub use pack::{
    BufferWord, END, ENTRIES, GONE, PageWord, Phase, PhaseWord, SpanBody, SpanHead, TallyWord,
};
pub use plan::LayoutPlan;
pub use routine::Routine;
pub use shape::{Bits, Shape, Shapes};
pub use value::{Answer, Fault, Name, Value};
