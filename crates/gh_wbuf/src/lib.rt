//! Grey work buffers: what a marking actor still has to scan.
//!
//! A grey object is one that is marked and not scanned yet. Actors pass grey objects to each other in
//! work buffers of 253 entries: each actor that marks holds at most one buffer, puts the objects that
//! it shades into that one, and takes the objects that it scans from it. A buffer's word says who
//! holds it and how many entries it had when it was taken. While it is held its count is the holder's
//! own affair, so that an entry goes in or out by one step on the entry, and no other actor sees it.
//! Whoever takes a buffer does so by a swap of its word, so that of two actors that saw it free one
//! alone has it.
//!
//! The end of marking is found by a look at the words of the buffers: an object is in one of them
//! below its count, or in the hands of an actor. So nothing may be lost here. An actor takes a fresh
//! buffer only after it has given its own back with the count that it has ([`GiveBuffer`],
//! [`FindRoom`]), and one that looks for an entry gives its own back only where that has none
//! ([`TakeEntry`]). A single try is [`TryBuffer`].
//!
//! This is Go's `gcWork` (mgcwork.go): `getempty`, `trygetfull`, `putfull`. Go keeps its buffers in
//! two lock-free lists, of full ones and of empty ones, and an actor holds two of them; here they are
//! a row, tried from the first on, and an actor holds one.
#![tactic(auto)]

mod find_room;
mod give_buffer;
pub mod laws;
mod take_entry;
mod try_buffer;

pub use find_room::{FindRoom, RoomStage};
pub use give_buffer::{GiveBuffer, GiveStage};
pub use take_entry::{TakeEntry, TakeStage};
pub use try_buffer::{MOST_WITH_ROOM, TryBuffer, TryStage, Wish};
