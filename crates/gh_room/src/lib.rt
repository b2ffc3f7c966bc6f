//! Why a search for room in a grey work buffer finds one.
//!
//! A search goes from buffer to buffer until it takes one that nobody holds and into which two entries more go
//! (`gh_wbuf`, `FindRoom`). An object is an entry of one buffer at most, so all entries together are no more than the
//! heap has words; and each seat holds one buffer at most. So of a buffer for each seat, one for each 252 words of the
//! heap, and one more, there is always one that nobody holds and that has at most 251 entries. A search that no other
//! actor's step disturbs takes one within one round. That entries and holders are so while a cycle is marked, whatever
//! the actors do, `gh_law` says (`every_list_has_room`).
//!
//! This crate has definitions and laws, and no other code. Go makes a new buffer where none is empty (`getempty`,
//! mgcwork.go), and so needs no such count.
#![tactic(auto)]

pub mod laws;
