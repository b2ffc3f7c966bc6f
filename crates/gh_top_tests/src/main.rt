//! Tests of `gh_top` by its public calls: streams that fail in mid-read and in mid-write, streams in short pieces, sinks with little
//! room, and a spawner that starts no thread. What whole scripts write, and what is refused, stands in `runs/`.
#![tactic(auto)]

#[cfg(test)]
mod streams;
#[cfg(test)]
mod threads;

// No crate stands on this one, so it is a program, which does nothing: what is here are its tests.
fn main(_rt: HostRuntime) {}
