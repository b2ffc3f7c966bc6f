//! Tests of the machines: a whole run of all actors, and runs of routines alone that it does not come to. What a machine does at each step is
//! proved to be its listing. The tests compare that with steps that were worked out by hand, over words that are drawn up. At which of its steps
//! an actor does something in whole scripts stands in `runs/`.
#![tactic(auto)]

#[cfg(test)]
mod barrier;
#[cfg(test)]
mod cycle;
#[cfg(test)]
mod lines;
#[cfg(test)]
mod runs;
#[cfg(test)]
mod scan;
#[cfg(test)]
mod search;

// No crate stands on this one, so it is a program, which does nothing: what is here are its tests.
fn main(_rt: HostRuntime) {}
