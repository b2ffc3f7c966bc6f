//! Tests of a script's run by threads.
#![tactic(auto)]

#[cfg(test)]
mod beside_each_other;
#[cfg(test)]
mod handles;
#[cfg(test)]
mod marks;
#[cfg(test)]
mod rounds;
#[cfg(test)]
mod stops_wait;
#[cfg(test)]
mod threads;
