//! Tests of the libraries that speak of words: the table of size classes, the words of the heap, the numbers that pace
//! cycles, the picture, the streams and dumps. The crate has nothing else.
#![tactic(auto)]

#[cfg(test)]
mod class_table;
#[cfg(test)]
mod dumps;
#[cfg(test)]
mod heap_words;
#[cfg(test)]
mod pacing;
#[cfg(test)]
mod pictures;
#[cfg(test)]
mod streams;
