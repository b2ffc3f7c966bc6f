//! How cycles are paced, in whole numbers of bytes and words: when one begins, and how much who allocates has to mark.
//!
//! # The goal
//!
//! A cycle costs what is live: each live object and each root is scanned once. So the heap may grow by a share of that
//! before the next, `gogc` percent: with 100 as much is allocated between two cycles as the cycle has to scan, whatever
//! the heap's size, and twice the share makes cycles half as frequent. The [`goal`] is the most bytes that the heap is to
//! have when the next cycle ends. A heap of few live bytes would be collected again and again for little, so the
//! goal is never below `minheap`. The roots count for the share though not for the heap: they are scanned too, and without
//! them a program of many goroutines and few objects would scan more than it allocates.
//!
//! # The trigger
//!
//! Goroutines allocate while a cycle is marked, so one that began at the goal would end beyond it. It begins at the
//! [`trigger`], seven tenths of the way from what was live to the goal, and three tenths are left for what is allocated
//! meanwhile. Begun earlier, cycles would follow one another without need, and the write barrier would be on for longer.
//! Begun later, those who allocate would have to mark all the more. Go takes a point between seven tenths and nineteen
//! twentieths by how much the last cycles had to do; here it is the first of these, so that a trigger is a number of the
//! live bytes alone, which any reader of a run can compute.
//!
//! # The debt
//!
//! That the cycle ends before the goal is reached is left to nobody's speed: who allocates marks for it. Of the
//! [`work`] of the cycle it owes the share that its bytes are of the [`slack`], which is what may still be allocated. Where
//! all the slack is allocated, all the work is paid. For this a [`debt`] is rounded up: rounded down, small objects would owe
//! nothing, and a program of them alone would reach the goal with nothing marked.
//!
//! In Go this is `gcControllerState`, in mgcpacer.go, which adapts to the run, by floating-point numbers; here each number
//! is a whole one and a function of few others.
#![tactic(auto)]

mod pacing;

pub use pacing::{
    MOST_BYTES, MOST_GOAL, MOST_GOGC, MOST_ROOTS, NEVER, debt, goal, roots, slack, trigger, work,
};
