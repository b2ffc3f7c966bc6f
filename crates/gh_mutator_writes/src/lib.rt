//! Which words a processor writes, whatever it finds.
//!
//! `gh_mutator` has the processor as a machine. Here it is gone through task by task and stage by stage, for what its steps
//! write. The row of a word decides what it takes to write it (`specs/Writing.antt`): the lock and the words of pages,
//! slots and objects any processor may write; its own acknowledgement, the words of its own stacks, the request for a
//! cycle, the counts and the bank of credit only where it is at the stage that does so. So each other word is as it was:
//! that is what the world's laws on numbers of cycles and on credit rest on.
//!
//! * A processor that knows of no marking and holds no buffer writes no word of marking, and stays so until it finds that
//!   marking is on (`specs/Calm.antt`).
//! * What it counts as spent is what it takes out of the bank (`specs/Spending.antt`).
//! * A `new` that is answered `full` has only looked for a slot and waited (`specs/Full.antt`).
//! * How many steps an operation takes that waits for nobody, and that a fault has loaded words alone, are read off by going
//!   through the statements in the same way (`proofs/Ending.antt`, `proofs/Faults.antt`).
//! * Whatever word a store overwrites, the processor goes over to the same (`specs/Blind.antt`).
#![tactic(auto)]

pub mod laws;
