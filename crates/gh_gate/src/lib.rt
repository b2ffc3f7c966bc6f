//! Jobs that run beside each other, each in a thread of its own, and the gate at which an actor is held between two steps.
//!
//! The actors of a heap wait for each other: the coordinator waits until each has acknowledged a stop, and they wait until
//! it lets them go on. Run one after the other, the first would wait for ever. So jobs are run all together or not at all
//! ([`Spawner::all`]). Each thread first waits for a start flag, which says whether to run. It is set once: to yes where every
//! thread is made, and to no where one could not be made; each job then comes back as it was.
//!
//! What a thread was told it hands back with its job, as a token that names the flag. Tokens of one flag agree, so all
//! threads were told the same, and no case is left in which only some ran.
//!
//! Where a job may begin, what its end is and which job it is, [`Job`] leaves to the one who brings it. It comes back at its
//! old place, at its end, and as the job that it was.
//!
//! Nothing is promised of time: not that two jobs run at the same moment, nor that `all` returns where a job waits for ever.
//! [`Threads`] is an edge to the outside: it makes one thread for each job by the kit's threads, and what these do is
//! trusted. [`NoSpawn`] is for trying what happens where no thread can be had.
//!
//! A [`Gate`] says nothing and changes nothing that an actor knows. So what is proved of actors holds whatever gate they
//! run by.
#![tactic(auto)]

mod gate;
mod job;
mod refusing;
mod start;
mod threads;

pub use gate::{Gate, Open};
pub use job::{CountToken, Job, Refused, Spawner};
pub use refusing::NoSpawn;
pub use threads::Threads;
