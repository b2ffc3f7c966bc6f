//! An actor of a heap whose words threads share: the machine of any actor, what a heap's table is made for, and what is counted
//! of a processor's goroutines.
#![tactic(auto)]

mod actor;
mod counts;
mod machine;
mod plan;

pub use actor::HeapActor;
pub use counts::Counts;
pub use machine::ActorMachine;
pub use plan::{AnyActor, HeapPlan};
