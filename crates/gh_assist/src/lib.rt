//! A mutator assist: who allocates while marking is on marks for it.
//!
//! That a cycle ends before the heap reaches its goal is left to nobody's speed. A goroutine that has made an object owes
//! words of marking, the share of the cycle's work that its bytes are of what may still be allocated (`gh_pacer`). It pays
//! before its `new` is answered: first from the bank, into which workers put what they have scanned (`gh_credit`), and what
//! the bank does not pay it scans itself. So a goroutine that allocates much is held back as much as the cycle needs, and
//! one that allocates little hardly at all.
//!
//! It waits for nobody. The bank is tried once; and where no buffer has a grey object, what it owes stays owed, until its
//! next object or until marking is off. A wait there could last for ever: the grey objects may all be in the buffers of
//! others, who may be stopped.
//!
//! To the rest of marking an assist is a worker: it takes an object out of a buffer and scans it by the same machines
//! (`gh_wbuf`, `gh_scan`), under the same conditions. The object that it was begun for is made already, and its register
//! names it, so the goroutine's stack may be scanned, or not; neither matters to it.
//!
//! This is Go's `gcAssistAlloc` (mgcmark.go), which parks what it cannot pay on a queue; here it goes on.
#![tactic(auto)]

mod assist;
pub mod laws;

pub use assist::{Assist, AssistStage, MOST_ASSIST_BYTES};
