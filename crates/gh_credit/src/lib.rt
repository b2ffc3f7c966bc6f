//! The credit of marking: what background workers have scanned, and assists may draw on.
//!
//! While marking is on, a goroutine that allocates owes scan work in proportion, and pays by scanning before it
//! goes on. What the workers have scanned beside it counts too: they hand the words over to a bank, a single word
//! that all actors share, and whoever owes work may take from it instead of scanning. So no word that is scanned
//! may be handed over twice, nor one that is not: goroutines would be let off work that nobody has done, and the
//! heap would outgrow what marking keeps up with.
//!
//! A worker does not hand over each word by itself, since all workers write the one word of the bank: it counts
//! what it scans, and adds [`CREDIT_SLACK`] words or more by one atomic step ([`Earn`]). Who owes words takes them by one
//! atomic step too ([`Draw`]), which leaves the bank as it is where another has changed it: each word that was earned is
//! spent once at the most.
//!
//! This is Go's `gcController.bgScanCredit` (mgcpacer.go), to which `gcDrain` adds by `gcFlushBgCredit`, and from which
//! `gcAssistAlloc` steals (mgcmark.go).
#![tactic(auto)]

mod draw;
mod earn;
pub mod laws;

pub use draw::{Draw, DrawStage};
pub use earn::{CREDIT_SLACK, Earn, EarnStage};
