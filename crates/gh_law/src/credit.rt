//! That credit balances.
//!
//! Workers hand the words that they have scanned over to the bank (Go's `bgScanCredit`, mgcmark.go), from which processors that
//! have to help with marking take, by a swap. At each moment what workers have handed over is what was taken, what has lapsed
//! where marking was ended, and what the bank still holds: by each step that is on the bank's word both sides change by as much.
//! And what was taken is what the processors have counted as spent.
//!
//! The coordinator loads the bank and then clears it, in two steps. Between them nobody hands anything over or takes anything,
//! since the world is stopped then, and a worker hands over what it has left before it acknowledges a stop. So what the
//! coordinator has counted as lapsed is what its store replaced; and while no cycle is marked nothing is in the bank, and no
//! worker has anything left.

ghost use Rattle.gh_law.specs.Credit.{EveryListBalances};

use crate::actors::every_list_of_actors_stands;
use gh_lists::{every_list_keeps_the_handshake, every_list_opens_few, every_list_rests_workers};
use gh_mutator_writes::laws::{a_processor_writes_its_own, processors_spend};
use gh_worker::laws::{a_worker_writes_its_own, calm_workers_mark_nothing, credit_is_handed_over};

/// After every legal list of steps of all actors, in every order, the credit that workers have earned is what was spent, what
/// has lapsed, and what is in the bank; it is the words that they have scanned, but for those that they have still to hand
/// over; and it is below 2^48. What was spent is what processors have drawn. In a stopped world nothing is left. While no cycle
/// is marked nothing is in the bank or left, and the coordinator knows what has lapsed.
pub fn every_list_balances()
    ensures { EveryListBalances }
{
    every_list_of_actors_stands();
    every_list_keeps_the_handshake();
    every_list_rests_workers();
    every_list_opens_few();
    a_processor_writes_its_own();
    processors_spend();
    a_worker_writes_its_own();
    calm_workers_mark_nothing();
    credit_is_handed_over();
}
