//! What `soak` tells at its end: what is live where the goroutines of the generated script run one after the other.
//!
//! What acts in a whole run of a script is an order of all its operations, and where nothing is answered `full` the
//! heap that never frees behind the run is the one that this order leaves. The orders of a generated script all leave one
//! heap (`gh_generated`), the goroutines one after the other are such an order, and nothing of it is ever answered `full`
//! (`gh_plenty`). In one heap there is one count of what is live. So a run by threads, whoever stepped when, tells that
//! count. This crate has definitions and laws, and no other code.
#![tactic(auto)]

mod laws;

pub use laws::{
    one_after_another_is_an_order, runs_are_orders, runs_leave_their_heap, soaks_tell_one_heap,
    what_is_live_is_one,
};
