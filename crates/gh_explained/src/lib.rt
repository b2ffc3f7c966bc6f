//! What a script's runs come to.
//!
//! A run is a list of the steps of all actors in which each processor's operations are its turns (`gh_world`). What every list of
//! the actors' steps keeps is said below: of their numbers and the handshake in `gh_lists`, of the heap in `gh_law`. Here
//! [`every_run_stands`] says what of it holds after each step of a script's run, [`every_run_is_explained`] what whole runs come to:
//! what each statement is answered, what cycles mark and free, what becomes of credit, and what is live at the end.
//! [`every_list_of_a_script_balances`] says of each legal list of a script's actors, turns or not, what credit and work buffers are.
//! [`a_script_has_one_run`] says that there is one in each order of steps, [`runs_go_on`] that it goes on until it is whole, and
//! [`statements_are_enough`] that the heap that never frees comes to the same along the statements alone.
//!
//! proofs/Explained has what is said of a whole run, a file for each part of it, and Top.antt puts them together.
//!
//! This crate has laws, and no other code.
#![tactic(auto)]

mod laws;

pub use laws::{
    a_script_has_one_run, every_list_of_a_script_balances, every_run_is_explained,
    every_run_stands, loads_see_stores, runs_go_on, statements_are_enough,
};
