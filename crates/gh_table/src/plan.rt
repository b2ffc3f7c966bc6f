//! What a table is made for, and what a seat of it knows.

use gh_base::Entry;
use std::collections::LinkedList;

/// What a table is made for: it says which lists are legal there. `A` is what an actor is, `O` what it begins.
///
/// The plan is the table's key, and each view has it. So it holds no reference: a proof about seats that go to other
/// threads knows no lifetimes.
pub trait Plan<A, O> {
    ghost use Rattle.gh_base.specs.Lists.{Setting};

    // What the lists of a table of this plan are of.
    ghost setting: { Self → Setting A O };

    // A plan of no table, which a spent seat has.
    ghost nothing: { Self };
}

/// What a seat knows. No value of it is made: it is what clauses speak of.
pub struct View<K, O> {
    /// The plan of its table.
    pub plan: K,
    /// The actors that it carries.
    pub actors: LinkedList<u32>,
    /// Their entries, the newest first.
    pub log: LinkedList<Entry<O>>,
    /// Beginnings of the one list that it has seen.
    pub seen: LinkedList<LinkedList<Entry<O>>>,
}
