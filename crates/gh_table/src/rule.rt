//! The rule of a table of words, and what may become of its seats.

use crate::plan::{Plan, View};
use atomic_table::{Join, Play, Split, TableRule};
use gh_base::Entry;
use std::marker::{Brand, PhantomData};

/// The rule: there is one legal list, the words are those after it, and each seat has the entries of the actors that it
/// carries. The first seat carries all actors of the plan.
pub struct OneLegalList<A, O>(PhantomData<(A, O)>);

impl<K: Plan<A, O>, A, O> TableRule<(), View<K, O>, K> for OneLegalList<A, O> {
    ghost use Rattle.gh_table.specs.Rule.{HoldsOneList};
    ghost use Rattle.gh_table.specs.Views.{all_carried};

    ghost holds = { HoldsOneList K.setting };

    ghost first = { λ p. all_carried p (K.setting p).actors };
}

/// The entry that a step adds, but for what it finds. Each call picks it.
pub trait NextStep<O> {
    ghost use Rattle.std.specs.Prelude.{ℕ, Option};
    ghost use Rattle.gh_base.specs.declared.cell.Ask.{Ask};

    // The actor that makes it.
    ghost actor: { ℕ };

    // The operation that it begins with this step, if any.
    ghost begun: { Option O };

    // The step.
    ghost ask: { Ask };
}

impl<O> NextStep<O> for Brand {
    ghost use Rattle.std.specs.Prelude.{None};
    ghost use Rattle.gh_base.specs.declared.cell.Ask.TheVariants.{Load};
    ghost use Rattle.gh_base.specs.declared.cell.Cell.TheVariants.{Touch};

    ghost actor = { 0 };

    ghost begun = { None };

    ghost ask = { Load Touch };
}

/// A step that adds its entry to the list and to its seat's view.
pub struct AddsEntry<A, N>(PhantomData<(A, N)>);

impl<K: Plan<A, O>, A, O, N: NextStep<O>> Play<(), View<K, O>> for AddsEntry<A, N> {
    ghost use Rattle.gh_table.specs.Rule.{Tells};

    ghost then = { λ s me n w. Tells K.setting N.actor N.begun N.ask n me w };
}

/// The same of a store, which finds nothing: the word that its entry says was found is the one before it.
pub struct AddsStore<A, N>(PhantomData<(A, N)>);

impl<K: Plan<A, O>, A, O, N: NextStep<O>> Play<(), View<K, O>> for AddsStore<A, N> {
    ghost use Rattle.std.specs.Prelude.{ℕ};
    ghost use Rattle.gh_table.specs.Rule.{Tells};

    ghost then = { λ s me n w. (found : ℕ) × Tells K.setting N.actor N.begun N.ask found me w };
}

/// A look that tells what the rule says of a seat's actors, and changes nothing.
pub struct TellsActors<A>(PhantomData<A>);

impl<K: Plan<A, O>, A, O> Play<(), View<K, O>> for TellsActors<A> {
    ghost use Rattle.gh_table.specs.Rule.{TellsOnce};

    ghost then = { λ s me n w. TellsOnce me w };
}

/// The first actor that a seat carries gets a seat of its own.
pub struct FirstActorLeaves;

impl<K, O> Split<View<K, O>> for FirstActorLeaves {
    ghost use Rattle.gh_table.specs.Views.{leaving, staying};

    ghost left = { staying };

    ghost right = { leaving };
}

/// One seat carries what two carried, and the other is spent.
pub struct SeatsJoined<A>(PhantomData<A>);

impl<K: Plan<A, O>, A, O> Join<View<K, O>> for SeatsJoined<A> {
    ghost use Rattle.gh_table.specs.Views.{joined, spent};

    ghost both = { joined };

    ghost spent = { spent K.nothing };
}
