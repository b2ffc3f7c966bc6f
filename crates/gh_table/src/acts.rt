//! Machines that act at the seats of a table.

use crate::plan::Plan;
use gh_base::Machine;

/// A machine that acts at a seat of a table: what it is there, as an actor of the plan's lists. What it asks for and goes
/// over to is what the actor asks for and goes over to.
pub trait Acts<K: Plan<A, O>, A, O>: Machine {
    ghost use Rattle.std.specs.Prelude.{ℕ, ◌≡◌, true};
    ghost use Rattle.gh_base.specs.Blind.{is_store};

    // The actor that it is.
    ghost acts_as: { Self → A };

    // It is one of a table of this plan.
    ghost belongs: { K → Self → Type 0 };

    // That it is so has one proof.
    ghost belongs_once: { (p : K) (m : Self) → IsProp (belongs p m) };

    ghost layout_is: { (p : K) (m : Self) → belongs p m → Self.Machine.layout m ≡ (K.setting p).layout };

    ghost busy_is: { (p : K) (m : Self) → belongs p m → (K.setting p).kind.busy (acts_as m) ≡ Self.Machine.busy m };

    ghost asks_is: { (p : K) (m : Self) → belongs p m → (K.setting p).kind.asks (acts_as m) ≡ Self.Machine.asks m };

    ghost takes_is: { (p : K) (m : Self) (found : ℕ) → belongs p m → (K.setting p).kind.takes (acts_as m) found ≡ acts_as (Self.Machine.goes m found) };

    // What it goes over to and gives behind a store is the same whatever word that overwrites.
    ghost stores_blindly: { (m : Self) (found other : ℕ) → is_store (Self.Machine.asks m) ≡ true → (Self.Machine.goes m found ≡ Self.Machine.goes m other) × (Self.Machine.gives m found ≡ Self.Machine.gives m other) };

    ghost still_belongs: { (p : K) (m : Self) (found : ℕ) → belongs p m → belongs p (Self.Machine.goes m found) };
}

/// What counts something of itself, of which a gate is told.
pub trait Marked {
    ghost use Rattle.std.specs.Prelude.{ℕ, ◌≡◌};

    // What it has counted so far.
    ghost marked: { Self → ℕ };

    /// What it has counted so far.
    fn marks(&self) -> u64
        ensures { result ≡ marked self.now };
}

/// Such a machine that operations are given to: a processor is one, a worker is not.
pub trait Operates<K: Plan<A, O>, A, O>: Acts<K, A, O> {
    ghost use Rattle.std.specs.Prelude.{◌≡◌, true, false};

    // It may begin the operation.
    ghost may: { Self → O → Type 0 };

    // What it is then.
    ghost begins: { Self → O → Self };

    /// Begins the operation. Its first step comes after that.
    fn begin_with(&mut self, op: &O)
        requires { may self.old op.now }
        ensures { self.new ≡ begins self.old op.now };

    // It may begin one only where none is begun.
    ghost idle: { (m : Self) (o : O) → may m o → Self.Machine.busy m ≡ false };

    // An operation has a step at least.
    ghost runs: { (m : Self) (o : O) → may m o → Self.Machine.busy (begins m o) ≡ true };

    ghost begins_is: { (p : K) (m : Self) (o : O) → Self.Acts.belongs p m → may m o → (K.setting p).kind.begins (Self.Acts.acts_as m) o ≡ Self.Acts.acts_as (begins m o) };

    ghost belongs_begun: { (p : K) (m : Self) (o : O) → Self.Acts.belongs p m → Self.Acts.belongs p (begins m o) };
}
