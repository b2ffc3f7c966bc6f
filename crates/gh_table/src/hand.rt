//! An actor's machine, with the right to run it.
//!
//! Between two calls the machine is what the actor is after its entries. So no call takes on trust what was done before, and
//! what a call did is said by what its steps found: they determine the entries that it added, the machine after them and its
//! answer.

ghost use Rattle.std.specs.Prelude.{◌≡◌, ◌<◌, ◌≤◌, ◌||◌, [], ◌∷◌, ◌++◌, ℕ, List, length, None, Some, true, false};
ghost use Rattle.gh_base.specs.Lists.{by};
ghost use Rattle.gh_base.specs.Routines.{EndsWithin};
ghost use Rattle.gh_table.specs.Rule.{actor_in, IsLaidOut};
ghost use Rattle.gh_table.specs.Runs.{Gave, Ran, SawLegalList};
ghost use Rattle.gh_table.specs.Views.{Carries, has};

use crate::acts::{Acts, Marked, Operates};
use crate::plan::Plan;
use crate::table::{ActorSeat, SharedWords, join_other, perform};
use gh_base::laws::a_state_is_of_its_own_entries;
use gh_base::{Layout, Machine};
use gh_gate::Gate;
use std::marker::PhantomData;
use std::sync::Wait;

/// An actor's machine, and the seat that carries it. It may go to another thread.
#[derive(Drop)]
pub struct Hand<A, O, K: Plan<A, O>, M: Acts<K, A, O>> {
    /// The actor's number.
    pub actor: u32,
    pub machine: M,
    pub seat: ActorSeat<K, O>,
    of: PhantomData<A>,
    pub ghost carries: { Carries seat.me.0 actor },
    pub ghost belongs: { M.belongs seat.me.0.plan machine } by { M.belongs_once seat.me.0.plan machine },
    pub ghost state: { M.acts_as machine ≡ actor_in K.setting seat.me.0 actor },
    pub ghost slotless: { seat.me.1 ≡ [] },
}

impl<A, O, K: Plan<A, O>, M: Acts<K, A, O>> Hand<A, O, K, M> {
    /// The actor, whose machine this is after its entries, with a seat that carries it.
    pub fn new(actor: u32, machine: M, seat: ActorSeat<K, O>) -> Hand<A, O, K, M>
        requires carries { Carries seat.me.0 actor }
        requires belongs { M.belongs seat.me.0.plan machine }
        requires state { M.acts_as machine ≡ actor_in K.setting seat.me.0 actor }
        requires slotless { seat.me.1 ≡ [] }
        ensures { (result.actor ≡ actor) × (result.machine ≡ machine) × (result.seat.table_id ≡ seat.table_id) × (result.seat.me ≡ seat.me) }
    {
        Hand {
            actor,
            machine,
            seat,
            of: PhantomData,
        }
    }

    /// The machine, and the seat with what it carries.
    pub fn into_parts(self) -> (M, ActorSeat<K, O>)
        ensures machine { result.0 ≡ self.machine }
        ensures seat { (result.1.table_id ≡ self.seat.table_id) × (result.1.me ≡ self.seat.me) }
    {
        let Hand {
            actor: _,
            machine,
            seat,
            of: _,
        } = self;
        (machine, seat)
    }

    /// One step more of what was begun. It answers what the machine ends with, and `None` exactly where there is a further
    /// step to make.
    pub fn go_on(&mut self, words: &SharedWords<K, A, O>, layout: &Layout) -> Option<M::Out>
        requires words { IsLaidOut K.setting words.now.key words.now.table_id.words layout.now }
        requires table { (self.old.seat.table_id ≡ words.now.table_id) × (self.old.seat.me.0.plan ≡ words.now.key) }
        requires busy { M.busy self.old.machine ≡ true }
        ensures same { (self.new.actor ≡ self.old.actor) × (self.new.seat.table_id ≡ self.old.seat.table_id) }
        ensures step { (found : ℕ) × Ran M.asks M.goes self.old.actor None self.old.machine self.old.seat.me self.new.machine self.new.seat.me (found ∷ []) × (result ≡ M.gives self.old.machine found) }
        ensures saw { SawLegalList K.setting self.new.actor self.old.seat.me self.new.seat.me }
    {
        perform(
            words,
            layout,
            &mut self.seat,
            self.actor,
            &None,
            &mut self.machine,
        )
    }

    /// Takes over what the other hand carries, with all that its seat has seen, and answers its machine. The other actor
    /// steps no more. It costs two loads.
    pub fn join<N: Acts<K, A, O>>(
        &mut self,
        words: &SharedWords<K, A, O>,
        other: Hand<A, O, K, N>,
    ) -> N
        requires table { (self.old.seat.table_id ≡ words.now.table_id) × (other.seat.table_id ≡ words.now.table_id) × (0 < words.now.table_id.words) }
        ensures same { (self.new.actor ≡ self.old.actor) × (self.new.machine ≡ self.old.machine) × (self.new.seat.table_id ≡ self.old.seat.table_id) × (self.new.seat.me.0.plan ≡ self.old.seat.me.0.plan) }
        ensures carries { (a : ℕ) → has self.new.seat.me.0.actors a ≡ (has self.old.seat.me.0.actors a || has other.seat.me.0.actors a) }
        ensures apart { (a : ℕ) → Carries self.old.seat.me.0 a → has other.seat.me.0.actors a ≡ false }
        ensures seen { self.new.seat.me.0.seen ≡ self.old.seat.me.0.seen ++ other.seat.me.0.seen }
        ensures own { (a : ℕ) → Carries self.old.seat.me.0 a → by a self.new.seat.me.0.log ≡ by a self.old.seat.me.0.log }
        ensures other { (a : ℕ) → has self.old.seat.me.0.actors a ≡ false → by a self.new.seat.me.0.log ≡ by a other.seat.me.0.log }
        ensures machine { result ≡ other.machine }
    {
        a_state_is_of_its_own_entries::<A, O>();
        let Hand {
            actor,
            machine,
            seat,
            of: _,
        } = other;
        join_other(words, &mut self.seat, seat, self.actor, actor);
        machine
    }
}

impl<A, O, K: Plan<A, O>, M: Acts<K, A, O> + Marked> Hand<A, O, K, M> {
    /// Calls the gate where the machine's marks are not those of before. It answers what they are now.
    fn pass<G: Gate>(&self, gate: &G, who: u8, before: u64) -> u64
        ensures { result ≡ M.marked self.now.machine }
    {
        let marks = self.machine.marks();
        if marks != before {
            gate.at(who, marks);
        }
        marks
    }

    /// Steps until the machine ends, and answers what it ends with. It may wait for other actors, and at the gate: that is
    /// called between two steps, as `who`, whenever the machine's marks have changed.
    pub fn finish<R: Wait, G: Gate>(
        &mut self,
        rt: &R,
        words: &SharedWords<K, A, O>,
        layout: &Layout,
        who: u8,
        gate: &G,
    ) -> M::Out
        requires words { IsLaidOut K.setting words.now.key words.now.table_id.words layout.now }
        requires table { (self.old.seat.table_id ≡ words.now.table_id) × (self.old.seat.me.0.plan ≡ words.now.key) }
        requires busy { M.busy self.old.machine ≡ true }
        ensures same { (self.new.actor ≡ self.old.actor) × (self.new.seat.table_id ≡ self.old.seat.table_id) }
        ensures ran { (founds : List ℕ) × Ran M.asks M.goes self.old.actor None self.old.machine self.old.seat.me self.new.machine self.new.seat.me founds × Gave M.goes M.gives self.old.machine founds result }
        ensures saw { SawLegalList K.setting self.new.actor self.old.seat.me self.new.seat.me }
        ensures idle { M.busy self.new.machine ≡ false }
    {
        let mut marks = self.machine.marks();
        for _ in rt.forever() {
            if let Some(out) = self.go_on(words, layout) {
                return out;
            }
            marks = self.pass(gate, who, marks);
        }
        unreachable!()
    }
}

impl<A, O: Drop, K: Plan<A, O>, M: Operates<K, A, O>> Hand<A, O, K, M> {
    /// Begins an operation, with its first step. It answers what the machine ends with, and `None` exactly where there is a
    /// further step to make.
    pub fn begin(&mut self, words: &SharedWords<K, A, O>, layout: &Layout, op: O) -> Option<M::Out>
        requires words { IsLaidOut K.setting words.now.key words.now.table_id.words layout.now }
        requires table { (self.old.seat.table_id ≡ words.now.table_id) × (self.old.seat.me.0.plan ≡ words.now.key) }
        requires may { M.may self.old.machine op }
        requires allowed { (K.setting self.old.seat.me.0.plan).may_begin self.old.actor (by self.old.actor self.old.seat.me.0.log) op ≡ true }
        ensures same { (self.new.actor ≡ self.old.actor) × (self.new.seat.table_id ≡ self.old.seat.table_id) }
        ensures step { (found : ℕ) × Ran M.asks M.goes self.old.actor (Some op) (M.begins self.old.machine op) self.old.seat.me self.new.machine self.new.seat.me (found ∷ []) × (result ≡ M.gives (M.begins self.old.machine op) found) }
        ensures saw { SawLegalList K.setting self.new.actor self.old.seat.me self.new.seat.me }
    {
        self.machine.begin_with(&op);
        perform(
            words,
            layout,
            &mut self.seat,
            self.actor,
            &Some(op),
            &mut self.machine,
        )
    }

    /// An operation from its begin to its end, which comes within `most` steps whatever they find. It waits for nobody.
    #[tactic(auto, using(crate::proofs::Running::saw_before))]
    pub fn operate(
        &mut self,
        words: &SharedWords<K, A, O>,
        layout: &Layout,
        op: O,
        most: u32,
    ) -> M::Out
        requires words { IsLaidOut K.setting words.now.key words.now.table_id.words layout.now }
        requires table { (self.old.seat.table_id ≡ words.now.table_id) × (self.old.seat.me.0.plan ≡ words.now.key) }
        requires may { M.may self.old.machine op }
        requires allowed { (K.setting self.old.seat.me.0.plan).may_begin self.old.actor (by self.old.actor self.old.seat.me.0.log) op ≡ true }
        requires some { 0 < most }
        requires ends { (found : ℕ → ℕ) → EndsWithin (record { layout = M.layout; busy = M.busy; asks = M.asks; goes = M.goes; gives = M.gives }) most (M.begins self.old.machine op) found }
        ensures same { (self.new.actor ≡ self.old.actor) × (self.new.seat.table_id ≡ self.old.seat.table_id) }
        ensures ran { (founds : List ℕ) × Ran M.asks M.goes self.old.actor (Some op) (M.begins self.old.machine op) self.old.seat.me self.new.machine self.new.seat.me founds × Gave M.goes M.gives (M.begins self.old.machine op) founds result × (length founds ≤ most) }
        ensures saw { SawLegalList K.setting self.new.actor self.old.seat.me self.new.seat.me }
        ensures idle { M.busy self.new.machine ≡ false }
    {
        if let Some(out) = self.begin(words, layout, op) {
            return out;
        }
        for _step in 1..most {
            if let Some(out) = self.go_on(words, layout) {
                return out;
            }
        }
        unreachable!()
    }

    /// An operation from its begin to its end. It may wait for other actors.
    #[tactic(auto, using(crate::proofs::Running::saw_before))]
    pub fn operate_on<R: Wait>(
        &mut self,
        rt: &R,
        words: &SharedWords<K, A, O>,
        layout: &Layout,
        op: O,
    ) -> M::Out
        requires words { IsLaidOut K.setting words.now.key words.now.table_id.words layout.now }
        requires table { (self.old.seat.table_id ≡ words.now.table_id) × (self.old.seat.me.0.plan ≡ words.now.key) }
        requires may { M.may self.old.machine op }
        requires allowed { (K.setting self.old.seat.me.0.plan).may_begin self.old.actor (by self.old.actor self.old.seat.me.0.log) op ≡ true }
        ensures same { (self.new.actor ≡ self.old.actor) × (self.new.seat.table_id ≡ self.old.seat.table_id) }
        ensures ran { (founds : List ℕ) × Ran M.asks M.goes self.old.actor (Some op) (M.begins self.old.machine op) self.old.seat.me self.new.machine self.new.seat.me founds × Gave M.goes M.gives (M.begins self.old.machine op) founds result }
        ensures saw { SawLegalList K.setting self.new.actor self.old.seat.me self.new.seat.me }
        ensures idle { M.busy self.new.machine ≡ false }
    {
        if let Some(out) = self.begin(words, layout, op) {
            return out;
        }
        for _ in rt.forever() {
            if let Some(out) = self.go_on(words, layout) {
                return out;
            }
        }
        unreachable!()
    }
}
