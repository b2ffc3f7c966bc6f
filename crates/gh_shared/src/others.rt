//! How a worker and the coordinator are run.

ghost use Rattle.std.specs.Prelude.{◌≡◌, ℕ, List, false};
ghost use Rattle.gh_shared.specs.Calls.{RanToItsEnd};
ghost use Rattle.gh_shared.specs.Handles.{ended_of, machine_of, IsHandleOf};
ghost use Rattle.gh_actor.specs.Machines.{IsCoordinator, IsOther, IsWorker};

use crate::handle::Handle;
use crate::heap::Heap;
use gh_actor::AnyActor;
use gh_base::Op;
use gh_base::laws::a_state_is_of_its_own_entries;
use gh_coord::laws::it_goes_on_until_done;
use gh_gate::Gate;
use std::sync::Wait;

impl Heap {
    /// Runs a worker until it is done. It returns only then: behind the last cycle. The gate is called between two steps,
    /// whenever the worker has scanned more words.
    pub fn work<'s, R: Wait, G: Gate>(&self, rt: &R, h: &mut Handle<'s>, gate: &G)
        requires of { IsHandleOf self.now h.old }
        requires worker { IsWorker (machine_of h.old) }
        requires going { ended_of h.old ≡ false }
        ensures { (founds : List ℕ) × RanToItsEnd self.now h.old h.new founds }
    {
        self.run(rt, h, gate);
    }

    /// Runs the coordinator until the last cycle is swept. It returns only then. The gate is called between two steps,
    /// whenever the coordinator has stored the phase word.
    pub fn coordinate<'s, R: Wait, G: Gate>(&self, rt: &R, h: &mut Handle<'s>, gate: &G)
        requires of { IsHandleOf self.now h.old }
        requires coordinator { IsCoordinator (machine_of h.old) }
        requires going { ended_of h.old ≡ false }
        ensures { (founds : List ℕ) × RanToItsEnd self.now h.old h.new founds }
    {
        self.run(rt, h, gate);
    }

    /// Runs an actor that is no processor until it is done.
    fn run<'s, R: Wait, G: Gate>(&self, rt: &R, h: &mut Handle<'s>, gate: &G)
        requires of { IsHandleOf self.now h.old }
        requires other { IsOther (machine_of h.old) }
        requires going { ended_of h.old ≡ false }
        ensures { (founds : List ℕ) × RanToItsEnd self.now h.old h.new founds }
    {
        it_goes_on_until_done();
        a_state_is_of_its_own_entries::<AnyActor, Op>();
        let who = h.hand.actor as u8;
        h.hand
            .finish(rt, &self.table.shared, &self.layout, who, gate);
    }
}
