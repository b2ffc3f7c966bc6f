//! What a heap and its handles show.

ghost use Rattle.std.specs.Prelude.{◌≡◌, ◌↔◌, true, false, ℕ, IsTrue};
ghost use Rattle.gh_base.specs.Cells.{seats_of};
ghost use Rattle.gh_shared.specs.Handles.{carries_of, ended_of, left_of, machine_of, number_of, plan_of, room_of, runs_in};
ghost use Rattle.gh_actor.specs.Machines.{IsCoordinator, IsProcessor, IsWorker};

use crate::handle::Handle;
use crate::heap::Heap;
use gh_actor::HeapActor;

impl Heap {
    /// How many actors there are: the processors, the workers and the coordinator.
    pub fn actors(&self) -> u32
        ensures { result ≡ seats_of (plan_of self.now).layout }
    {
        self.layout.seats()
    }
}

impl<'s> Handle<'s> {
    /// The actor's number.
    pub fn actor(&self) -> u32
        ensures { result ≡ number_of self.now }
    {
        self.hand.actor
    }

    /// The actor is a processor.
    pub fn is_processor(&self) -> bool
        ensures { IsTrue result ↔ IsProcessor (machine_of self.now) }
    {
        matches!(self.hand.machine.actor(), HeapActor::Runs(_))
    }

    /// The actor is a worker.
    pub fn is_worker(&self) -> bool
        ensures { IsTrue result ↔ IsWorker (machine_of self.now) }
    {
        matches!(self.hand.machine.actor(), HeapActor::Marks(_))
    }

    /// The actor is the coordinator.
    pub fn is_coordinator(&self) -> bool
        ensures { IsTrue result ↔ IsCoordinator (machine_of self.now) }
    {
        matches!(self.hand.machine.actor(), HeapActor::Leads(_))
    }

    /// Goroutine `g` is one of this processor, and has not ended.
    pub fn runs(&self, g: u32) -> bool
        ensures { result ≡ runs_in self.now g }
    {
        let counts = &self.counts;
        match counts.over.get(g as usize) {
            Some(over) => g % counts.procs == self.hand.actor && !*over,
            None => false,
        }
    }

    /// None of this processor's goroutines is left: it may leave.
    pub fn runs_none(&self) -> bool
        ensures { IsTrue result ↔ ((g : ℕ) → runs_in self.now g ≡ false) }
    {
        for g in 0..32 {
            if self.runs(g) {
                return false;
            }
        }
        true
    }

    /// How many `new` and `gc` the script has for goroutine `g`, less those begun.
    pub fn left(&self, g: u32) -> u32
        requires { runs_in self.now g ≡ true }
        ensures { result ≡ left_of self.now g }
    {
        self.counts.left[g as usize]
    }

    /// How many entries more the processor has room for, as it knows: while marking is on, those of the work buffer that it
    /// holds, and 0 where it holds none; while marking is off, 253. A store asks for two. 0 for a worker or the coordinator.
    pub fn room(&self) -> u32
        ensures { result ≡ room_of self.now }
    {
        match self.hand.machine.actor() {
            HeapActor::Runs(processor) => processor.room(),
            _ => 0,
        }
    }

    /// How many actors its seat carries: itself, and those whose handles were gathered.
    pub fn carries(&self) -> u32
        ensures { result ≡ carries_of self.now }
    {
        self.carried
    }

    /// The actor has ended: its processor has left, or its machine is done.
    pub fn ended(&self) -> bool
        ensures { result ≡ ended_of self.now }
    {
        match self.hand.machine.actor() {
            HeapActor::Runs(_) => self.counts.gone,
            HeapActor::Marks(worker) => worker.is_done(),
            HeapActor::Leads(coordinator) => coordinator.is_done(),
        }
    }
}
