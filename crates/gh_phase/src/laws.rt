//! The laws of the routine, and of the handshake that it is a part of. The functions do nothing; what they
//! ensure is proved.

ghost use Rattle.std.specs.Prelude.{ℕ, List, ◌∷◌};
ghost use Rattle.gh_base.specs.declared.layout.Layout.{Layout};
ghost use Rattle.gh_base.specs.declared.machine.Entry.{Entry};
ghost use Rattle.gh_base.specs.Lists.{Legal, Setting};
ghost use Rattle.gh_base.specs.Machines.{IsRoutine};
ghost use Rattle.gh_phase.specs.Handshake.{IsHandshake};
ghost use Rattle.gh_phase.specs.Listing.{listing};
ghost use Rattle.gh_phase.specs.ResumePlaces.{ResumesInHandshake};
ghost use Rattle.gh_phase.specs.Shakes.{FinishedStays, GoneStay, NobodyMoves, Shakes};

use crate::handshake::InHandshake;
use gh_base::laws::packed_words_are_read_back;

/// Going on after a stop is a routine: it stays sound, each step is on a word that there is, and it writes acknowledgements
/// alone.
pub fn going_on_is_a_routine()
    ensures { (l : Layout) → IsRoutine l (listing l) }
{}

/// Going on after a stop makes the steps of the handshake: it begins with the acknowledgement of that stop, by its
/// seat, and ends where the actor is awake; what it ends with is what the actor knows then.
pub fn going_on_keeps_the_handshake()
    ensures { ResumesInHandshake }
{}

/// Where any number of actors are in the handshake, every legal list of their steps keeps it. From the opening or
/// the end of going on after a stop, until it is to acknowledge the next one, what an actor knows of the phase is
/// the last phase that was no stop, and the sweep generation and the cycles begun as their words stand. From the
/// load of the last acknowledgement until the coordinator stores a phase that is no stop, each other actor
/// waits at that stop, or is gone. Only one that is gone has acknowledged so.
pub fn the_handshake_holds<M: InHandshake, O>()
    ensures { (setting : Setting M O) (n : ℕ) → IsHandshake setting n (M.sound setting.layout) M.place → (es : List (Entry O)) → Legal setting es → Shakes setting n (M.sound setting.layout) M.place es }
{
    packed_words_are_read_back();
}

/// Who is gone stays gone.
pub fn the_gone_stay_gone<M: InHandshake, O>()
    ensures { (setting : Setting M O) (n : ℕ) → IsHandshake setting n (M.sound setting.layout) M.place → (e : Entry O) (es : List (Entry O)) → Legal setting (e ∷ es) → GoneStay setting n M.place e es }
{
    packed_words_are_read_back();
}

/// Once the last cycle is swept the phase stays so: no stop follows, and no other phase.
pub fn the_last_phase_stays<M: InHandshake, O>()
    ensures { (setting : Setting M O) (n : ℕ) → IsHandshake setting n (M.sound setting.layout) M.place → (e : Entry O) (es : List (Entry O)) → Legal setting (e ∷ es) → FinishedStays e es }
{
    packed_words_are_read_back();
}

/// In a stopped world nobody but the coordinator moves: a step of any other actor is a load of the phase that
/// finds the stop, and leaves it where it was.
pub fn nobody_moves<M: InHandshake, O>()
    ensures { (setting : Setting M O) (n : ℕ) → IsHandshake setting n (M.sound setting.layout) M.place → (e : Entry O) (es : List (Entry O)) → Legal setting (e ∷ es) → NobodyMoves setting n M.place e es }
{
    packed_words_are_read_back();
}
