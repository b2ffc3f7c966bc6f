//! Laws of the routines. The functions do nothing; what they ensure is proved.

ghost use Rattle.gh_base.specs.declared.layout.Layout.{Layout};
ghost use Rattle.gh_base.specs.Machines.{IsRoutine};
ghost use Rattle.gh_central.specs.GiveBack as give;
ghost use Rattle.gh_central.specs.GiveFacts.{GivesByItsRights};
ghost use Rattle.gh_central.specs.PassFacts.{PassesByItsRights};
ghost use Rattle.gh_central.specs.ReclaimFacts.{ReclaimsByItsRights};
ghost use Rattle.gh_central.specs.Owning.{GivingChangesTheOwner};
ghost use Rattle.gh_central.specs.Passing.{PassTakesTheFirst};
ghost use Rattle.gh_central.specs.Reclaim as reclaim;
ghost use Rattle.gh_central.specs.Slots.{TheTestSaysIt};
ghost use Rattle.gh_central.specs.Sweeping.{RunsSweeps};
ghost use Rattle.gh_central.specs.SweptPass as swept;
ghost use Rattle.gh_central.specs.UnsweptFacts.{SweepsByItsRights};
ghost use Rattle.gh_central.specs.UnsweptPass as unswept;

use gh_base::laws::{cells_are_told, packed_words_are_read_back};
use gh_class::size_class_laws;
use gh_heap::laws::{each_move_keeps, facts_last, rights_follow, the_heap_is_apart};
use gh_sweep::laws::the_sweep_is_a_routine;

/// The four are routines: each knows that its pages are in the arena and that the sweep that it runs is one, each step is on a
/// word that there is, and it writes page words alone, but by a sweep.
pub fn spans_go_by_routines()
    ensures give { (l : Layout) → IsRoutine l (give.listing l) }
    ensures swept { (l : Layout) → IsRoutine l (swept.listing l) }
    ensures unswept { (l : Layout) → IsRoutine l (unswept.listing l) }
    ensures reclaim { (l : Layout) → IsRoutine l (reclaim.listing l) }
{
    packed_words_are_read_back();
    the_sweep_is_a_routine();
}

/// Whatever words it is told, the pass gives a page only where it was told that the head of a
/// wanted span stands there with an alloc word that lacks a slot's bit, and where each page before
/// it was met and each wanted span there was told to be full. It gives `None` only where that is
/// so of all pages.
pub fn the_pass_takes_the_first()
    ensures { PassTakesTheFirst }
{}

/// An alloc word lacks a slot's bit exactly where a slot of the span begins in it whose bit is
/// clear.
pub fn the_test_says_it()
    ensures { TheTestSaysIt }
{}

/// The store of `GiveBack` leaves the head with nobody as its owner, and every other word as it was.
pub fn giving_changes_the_owner()
    ensures { GivingChangesTheOwner }
{
    packed_words_are_read_back();
    cells_are_told();
}

/// Whatever any number of processors do beside it: each step of the pass is a move that its seat may make,
/// on a word that there is, and what is known at each stage holds then and lasts. Where it gives a page, the seat holds a span of the
/// span class that begins there; where it gives none behind `Reclaim`, each such span that nobody owns is full. In the first round
/// nothing is said of the spans that it went past: one that was unswept may have clear slots by now.
pub fn the_pass_keeps_its_facts()
    ensures { PassesByItsRights }
{
    packed_words_are_read_back();
    facts_last();
    rights_follow();
    the_heap_is_apart();
    each_move_keeps();
    the_test_says_it();
    size_class_laws();
}

/// Giving a span back is a move that its seat may make while it holds the span, and it is on a word that there
/// is. A large object's span needs no lock for it, once the object is made.
pub fn giving_back_keeps_its_facts()
    ensures { GivesByItsRights }
{
    rights_follow();
}

/// Whatever any number of processors do beside it: each step of `Reclaim` but those of its sweeps is a move that its
/// seat may make while it has the lock, on a word that there is, and what is known at each stage holds then and lasts, and so
/// it does behind each step of a sweep. It frees the pages of spans that nobody owns and in which no object stands; when it
/// ends, each span that nobody owns is swept, and an object stands in it.
pub fn the_reclaiming_keeps_its_facts()
    ensures { ReclaimsByItsRights }
{
    packed_words_are_read_back();
    facts_last();
    rights_follow();
    the_heap_is_apart();
}

/// Whatever any number of processors do beside it: each step of the pass for an unswept span but those of its sweeps is a
/// move that its seat may make, on a word that there is, and what is known at each stage holds then and lasts, and so it does
/// behind each step of a sweep. Where it gives a page, the seat holds a span of the span class that begins there.
pub fn the_unswept_pass_keeps_its_facts()
    ensures { SweepsByItsRights }
{
    packed_words_are_read_back();
    facts_last();
    rights_follow();
    the_heap_is_apart();
    each_move_keeps();
}

/// While `Reclaim` or `UnsweptPass` runs a sweep its steps are those of the sweep, until that has ended; and it begins one
/// only of a span whose head it finds with the number before the sweep generation.
pub fn passes_run_sweeps()
    ensures reclaims { (l : Layout) → RunsSweeps (reclaim.asks l) (reclaim.goes l) (λ _. l) (λ m. m.generation) reclaim.sweep_in }
    ensures passes { (l : Layout) → RunsSweeps (unswept.asks l) (unswept.goes l) (λ _. l) (λ m. m.generation) unswept.sweep_in }
{}
