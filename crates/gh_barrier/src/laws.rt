//! Laws of the routine. The functions do nothing; what they ensure is proved.

ghost use Rattle.gh_base.specs.declared.layout.Layout.{Layout};
ghost use Rattle.gh_base.specs.Machines.{IsRoutine};
ghost use Rattle.gh_barrier.specs.Ending.{WritingEnds};
ghost use Rattle.gh_barrier.specs.Facts.{WritesByMoves};
ghost use Rattle.gh_barrier.specs.Listing.{listing};
ghost use Rattle.gh_barrier.specs.Within.{WritingIsWithin};

use gh_base::laws::footprints_hold;
use gh_marks::laws::{facts_last, hands_follow, own_moves_leave};
use gh_shade::laws::{shades_by_moves, shading_is_a_routine};

/// The write is a routine: it stays sound, each step is on a word that there is, and it writes marks, entries, fields and
/// globals alone.
pub fn writing_is_a_routine()
    ensures { (l : Layout) → IsRoutine l (listing l) }
{
    footprints_hold();
    shading_is_a_routine();
}

/// Whatever any number of actors do beside it while marking is on, also stores to the same cell: each step of the
/// write is a move that its seat may make, leaves all that its caller knows, and what is known at each stage holds
/// then and lasts. Where it stores, the value that it overwrites then and the one that it writes are marked, if
/// they are not nil, and that step is the move of a store behind the write barrier.
pub fn writes_by_moves()
    ensures { WritesByMoves }
{
    facts_last();
    hands_follow();
    own_moves_leave();
    shades_by_moves();
}

/// Begun with a cell, an object and a buffer of a heap's layout, each step of the write is on a word that there is,
/// and what it holds is a buffer of that layout, whatever it is told.
pub fn writing_is_within()
    ensures { WritingIsWithin }
{}

/// Each step of the write leaves fewer steps than there were, and there are eight from its begin: whatever it is told,
/// and also where it was begun without room.
pub fn writing_ends()
    ensures { WritingEnds }
{}
