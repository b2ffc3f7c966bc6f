//! Laws of the routine. The functions do nothing; what they ensure is proved.

ghost use Rattle.gh_base.specs.declared.layout.Layout.{Layout};
ghost use Rattle.gh_base.specs.Machines.{IsRoutine};
ghost use Rattle.gh_sweep.specs.Alone.{SpansAreSwept};
ghost use Rattle.gh_sweep.specs.AtEnd.{EndsWell, TheBitsAreObjects};
ghost use Rattle.gh_sweep.specs.Bits.{SetBitsAreCounted};
ghost use Rattle.gh_sweep.specs.Facts.{SweepKeepsItsFacts};
ghost use Rattle.gh_sweep.specs.Joined.{SpansFit};
ghost use Rattle.gh_sweep.specs.Listing.{listing};
ghost use Rattle.gh_sweep.specs.Moves.{DoneStays, EachMoveKeeps, EachMoveLeaves};
ghost use Rattle.gh_sweep.specs.Slots.{ClearSlotsAreTold};
ghost use Rattle.gh_sweep.specs.Steps.{SweepTakesItsSteps};
ghost use Rattle.gh_sweep.specs.Sweepers.{SweepsAmongOthers};

use gh_base::laws::{
    a_step_changes_one_cell, cells_are_told, packed_words_are_read_back, rows_are_written,
};
use gh_class::size_class_laws;

/// It is a routine: the word of the span's bits is one that there is, each step is on a word that there is, and it writes
/// page words, the span's bits and the counts alone.
pub fn the_sweep_is_a_routine()
    ensures { (l : Layout) → IsRoutine l (listing l) }
{}

/// The number of set bits of a word is the sum of its bits.
pub fn set_bits_are_counted()
    ensures { SetBitsAreCounted }
{}

/// A sweep is lost exactly where its swap found another word than the head's, by that step. Else it
/// takes three steps for each word of the span's bits and four more, as they are listed, and ends with
/// the bits kept and freed, whatever it is told.
pub fn sweep_takes_its_steps()
    ensures { SweepTakesItsSteps }
{}

/// Run alone from words that have the head, a sweep keeps exactly the objects that are marked, clears
/// the marks, changes the counts by what it kept and freed, and changes nothing else.
pub fn spans_are_swept()
    ensures { SpansAreSwept }
{
    cells_are_told();
    rows_are_written();
}

/// At each stage a sweep relies on facts about its span's words. Its own step is on its span alone,
/// clears no marked object's bit and leads to the next stage's facts; they last where others leave the
/// words of a span that is being swept; and so does every other sweep. It is lost only where the page
/// has no head with the number that was found.
pub fn sweep_keeps_its_facts()
    ensures { SweepKeepsItsFacts }
{
    a_step_changes_one_cell();
    cells_are_told();
    packed_words_are_read_back();
}

/// Where a sweep says that a slot of a small object's span is clear, one is; and where it says that none
/// is, none is, as long as each alloc bit is that of a slot's first word.
pub fn clear_slots_are_told()
    ensures { ClearSlotsAreTold }
{
    rows_are_written();
    size_class_laws();
}

/// While any number of actors sweep spans and others take them and place objects, what holds of the words
/// at every moment is kept by each move that may be made.
pub fn each_move_keeps()
    ensures { EachMoveKeeps }
{
    packed_words_are_read_back();
    rows_are_written();
    size_class_laws();
}

/// What a move of one actor leaves to each other: the words of the span that it sweeps, and what it has to
/// tell. A span that is swept stays swept.
pub fn each_move_leaves()
    ensures leaves { EachMoveLeaves }
    ensures done { DoneStays }
{
    packed_words_are_read_back();
    size_class_laws();
}

/// A sweep among other actors: each step that it asks for is a move that it may make, and leads to the next
/// stage; what holds of it lasts under the moves of others; and once it has ended it has told all.
pub fn sweeps_among_others()
    ensures { SweepsAmongOthers }
{
    packed_words_are_read_back();
    size_class_laws();
    sweep_keeps_its_facts();
}

/// Whole spans have no page in common, and the head of a span that is laid out, with the sweep generation's
/// number, may be laid beside the sweep.
pub fn whole_spans_fit()
    ensures { SpansFit }
{}

/// Where a cycle has ended what holds of the words at every moment holds, each span being unswept, and nobody sweeps.
pub fn cycles_end_well()
    ensures { EndsWell }
{
    rows_are_written();
}

/// The words of bits where a cycle has ended tell its objects: how many were marked and how many were not, and that these
/// are all.
pub fn bits_are_objects()
    ensures { TheBitsAreObjects }
{
    rows_are_written();
}
