//! Laws of the routines. The functions do nothing; what they ensure is proved.

ghost use Rattle.gh_base.specs.declared.layout.Layout.{Layout};
ghost use Rattle.gh_base.specs.Machines.{IsRoutine};
ghost use Rattle.gh_bitmap.specs.Facts.{SetsByItsRights};
ghost use Rattle.gh_bitmap.specs.Pointers.{BitsAreRead, PointersAreSet};
ghost use Rattle.gh_bitmap.specs.ReadPointer as reading;
ghost use Rattle.gh_bitmap.specs.SetPointers as setting;
ghost use Rattle.gh_bitmap.specs.Stepping.{EachStepIsOnItsBits};

use crate::set_pointers::SetPointers;
use gh_base::laws::{cells_are_told, rows_are_written, steps_are_folded};
use gh_heap::laws::{facts_last, rights_follow, the_heap_is_apart};

/// Reading a bit is a routine: each step is on a word that there is, and it writes nothing.
pub fn reading_is_a_routine()
    ensures { (l : Layout) → IsRoutine l (reading.listing l) }
{}

/// Setting bits is a routine: the word that it is at has bits of the slot, each step is on a word that there is, and it
/// writes the bitmap alone.
pub fn setting_is_a_routine()
    ensures { (l : Layout) → IsRoutine l (setting.listing l) }
{}

/// Each step of the routine that sets pointer bits is on the slot's bits in one word: the first
/// clears them, the second makes them those of the type's pointer fields. Every other bit stays.
pub fn each_step_is_on_its_bits()
    ensures { EachStepIsOnItsBits }
{
    rows_are_written();
}

/// Run to its end over any words, the routine leaves the bits of the slot's words as the type says,
/// every other heap word's bit as it was, and every cell that has no bit of the slot.
pub fn pointers_are_set()
    ensures { PointersAreSet }
{
    rows_are_written();
    cells_are_told();
    steps_are_folded::<SetPointers<'_>, ()>();
}

/// The routine that reads a heap word's bit ends with that bit.
pub fn bits_are_read()
    ensures { BitsAreRead }
{}

/// Whatever any number of processors do beside it: while the seat claims the slot, each step is a move that it
/// may make, on a word that there is, and what is known at each stage holds then and lasts. At the end the slot's bits are told.
pub fn setting_keeps_its_facts()
    ensures { SetsByItsRights }
{
    facts_last();
    rights_follow();
    the_heap_is_apart();
    each_step_is_on_its_bits();
}
