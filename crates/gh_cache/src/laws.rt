//! The laws of the routine. The functions do nothing; what they ensure is proved.

ghost use Rattle.gh_base.specs.declared.layout.Layout.{Layout};
ghost use Rattle.gh_base.specs.Machines.{IsRoutine};
ghost use Rattle.gh_cache.specs.Facts.{SearchesByItsRights};
ghost use Rattle.gh_cache.specs.Listing.{listing};
ghost use Rattle.gh_cache.specs.NextClear.{NextClearIsFound};

use gh_class::size_class_laws;
use gh_heap::laws::the_heap_is_apart;

/// It is a routine: it looks at a slot that there is, each step is on a word that there is, and it writes nothing.
pub fn the_search_is_a_routine()
    ensures { (l : Layout) → IsRoutine l (listing l) }
{
    size_class_laws();
}

/// Told what the load for each slot finds, the routine ends with a slot exactly where that is the
/// least from the cursor on whose bit is clear, and with `None` exactly where all are taken. Its
/// cursor then is that slot, or the number of slots.
pub fn next_clear_slot()
    ensures { NextClearIsFound }
{
    size_class_laws();
}

/// Whatever any number of processors do beside it: while the seat holds the span, each step is on a word that
/// there is, and what is known at each stage holds after it and lasts. A slot that it gives is the seat's; where it gives none, all are taken.
pub fn the_search_keeps_its_facts()
    ensures { SearchesByItsRights }
{
    the_heap_is_apart();
    size_class_laws();
}
