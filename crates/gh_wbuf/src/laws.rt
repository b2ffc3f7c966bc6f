//! Laws of the routines. The functions do nothing; what they ensure is proved.

ghost use Rattle.gh_base.specs.declared.layout.Layout.{Layout};
ghost use Rattle.gh_base.specs.Machines.{IsRoutine};
ghost use Rattle.gh_wbuf.specs.BufferGiving as giving;
ghost use Rattle.gh_wbuf.specs.Entries.{EntriesAreTaken};
ghost use Rattle.gh_wbuf.specs.EntryTaking as taking;
ghost use Rattle.gh_wbuf.specs.Facts.{BuffersPassByMoves};
ghost use Rattle.gh_wbuf.specs.Knowing.{BuffersAreKept};
ghost use Rattle.gh_wbuf.specs.RoomFinding as finding;
ghost use Rattle.gh_wbuf.specs.Tries.{BuffersAreTried};
ghost use Rattle.gh_wbuf.specs.Trying as trying;

use crate::take_entry::TakeEntry;
use gh_base::laws::{buffers_are_held, steps_are_folded};
use gh_marks::laws::{facts_last, hands_follow, own_moves_leave};

/// A try is a routine: it stays sound, each step is on a word that there is, and it writes words of buffers alone.
pub fn try_is_a_routine()
    ensures { (l : Layout) → IsRoutine l (trying.listing l) }
{}

/// So is the search for room.
pub fn room_search_is_a_routine()
    ensures { (l : Layout) → IsRoutine l (finding.listing l) }
{
    try_is_a_routine();
}

/// So is the taking of an entry.
pub fn entry_taking_is_a_routine()
    ensures { (l : Layout) → IsRoutine l (taking.listing l) }
{
    try_is_a_routine();
}

/// So is giving a buffer back.
pub fn giving_back_is_a_routine()
    ensures { (l : Layout) → IsRoutine l (giving.listing l) }
{}

/// A try answers none exactly where the buffer was held or lacked what is wished, by the word that it
/// loaded, or its swap found another word. Else it ends with the buffer, of the count of that word, and
/// the word says that the seat holds it. A buffer that was held is given back before the swap.
pub fn buffers_are_tried()
    ensures { BuffersAreTried }
{}

/// The taking of an entry answers none exactly where its held buffer, if any, has no entry, and each of
/// its tries, one for each buffer, answered none. It drops no buffer with an entry: one that it gives back
/// has none, and its word is stored as 0. The entry that it ends with is the last one of the buffer that it
/// held or that its swap took, and the buffer has one less then.
pub fn entries_are_taken()
    ensures { EntriesAreTaken }
{
    steps_are_folded::<TakeEntry, Option<u64>>();
}

/// What the stages of the routines know of who holds which buffer, and of how many entries it has: it is so
/// where they begin, each step is a move that their seat may make and leads to what the next stage knows, and
/// it lasts whatever moves other seats make.
pub fn buffers_are_kept()
    ensures { BuffersAreKept }
{
    buffers_are_held();
}

/// Whatever any number of actors do beside it while marking is on: each step of the routines is made of moves
/// that its seat may make, leaves all that their caller knows, and what is known at each stage holds then and
/// lasts. An entry that is taken out is an object that its seat alone has then; so none is scanned twice, and
/// none is lost.
pub fn buffers_pass_by_moves()
    ensures { BuffersPassByMoves }
{
    buffers_are_held();
    buffers_are_kept();
    facts_last();
    hands_follow();
    own_moves_leave();
}
