//! Laws of the routine, and of those that it runs. The functions do nothing; what they ensure is proved.

ghost use Rattle.gh_base.specs.declared.layout.Layout.{Layout};
ghost use Rattle.gh_base.specs.Machines.{IsRoutine};
ghost use Rattle.gh_scan.specs.Facts.{ScansByMoves};
ghost use Rattle.gh_scan.specs.Listing.{listing};
ghost use Rattle.gh_scan.specs.Quiet.{MarkingIsQuiet};
ghost use Rattle.gh_scan.specs.Scans.{ObjectsAreScanned};

use gh_base::laws::{cells_are_told, packed_words_are_read_back, rows_are_written};
use gh_class::size_class_laws;
use gh_marks::laws::{facts_last, hands_follow, own_moves_leave, steps_go_by_moves};
use gh_shade::laws::{shades_by_moves, shading_is_a_routine};
use gh_wbuf::laws::{buffers_pass_by_moves, room_search_is_a_routine};

/// The scan of an object is a routine: it stays sound, each step is on a word that there is, and it writes marks, entries
/// and words of buffers alone.
pub fn scan_is_a_routine()
    ensures { (l : Layout) → IsRoutine l (listing l) }
{
    size_class_laws();
    packed_words_are_read_back();
    shading_is_a_routine();
    room_search_is_a_routine();
}

/// The scan of an object goes over the words of its slot in ascending order, and gives their number by the
/// page word. Where the slot lies in the heap it loads the bitmap words of the slot and the fields whose bit
/// is set there, each once, and no other field; and what it has shaded at its end is exactly the references
/// of the slot by the words that it was told: what these fields hold, where that is not nil, each once and in
/// the order of the words. The same stands by whatever rows of words agree with what it was told. It ends by
/// the step that is done with a word behind which nothing is left to be loaded, and by no other; so it ends
/// at once behind the last word of the slot. Its own steps are loads; all others are those of shading, and of
/// the search for room.
pub fn objects_are_scanned()
    ensures { ObjectsAreScanned }
{
    cells_are_told();
    size_class_laws();
    packed_words_are_read_back();
}

/// The routines by which buffers are taken and given back, and objects are shaded and scanned, store no phase, no
/// sweep generation, no number of cycles begun and no acknowledgement, nor change these in another way. So who
/// runs them is in the handshake of a stop by where it runs them.
pub fn marking_is_quiet()
    ensures { MarkingIsQuiet }
{}

/// Whatever any number of actors do beside it while marking is on: each step of the scan is made of moves that
/// its seat may make, leaves all that its caller knows, and what is known at each stage holds then and lasts.
/// The pointer fields behind which it is are clean, also where a store has changed one since, so its last step
/// makes the object black.
pub fn scans_by_moves()
    ensures { ScansByMoves }
{
    rows_are_written();
    facts_last();
    hands_follow();
    own_moves_leave();
    steps_go_by_moves();
    shades_by_moves();
    buffers_pass_by_moves();
}
