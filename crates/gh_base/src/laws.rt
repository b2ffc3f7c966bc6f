//! Laws of the definitions. The functions do nothing; what they ensure is proved.

ghost use Rattle.std.specs.Prelude.{◌≡◌, List, ℕ};
ghost use Rattle.gh_base.specs.declared.machine.Entry.{Entry};
ghost use Rattle.gh_base.specs.Cells.{WordsAreApart, WordsAreBelow};
ghost use Rattle.gh_base.specs.Footprints.{FootprintsHold};
ghost use Rattle.gh_base.specs.Holding.{BuffersAreHeld};
ghost use Rattle.gh_base.specs.Lists.{by, Kind, Setting, state_of};
ghost use Rattle.gh_base.specs.Packing.{PackedWordsAreReadBack};
ghost use Rattle.gh_base.specs.Routines.{IsFolded, Listing};
ghost use Rattle.gh_base.specs.Rows.{CellsAreTold, RowsAreWritten};
ghost use Rattle.gh_base.specs.Steps.{ChangesOneCell, StepsAreShown};

use crate::layout::Layout;

/// Different cells of a layout have different words, and each is below its length.
pub fn cells_have_words_of_their_own(layout: &Layout)
    ensures apart { WordsAreApart layout.now }
    ensures below { WordsAreBelow layout.now }
{}

/// Where a list of words shows cells, a request on it finds what the step on the cell finds, and
/// afterwards the list shows the cells after the step.
pub fn steps_are_shown(layout: &Layout)
    ensures { StepsAreShown layout.now }
{}

/// A step leaves its cell as it says, and every other cell as it is.
pub fn a_step_changes_one_cell()
    ensures { ChangesOneCell }
{}

/// What a packed word says is read back from it, where each number fits its bits; of a birth word, where
/// there is such a goroutine and it made fewer than 2^32 objects. And what is read of a page word fits.
pub fn packed_words_are_read_back()
    ensures { PackedWordsAreReadBack }
{}

/// An actor's state after a list depends on its own entries alone.
pub fn a_state_is_of_its_own_entries<M, O>()
    ensures { (k : Kind M O) (a : ℕ) (es : List (Entry O)) → state_of k a es ≡ state_of k a (by a es) }
{}

/// The steps of a routine are those of its first few, and then those of the routine after them.
pub fn steps_are_folded<M, Out>()
    ensures { (r : Listing M Out) → IsFolded r }
{}

/// A write in a row leaves its word as it says and every other word as it is, and so with bits.
pub fn rows_are_written()
    ensures { RowsAreWritten }
{}

/// Cells are told apart, and a write is on one of them.
pub fn cells_are_told()
    ensures { CellsAreTold }
{}

/// What is held of grey work buffers is kept. A step of a seat that loads, gives its buffer back, takes one
/// that nobody holds, takes an entry out of its own or puts one in, or sets mark bits, is a move that the
/// seat may make; and a move that a seat may make keeps the counts of all buffers and what every other seat
/// holds.
pub fn buffers_are_held()
    ensures { BuffersAreHeld }
{}

/// What a routine writes is among more rows, and it leaves every word of another row as it was.
pub fn footprints_hold()
    ensures { FootprintsHold }
{}
