//! Laws of the routine. The functions do nothing; what they ensure is proved.

ghost use Rattle.gh_base.specs.declared.layout.Layout.{Layout};
ghost use Rattle.gh_base.specs.Machines.{IsRoutine};
ghost use Rattle.gh_pages.specs.Facts.{CarvesByItsRights};
ghost use Rattle.gh_pages.specs.FirstFit.{FirstFitIsFound};
ghost use Rattle.gh_pages.specs.Listing.{listing};

use gh_base::laws::{cells_are_told, packed_words_are_read_back};
use gh_heap::laws::{each_move_keeps, facts_last, rights_follow, the_heap_is_apart};

/// It is a routine: the pages that a stage speaks of are pages of the arena, each step is on a word that there is, and it
/// writes page words alone.
#[tactic(auto, using(std::proofs::lemmas::Bool::Decides::nat_tests))]
pub fn the_carve_is_a_routine()
    ensures { (l : Layout) → IsRoutine l (listing l) }
{}

/// Told what each page holds, the routine goes on exactly with the least page from which enough
/// free pages stand in a row, right after it has loaded the last of them; and it ends with `None`
/// exactly where there is no such page.
pub fn first_fit()
    ensures { FirstFitIsFound }
{}

/// Whatever any number of processors do beside it: each of its steps is a move that its seat may make, on
/// a word that there is, and what is known at each stage holds then and lasts. Where it gives a page, a fresh span stands there, in
/// which no object is, and the seat holds it; where it gives none, no run of free pages fits.
/// What it writes is a page word of the span.
pub fn the_carve_keeps_its_facts()
    ensures { CarvesByItsRights }
{
    packed_words_are_read_back();
    facts_last();
    rights_follow();
    the_heap_is_apart();
    each_move_keeps();
}
