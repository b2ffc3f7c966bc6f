//! What a state of marking has that is one of a list's heap.

ghost use Rattle.gh_marked.specs.Tied.{TiesShowWhatThereIs};

use gh_cycle::opening::reach_is_decided;

/// A state of marking that is one of a list's heap has what there is: each object that a script reaches is of the
/// cycle, where it is placed, with the words of its type; a register names there what it names; and what is marked is
/// not white. So one with nothing in it is of no list after which a script reaches an object.
pub fn ties_show_what_there_is()
    ensures { TiesShowWhatThereIs }
{
    reach_is_decided();
}
