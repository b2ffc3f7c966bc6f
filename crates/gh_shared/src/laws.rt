//! What the answers of a heap mean, and what its steps find.

ghost use Rattle.gh_shared.specs.Calls.{AnswersAreEvers, EveryListBalances, EveryListHasRoom, EveryListStands};
ghost use Rattle.gh_shared.specs.Handles.{plan_of, IsHeapOf};
ghost use Rattle.gh_actor.specs.Plans.{Planned};
ghost use Rattle.gh_explained.specs.Stores.{LoadsSeeStores};
ghost use Rattle.gh_shared.specs.LastWrites.{ReadsSeeWrites};

use crate::heap::Heap;
use gh_base::laws::a_step_changes_one_cell;
use gh_explained::{every_list_of_a_script_balances, every_run_stands};
use gh_script::Script;

/// Whatever legal list of the heap's steps, in whatever order the threads made them: all stands that `gh_world` says of the
/// lists of a script. So each processor was answered as the heap that never frees answers it, save `full`, which stands only
/// where there was no room, and at most one answer that it has still to give: none where it rests, so behind a call it was
/// answered exactly that. What workers have earned was spent, has lapsed, or is in the bank; and there is a grey work buffer with
/// room that nobody holds.
///
/// Each call has seen such a list with its own entries in it, and the words at the close are those after one.
pub fn answers_are_evers(heap: &Heap, script: &Script)
    requires { IsHeapOf script.now heap.now }
    ensures stands { EveryListStands (plan_of heap.now) }
    ensures answers { AnswersAreEvers (plan_of heap.now) }
    ensures credit { EveryListBalances (plan_of heap.now) }
    ensures room { EveryListHasRoom (plan_of heap.now) }
{
    script.is_well_formed();
    every_run_stands();
    every_list_of_a_script_balances();
}

/// Whatever legal list of a heap's steps: a step finds on its word what the last step left there that wrote it, whoever made
/// that one, or the word of the opening where none did. So an actor finds what it wrote itself, unless a later step wrote
/// the same word.
pub fn reads_see_writes()
    ensures { (p : Planned) → ReadsSeeWrites p }
{
    a_step_changes_one_cell();
}

/// Whatever list of a heap's steps: a load is answered, in the heap that never frees, the value that was stored last in that field of
/// that object. No other goroutine has stored there meanwhile where at each moment between none had a register that names the object;
/// and none has one as long as the goroutine that made the object stores its name in no field and no global. In legal lists each answer
/// of that heap is the one that the processor was given ([`answers_are_evers`]).
pub fn loads_see_stores()
    ensures { (p : Planned) → LoadsSeeStores p.script.shapes p.layout }
{
    gh_explained::loads_see_stores();
}
