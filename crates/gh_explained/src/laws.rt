//! Laws of a script's runs, whatever the code does.

ghost use Rattle.gh_explained.specs.Lists.{EveryListOfAScriptBalances, EveryListOfAScriptHasRoom, EveryListOfAScriptSettles};
ghost use Rattle.gh_explained.specs.Stores.{EveryLoadSeesStores};
ghost use Rattle.gh_world.specs.Points.{StatementsAreEnough};
ghost use Rattle.gh_world.specs.Runs.{EveryListOfAScriptStands, EveryOrderHasOneRun, EveryRunIsExplained, EveryRunIsOne, EveryRunStands, NoneIsLonger, RunsEndWhole, RunsGoOn};

use gh_base::Op;
use gh_base::laws::a_state_is_of_its_own_entries;
use gh_class::size_class_laws;
use gh_coord::laws::it_goes_on_until_done;
use gh_law::{every_list_balances, every_list_has_room, every_list_of_actors_stands};
use gh_lists::{
    a_processor_writes_its_own, cycles_are_few, every_list_keeps_the_handshake,
    every_step_changes_numbers, processors_begin_few,
};
use gh_mutator::Processor;
use gh_mutator::laws::{each_operation_acts_once, only_points_change, polls_make_room};
use gh_state::laws::slots_are_read;
use gh_sweep::laws::set_bits_are_counted;
use gh_worker::laws::a_worker_writes_its_own;
use gh_world::cycles_have_room;

/// After every step of every run of a script, whole or not: all stands that [`every_list_of_actors_stands`] says of the
/// legal lists of all actors. A well-formed script's shapes are good and its statements few, so nothing more is asked for.
pub fn every_run_stands()
    ensures runs { EveryRunStands }
    ensures lists { EveryListOfAScriptStands }
{
    every_list_of_actors_stands();
}

/// After every legal list of a script's processors, workers and coordinator, in whatever order the processors' operations are:
/// credit balances, and there is a grey work buffer with room that nobody holds. Where the coordinator is done, all that workers
/// scanned was earned, and all that was earned was spent or has lapsed.
pub fn every_list_of_a_script_balances()
    ensures balances { EveryListOfAScriptBalances }
    ensures room { EveryListOfAScriptHasRoom }
    ensures settled { EveryListOfAScriptSettles }
{
    every_run_stands();
    cycles_have_room();
    each_operation_acts_once();
    only_points_change();
    a_processor_writes_its_own();
    a_worker_writes_its_own();
    every_list_keeps_the_handshake();
    cycles_are_few();
    every_step_changes_numbers();
    every_list_balances();
    every_list_has_room();
    processors_begin_few();
    set_bits_are_counted();
    slots_are_read();
    size_class_laws();
}

/// Whatever the number of processors, each one's operations in a whole run of a script are its turns, and each
/// goroutine's statements stand among them once and in their order. The answers of such a run are those of the
/// heap that never frees, in the order of all points, save `full`, which stands only where nothing fitted and a
/// cycle was waited for. Each `gc` is answered `swept`, where a cycle that began after it did was swept. Each
/// cycle keeps what was marked where it ended, and frees what was white there; and it frees each object that no script
/// reached when it began. The credit that workers earned was spent or has lapsed. What is live at the end is what the globals
/// then hold.
pub fn every_run_is_explained()
    ensures { EveryRunIsExplained }
{
    every_run_stands();
    cycles_have_room();
    each_operation_acts_once();
    only_points_change();
    a_processor_writes_its_own();
    a_worker_writes_its_own();
    every_list_keeps_the_handshake();
    cycles_are_few();
    every_step_changes_numbers();
    every_list_balances();
    processors_begin_few();
    set_bits_are_counted();
    slots_are_read();
    size_class_laws();
}

/// A script has one run in each order of the actors' steps, with however many processors: what each has begun
/// and what it finds in the words settle its step. So where they take turns there is one.
pub fn a_script_has_one_run()
    ensures ordered { EveryOrderHasOneRun }
    ensures same { EveryRunIsOne }
    ensures longest { NoneIsLonger }
{}

/// A script's run so far goes on by a step of any actor that is not done, and is whole when all are.
pub fn runs_go_on()
    ensures on { RunsGoOn }
    ensures whole { RunsEndWhole }
{
    a_state_is_of_its_own_entries::<Processor<'_>, Op>();
    it_goes_on_until_done();
    polls_make_room();
    every_run_stands();
}

/// Along the statements of a whole run alone, in the order of their points, the heap that never frees answers
/// what it answers along all that acts there, and it comes to the same once all goroutines have ended behind them.
pub fn statements_are_enough()
    ensures { StatementsAreEnough }
{
    every_run_stands();
    only_points_change();
    each_operation_acts_once();
}

/// Of every list of the steps of a heap's actors: a load is answered, in the heap that never frees, the value that was stored last in
/// that field of that object. No other goroutine has stored there meanwhile where at each moment between none had a register that names
/// the object.
pub fn loads_see_stores()
    ensures { EveryLoadSeesStores }
{}
