//! Laws of the lists of steps of all actors that run a script, whatever the code does.

ghost use Rattle.gh_world.specs.Due.{EachKeepsItsPlace, WhatIsDueFits};
ghost use Rattle.gh_world.specs.Points.{PointsAreStatements};
ghost use Rattle.gh_world.specs.Runs.{CyclesHaveRoom};

use gh_lists::{cycles_are_few, processors_begin_few};
use gh_mutator::laws::each_operation_acts_once;

/// The points of a script's run so far are the statements that acted in it, in their order, each with its number:
/// those of a goroutine are its first ones, from 1 on.
pub fn points_are_statements()
    ensures { PointsAreStatements }
{
    each_operation_acts_once();
}

/// Whoever makes a processor's steps, on whatever words, can take the turns of [`Progress`](crate::Progress): what is due there
/// may begin, by the entries that the processor has in a list; and behind the entry with which it does, and behind each that
/// begins nothing or is another's, the processor keeps its place among its turns.
pub fn what_is_due_fits()
    ensures fits { WhatIsDueFits }
    ensures kept { EachKeepsItsPlace }
{}

/// There is room for each cycle of a script: no legal list of its actors opens more than
/// [`most_cycles`](crate::most_cycles).
pub fn cycles_have_room()
    ensures { CyclesHaveRoom }
{
    cycles_are_few();
    processors_begin_few();
}
