//! What is true of runs under a budget, whatever the code does.

ghost use Rattle.gh_replay.specs.Replayed.{EitherOne, NotBoth, OneOutcome};
ghost use Rattle.gh_replay.specs.Scheduled.{NothingSaidIsInTurn, OthersTakeTurns};

use gh_explained::{a_script_has_one_run, every_run_is_explained, runs_go_on};

/// By one schedule a script's run ends within a budget or does not, one of the two and never both, and it
/// comes to one outcome, whatever the budget.
pub fn one_outcome()
    ensures either { EitherOne }
    ensures not_both { NotBoth }
    ensures one { OneOutcome }
{
    a_script_has_one_run();
    every_run_is_explained();
    runs_go_on();
}

/// Where a schedule has no list and no seed, the actors take turns in ascending order, from actor 0 on, again
/// and again, passing over those that are done.
pub fn nothing_said_is_in_turn()
    ensures { NothingSaidIsInTurn }
{}

/// By an item without an actor, `A!n` in a text, that actor takes no turn, whoever else there is.
pub fn others_take_turns()
    ensures { OthersTakeTurns }
{}
