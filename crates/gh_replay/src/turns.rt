//! A script's run, in which the actors step as a schedule says.

ghost use Rattle.std.specs.Prelude.{◌≡◌, ◌++◌, ℕ, ◌+◌, ◌<◌, ◌≤◌, [], length, IfOk, IfSome, Err};
ghost use Rattle.std.specs.Vec.{vec_capacity};
ghost use Rattle.gh_lines.specs.Text.{Outcome};
ghost use Rattle.gh_replay.specs.declared.fault.ReplayFault.TheVariants.{OutOfTurns};
ghost use Rattle.gh_replay.specs.Check.{IsEverAfter};
ghost use Rattle.gh_replay.specs.Places.{RanWithinBudget};
ghost use Rattle.gh_replay.specs.Replayed.{IsReplayed, IsUnfinished};
ghost use Rattle.gh_replay.specs.Report.{is_checked, IsReportOf};
ghost use Rattle.gh_world.specs.Turns.{total_of};
ghost use Rattle.gh_world.specs.After.{IsAfter};
ghost use Rattle.gh_world.specs.World.{actors_of, layout_of, script_of};

use crate::check::run_beside;
use crate::fault::ReplayFault;
use crate::laws::one_outcome;
use crate::place::{Place, room_to_keep};
use crate::report::Report;
use crate::schedule::Schedule;
use gh_base::Answer;
use gh_coord::Cycle;
use gh_ever::Ever;
use gh_explained::{a_script_has_one_run, every_run_is_explained, statements_are_enough};
use gh_script::Script;
use gh_world::{Event, World, most_cycles, points_are_statements, total_of};
use std::alloc::Global;

/// The report of the script's run, in which the actors step as the schedule says, where it takes at most
/// `budget` turns, which are single steps, and `OutOfTurns` where it takes more. With `check` the heap that never
/// frees is run beside it, along the statements in the order of their points, and the report keeps it: whatever the
/// run, it agrees with each answer, and says so in one line more, which is all that a check adds. All memory is taken
/// before the first turn.
pub fn replay(
    alloc: Global,
    script: &Script,
    schedule: Schedule,
    budget: u64,
    check: bool,
) -> Result<Report, ReplayFault>
    ensures explained { IfOk result (λ report. IsReplayed script.now schedule budget report.outcome) }
    ensures goroutines { IfOk result (λ report. report.goroutines ≡ length script.now.goroutines) }
    ensures of { IfOk result (IsReportOf script.now) }
    ensures checked { IfOk result (λ report. is_checked report ≡ check) }
    // Where it was checked, what is kept stands for the heap that never frees after the list of all turns.
    ensures ever { IfOk result (λ report. IfSome report.ever (IsEverAfter script.now schedule budget report.outcome)) }
    ensures out_of_turns { (n : ℕ) → result ≡ Err (OutOfTurns n) → (n ≡ budget) × IsUnfinished script.now schedule n }
    ensures runs_out { IsUnfinished script.now schedule budget → IfOk result (λ report. ⊥) }
    ensures ends { (outcome : Outcome) (n : ℕ) → IsReplayed script.now schedule budget outcome → result ≡ Err (OutOfTurns n) → ⊥ }
{
    every_run_is_explained();
    points_are_statements();
    statements_are_enough();
    a_script_has_one_run();
    one_outcome();
    script.is_well_formed();
    let mut world = World::new(alloc, script)?;
    let mut answers = Vec::with_capacity(alloc, total_of(script))?;
    let rows = Vec::with_capacity(alloc, total_of(script))?;
    let mut cycles = Vec::with_capacity(alloc, most_cycles(script) as usize)?;
    let ever = if check {
        Some(Ever::new(alloc, script)?)
    } else {
        None
    };
    let mut kept = room_to_keep(alloc, &world, schedule.seed)?;
    run(&mut world, &mut answers, schedule, &mut kept, budget);
    match world.turn_from(0) {
        Some(_) => Err(ReplayFault::OutOfTurns(budget)),
        None => {
            copy(world.cycles(), &mut cycles);
            let goroutines = script.goroutines();
            let ever = run_beside(ever, script, world.points(), &answers);
            Ok(Report::new(goroutines, answers, rows, cycles, world.totals(), ever))
        }
    }
}

/// Steps the world as the schedule says until it is done, or has taken so many turns. `kept` is empty, and where there
/// is a seed it has room for all actors: those that are not done are kept in it.
fn run(
    world: &mut World,
    answers: &mut Vec<(u32, Answer)>,
    schedule: Schedule,
    kept: &mut Vec<u8>,
    budget: u64,
)
    requires opens { IsAfter world.old [] }
    requires empty { answers.old.items ≡ [] }
    requires room { total_of (script_of world.old) ≤ vec_capacity answers.old }
    requires none { kept.old.items ≡ [] }
    requires seats { IfSome schedule.seed (λ seed. actors_of world.old ≤ vec_capacity kept.old) }
    ensures script { script_of world.new ≡ script_of world.old }
    ensures layout { layout_of world.new ≡ layout_of world.old }
    ensures ran { RanWithinBudget world.new schedule budget answers.new.items }
    ensures few { length answers.new.items ≤ total_of (script_of world.new) }
{
    let mut place = Place::opening(world, schedule, kept);
    let mut left = budget;
    while left > 0 {
        let actor = match place.take_turn(world, kept) {
            Some(actor) => actor,
            None => return,
        };
        match world.step(actor) {
            Event::Answered { g, answer, .. } => answers.push_reserved((g, answer)),
            Event::Moved => {}
            Event::Swept { .. } => {}
            Event::Finished => place.take_out(kept, actor),
        }
        left -= 1;
    }
}

/// Appends the cycles.
fn copy(cycles: &[Cycle], copies: &mut Vec<Cycle>)
    requires { length copies.old.items + length cycles.now ≤ vec_capacity copies.old }
    ensures { copies.new.items ≡ copies.old.items ++ cycles.now }
{
    for cycle in cycles {
        copies.push_reserved(*cycle);
    }
}
