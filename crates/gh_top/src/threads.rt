//! Finding what there is to say of words that ask for threads.

ghost use Rattle.std.specs.Prelude.{◌≡◌, IfOk, IsErr, OnOk, OnErr, IfErr, ℕ, ◌≤◌, List, false};
ghost use Rattle.gh_gate.specs.Counts.{Rose};
ghost use Rattle.gh_replay.specs.Report.{is_checked, IsReportOf};
ghost use Rattle.gh_run.specs.Told.{IsRunByThreads};
ghost use Rattle.gh_run.specs.declared.fault.RunFault.TheVariants.{NoThread};
ghost use Rattle.gh_script.specs.Grammar.{Spells};
ghost use Rattle.gh_command.specs.declared.line.Line.TheVariants.{Run, Soak};
ghost use Rattle.gh_top.specs.declared.status.Status.TheVariants.{Ok};
ghost use Rattle.gh_command.specs.CommandLine.{texts};
ghost use Rattle.gh_top.specs.Outcome.{IsForThreads, ReadsText};
ghost use Rattle.gh_top.specs.Found.{IsFound, IsTellable, Matches, MatchesLine, status_of};

use crate::finding::read_script;
use crate::found::Found;
use gh_command::{Line, numbers_are_in_range, read_line};
use gh_gate::{Gate, Spawner};
use gh_io::Source;
use gh_replay::Report;
use gh_run::{RunFault, ThreadRun, run};
use gh_script::{ParseError, Script, generate, generated_scripts_spell, one_reading, parse};
use gh_soak::soaks_tell_one_heap;
use gh_world::{Totals, total_of};
use std::alloc::Global;
use std::sync::Wait;
use std::thread;

/// Reads or generates a script, and runs it by threads, as the words ask. Words that ask for no threads are told before.
pub fn find_by_threads<R: thread::Threads + Wait + Sync, S: Source, G: Gate + Sync, P: Spawner>(
    rt: &R,
    alloc: Global,
    words: &[&str],
    src: &mut S,
    gate: &G,
    sp: &mut P,
) -> Found
    requires { IsForThreads (texts words.now) }
    ensures found { IsFound (Matches (texts words.now)) (S.left src.old) (S.left src.new) (S.faults src.old) (S.faults src.new) result }
    ensures unread { ¬ ReadsText (texts words.now) → src.new ≡ src.old }
    ensures ran { status_of result ≡ Ok → Rose (P.ran sp.old) (P.ran sp.new) }
    ensures none_ran { ¬ (status_of result ≡ Ok) → P.ran sp.new ≡ P.ran sp.old }
    ensures refused { P.refuses sp.old → status_of result ≡ Ok → ⊥ }
    ensures no_thread { result ≡ Found.NoThread → Rose (P.faults sp.old) (P.faults sp.new) }
    ensures ran_never_falls { P.ran sp.old ≤ P.ran sp.new }
    ensures faults_never_fall { P.faults sp.old ≤ P.faults sp.new }
{
    match read_line(alloc, words) {
        Ok(Some(Line::Run)) => match read_script(alloc, src) {
            Ok(script) => run_script(rt, alloc, script, gate, sp),
            Err(found) => found,
        },
        Ok(Some(Line::Soak { seed, size })) => {
            numbers_are_in_range();
            soak(rt, alloc, seed, size as u32, gate, sp)
        }
        Ok(_) => unreachable!(),
        Err(_) => Found::NoMemory,
    }
}

// Runs a script by threads.
fn run_script<R: thread::Threads + Wait + Sync, G: Gate + Sync, P: Spawner>(
    rt: &R,
    alloc: Global,
    script: Script,
    gate: &G,
    sp: &mut P,
) -> Found
    ensures found { (text : List ℕ) → Spells text script → MatchesLine Run text result }
    ensures read { result ≡ Found.ReadFault → ⊥ }
    ensures tellable { IsTellable result }
    ensures ran { status_of result ≡ Ok → Rose (P.ran sp.old) (P.ran sp.new) }
    ensures none_ran { ¬ (status_of result ≡ Ok) → P.ran sp.new ≡ P.ran sp.old }
    ensures refused { P.refuses sp.old → status_of result ≡ Ok → ⊥ }
    ensures no_thread { result ≡ Found.NoThread → Rose (P.faults sp.old) (P.faults sp.new) }
    ensures ran_never_falls { P.ran sp.old ≤ P.ran sp.new }
    ensures faults_never_fall { P.faults sp.old ≤ P.faults sp.new }
{
    match reported(rt, alloc, &script, gate, sp) {
        Ok(report) => Found::Ran(script, report),
        Err(RunFault::NoThread) => Found::NoThread,
        Err(RunFault::NoMemory) => Found::NoMemory,
    }
}

// The report of a script's run by threads. The memory of its rows is taken before the run begins.
fn reported<R: thread::Threads + Wait + Sync, G: Gate + Sync, P: Spawner>(
    rt: &R,
    alloc: Global,
    script: &Script,
    gate: &G,
    sp: &mut P,
) -> Result<Report, RunFault>
    ensures explained { IfOk result (λ report. IsRunByThreads script.now report.outcome) }
    ensures unchecked { IfOk result (λ report. is_checked report ≡ false) }
    ensures of { IfOk result (IsReportOf script.now) }
    ensures ran { OnOk result (Rose (P.ran sp.old) (P.ran sp.new)) }
    ensures none_ran { OnErr result (P.ran sp.new ≡ P.ran sp.old) }
    ensures refused { P.refuses sp.old → IsErr result }
    ensures no_thread { IfErr result (λ fault. fault ≡ NoThread → Rose (P.faults sp.old) (P.faults sp.new)) }
    ensures ran_never_falls { P.ran sp.old ≤ P.ran sp.new }
    ensures faults_never_fall { P.faults sp.old ≤ P.faults sp.new }
{
    script.is_well_formed();
    let rows = Vec::with_capacity(alloc, total_of(script))?;
    let ThreadRun {
        answers,
        cycles,
        earned,
        spent,
        lapsed,
        objects,
        live,
    } = run(rt, alloc, script, gate, sp)?;
    let totals = Totals {
        objects,
        live,
        earned,
        spent,
        lapsed,
    };
    Ok(Report::new(script.goroutines(), answers, rows, cycles, totals, None))
}

// Runs the script of this seed and this size by threads.
fn soak<R: thread::Threads + Wait + Sync, G: Gate + Sync, P: Spawner>(
    rt: &R,
    alloc: Global,
    seed: u64,
    size: u32,
    gate: &G,
    sp: &mut P,
) -> Found
    requires { (4 ≤ size) × (size ≤ 200000) }
    ensures found { (text : List ℕ) → MatchesLine (Soak seed size) text result }
    ensures read { result ≡ Found.ReadFault → ⊥ }
    ensures tellable { IsTellable result }
    ensures ran { status_of result ≡ Ok → Rose (P.ran sp.old) (P.ran sp.new) }
    ensures none_ran { ¬ (status_of result ≡ Ok) → P.ran sp.new ≡ P.ran sp.old }
    ensures refused { P.refuses sp.old → status_of result ≡ Ok → ⊥ }
    ensures no_thread { result ≡ Found.NoThread → Rose (P.faults sp.old) (P.faults sp.new) }
    ensures ran_never_falls { P.ran sp.old ≤ P.ran sp.new }
    ensures faults_never_fall { P.faults sp.old ≤ P.faults sp.new }
{
    one_reading();
    generated_scripts_spell();
    soaks_tell_one_heap();
    let Ok(text) = generate(alloc, seed, size) else {
        return Found::NoMemory;
    };
    let script = match parse(alloc, &text) {
        Ok(script) => script,
        // A generated text is never refused.
        Err(ParseError::Script(_)) => unreachable!(),
        Err(ParseError::NoMemory) => return Found::NoMemory,
    };
    match run(rt, alloc, &script, gate, sp) {
        Ok(ThreadRun { objects, live, .. }) => Found::Soaked {
            statements: 4 * (size / 4),
            objects,
            bytes: live,
        },
        Err(RunFault::NoThread) => Found::NoThread,
        Err(RunFault::NoMemory) => Found::NoMemory,
    }
}
