//! Finding what there is to say of words that ask for no threads.

ghost use Rattle.std.specs.Prelude.{◌≡◌, ◌⊎◌, IfSome, ℕ, ◌≤◌, List, None, Some, Err};
ghost use Rattle.gh_script.specs.Grammar.{Spells};
ghost use Rattle.gh_command.specs.declared.line.Line.TheVariants.{Gen, Replay, Verify};
ghost use Rattle.gh_command.specs.CommandLine.{texts};
ghost use Rattle.gh_top.specs.Outcome.{IsForThreads, ReadsText};
ghost use Rattle.gh_top.specs.Found.{IsFound, IsReading, IsScriptOf, IsTellable, Matches, MatchesLine};

use crate::found::Found;
use gh_command::{Line, numbers_are_in_range, read_line};
use gh_dump::{MOST_DUMP_BYTES, VerifyError, one_verdict, verify};
use gh_io::{ReadError, Source, read_up_to};
use gh_replay::{ReplayFault, Schedule, replay};
use gh_script::{MOST_BYTES, ParseError, Script, generate, one_reading, parse, script_form};
use std::alloc::Global;

/// Reads, parses, runs, generates or verifies, and writes nothing: none exactly where the words ask for threads. A text is read
/// to its end, or to the first byte that no script, or no dump, has room for.
pub fn find<S: Source>(alloc: Global, words: &[&str], src: &mut S) -> Option<Found>
    ensures found { IfSome result (IsFound (Matches (texts words.now)) (S.left src.old) (S.left src.new) (S.faults src.old) (S.faults src.new)) }
    ensures unread { ¬ ReadsText (texts words.now) → src.new ≡ src.old }
    ensures none { result ≡ None → IsForThreads (texts words.now) × (src.new ≡ src.old) }
    ensures none_exactly { IsForThreads (texts words.now) → (result ≡ None) ⊎ (result ≡ Some Found.NoMemory) }
{
    match read_line(alloc, words) {
        Ok(Some(Line::Run)) => None,
        Ok(Some(Line::Soak { .. })) => None,
        Ok(
            Some(
                Line::Replay {
                    schedule,
                    budget,
                    check,
                },
            ),
        ) => Some(replay_text(alloc, schedule, budget, check, src)),
        Ok(Some(Line::Gen { seed, size })) => {
            numbers_are_in_range();
            Some(generated(alloc, seed, size as u32))
        }
        Ok(Some(Line::Verify)) => Some(verify_text(alloc, src)),
        Ok(None) => Some(Found::BadWords),
        Err(_) => Some(Found::NoMemory),
    }
}

// Reads a script, and runs it by the schedule, under the budget.
fn replay_text<S: Source>(
    alloc: Global,
    schedule: Schedule,
    budget: u64,
    check: bool,
    src: &mut S,
) -> Found
    ensures { IsFound (MatchesLine (Replay schedule budget check)) (S.left src.old) (S.left src.new) (S.faults src.old) (S.faults src.new) result }
{
    match read_script(alloc, src) {
        Ok(script) => replay_script(alloc, schedule, budget, check, script),
        Err(found) => found,
    }
}

// Runs a script by the schedule, under the budget.
fn replay_script(
    alloc: Global,
    schedule: Schedule,
    budget: u64,
    check: bool,
    script: Script,
) -> Found
    ensures found { (text : List ℕ) → Spells text script → MatchesLine (Replay schedule budget check) text result }
    ensures read { result ≡ Found.ReadFault → ⊥ }
    ensures tellable { IsTellable result }
{
    match replay(alloc, &script, schedule, budget, check) {
        Ok(report) => Found::Ran(script, report),
        Err(ReplayFault::OutOfTurns(turns)) => Found::OutOfTurns(turns),
        Err(ReplayFault::NoMemory) => Found::NoMemory,
    }
}

/// The script that the source has; or `BadScript`, `ReadFault` or `NoMemory`. The source is read to its end, or to the
/// first byte that no script has room for.
pub fn read_script<S: Source>(alloc: Global, src: &mut S) -> Result<Script, Found>
    ensures { IsReading (S.left src.old) (S.left src.new) (S.faults src.old) (S.faults src.new) result }
{
    one_reading();
    script_form();
    match read_up_to(alloc, src, MOST_BYTES + 1) {
        Ok(text) => parsed(alloc, &text),
        Err(ReadError::Failed) => Err(Found::ReadFault),
        Err(ReadError::NoMemory) => Err(Found::NoMemory),
    }
}

// The script that the text spells.
fn parsed(alloc: Global, text: &[u8]) -> Result<Script, Found>
    ensures script { IsScriptOf text.now result }
    ensures read { result ≡ Err Found.ReadFault → ⊥ }
{
    match parse(alloc, text) {
        Ok(script) => Ok(script),
        Err(ParseError::Script(fault)) => Err(Found::BadScript(fault)),
        Err(ParseError::NoMemory) => Err(Found::NoMemory),
    }
}

// Generates the script of this seed and this size.
fn generated(alloc: Global, seed: u64, size: u32) -> Found
    requires { (4 ≤ size) × (size ≤ 200000) }
    ensures found { (text : List ℕ) → MatchesLine (Gen seed size) text result }
    ensures read { result ≡ Found.ReadFault → ⊥ }
    ensures tellable { IsTellable result }
{
    match generate(alloc, seed, size) {
        Ok(text) => Found::Generated(text),
        Err(_) => Found::NoMemory,
    }
}

// Reads a text, and verifies it as a dump: it is read to its end, or to the first byte that no dump has room for.
fn verify_text<S: Source>(alloc: Global, src: &mut S) -> Found
    ensures { IsFound (MatchesLine Verify) (S.left src.old) (S.left src.new) (S.faults src.old) (S.faults src.new) result }
{
    one_verdict();
    match read_up_to(alloc, src, MOST_DUMP_BYTES + 1) {
        Ok(text) => verified(alloc, &text),
        Err(ReadError::Failed) => Found::ReadFault,
        Err(ReadError::NoMemory) => Found::NoMemory,
    }
}

// Verifies a text as a dump.
fn verified(alloc: Global, text: &[u8]) -> Found
    ensures found { MatchesLine Verify text.now result }
    ensures read { result ≡ Found.ReadFault → ⊥ }
    ensures tellable { IsTellable result }
{
    match verify(alloc, text) {
        Ok(objects) => Found::Verified(objects),
        Err(VerifyError::Dump(fault)) => Found::BadDump(fault),
        Err(VerifyError::NoMemory) => Found::NoMemory,
    }
}
