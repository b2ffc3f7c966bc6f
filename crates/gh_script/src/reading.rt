//! A text is read line by line, up to the first line that can't be continued.

ghost use Rattle.std.specs.Prelude.{◌≡◌, ◌+◌, ◌≤◌, ◌<◌, ℕ, ◌⊎◌, List, length, take, IfOk, OnOk, Ok, Err};
ghost use Rattle.std.specs.Str.{is_utf8};
ghost use Rattle.gh_script.specs.declared.fault.Why.{Why};
ghost use Rattle.gh_script.specs.declared.fault.ScriptFault.{ScriptFault};
ghost use Rattle.gh_script.specs.Limits.{most_bytes};
ghost use Rattle.gh_script.specs.Program.{Program, WellFormed};
ghost use Rattle.gh_script.specs.Text.{lines_of, sentence_of, words_of};
ghost use Rattle.gh_script.specs.Said.{said};
ghost use Rattle.gh_script.specs.Draft.{IsSound};
ghost use Rattle.gh_script.specs.Grammar.{is_skipped, read_end, read_line, read_lines, reading_of, Refused, Spells};
ghost use Rattle.gh_script.specs.Outcome.{Continues, EndsAsRead, Faults, ReadsAll, TakesProgram};

use crate::cause::cause;
use crate::draft::Draft;
use crate::fault::{ParseError, ScriptFault, Why};
use crate::given::settings;
use crate::line::{Sentence, behind, feed_index, stripped, words};
use crate::script::Script;
use crate::word::key;
use gh_base::Shapes;
use std::alloc::Global;

/// The most bytes of a script.
pub const MOST_BYTES: usize = 4_194_304;

/// Whether a line is counted and no more.
fn is_skipped(line: &Sentence) -> bool
    ensures { result ≡ is_skipped (said line.now) }
{
    line.count == 0 || (!line.first.is_empty() && line.first[0] == b'#')
}

/// Reads the words of line number `number`.
#[tactic(auto, unfolding(crate::specs::Grammar::read_line))]
fn say(alloc: Global, draft: &mut Draft, words: &Sentence, number: u32) -> Result<(), ParseError>
    requires { IsSound draft.old }
    ensures { Continues result draft.new number (read_line draft.old (said words.now)) }
{
    if is_skipped(words) {
        return Ok(());
    }
    let Some(key) = key(words.first) else {
        let why = Why::Word;
        return Err(ParseError::Script(ScriptFault { line: number, why }));
    };
    if let Some(why) = cause(draft, key, words) {
        return Err(ParseError::Script(ScriptFault { line: number, why }));
    }
    draft.go_on(alloc, key, words)?;
    Ok(())
}

/// Reads line number `number`.
fn line(alloc: Global, draft: &mut Draft, text: &[u8], number: u32) -> Result<(), ParseError>
    requires { IsSound draft.old }
    ensures { Continues result draft.new number (read_line draft.old (sentence_of (words_of text.now))) }
{
    say(alloc, draft, &words(text), number)
}

/// Reads the lines of a text, and says how many there are.
fn lines(alloc: Global, draft: &mut Draft, text: &[u8]) -> Result<u32, ParseError>
    requires sound { IsSound draft.old }
    requires short { length text.now ≤ most_bytes }
    ensures all { ReadsAll result draft.new (length (lines_of text.now)) (read_lines draft.old 0 (lines_of text.now)) }
    ensures sound { OnOk result (IsSound draft.new) }
{
    let mut number = 0;
    let mut rest = text;
    'lines: while !rest.is_empty() {
        let end = feed_index(rest);
        number += 1;
        if let Err(e) = line(alloc, draft, stripped(&rest[..end]), number) {
            return Err(e);
        }
        rest = behind(rest, end);
    }
    Ok(number)
}

/// The script of a draft at the end of the text, after so many lines.
#[tactic(auto, unfolding(crate::specs::Grammar::read_end))]
fn finish(draft: Draft, lines: u32) -> Result<Script, ParseError>
    requires { IsSound draft }
    ensures { EndsAsRead result (read_end lines draft) }
{
    let settings = settings(&draft.given);
    let Draft {
        given: _,
        names: _,
        shapes,
        closed,
        current,
    } = draft;
    if current.is_some() {
        let why = Why::Nesting;
        return Err(ParseError::Script(ScriptFault { line: lines, why }));
    }
    if closed.is_empty() {
        let why = Why::Missing;
        return Err(ParseError::Script(ScriptFault { line: 0, why }));
    }
    Ok(Script {
        settings,
        shapes: Shapes { rows: shapes },
        goroutines: closed,
    })
}

fn is_text(bytes: &[u8]) -> bool
    ensures { result ≡ is_utf8 bytes.now }
{
    match str::from_utf8(bytes) {
        Ok(_) => true,
        Err(_) => false,
    }
}

fn read(alloc: Global, text: &[u8]) -> Result<Script, ParseError>
    ensures { EndsAsRead result (reading_of text.now) }
{
    if text.len() > MOST_BYTES {
        let why = Why::Size;
        return Err(ParseError::Script(ScriptFault { line: 0, why }));
    }
    if !is_text(text) {
        let why = Why::Utf8;
        return Err(ParseError::Script(ScriptFault { line: 0, why }));
    }
    let mut draft = Draft::blank(alloc);
    match lines(alloc, &mut draft, text) {
        Ok(count) => finish(draft, count),
        Err(e) => Err(e),
    }
}

/// The script that a text spells, or the first line that can't be continued, from 1 (0: no line),
/// and its first cause.
///
/// Every text of at most 4,194,304 bytes spells one script or is refused for one cause; a longer
/// one is refused as `Size` whatever it holds, so at most 4,194,305 bytes of it are needed.
pub fn parse(alloc: Global, text: &[u8]) -> Result<Script, ParseError>
    ensures spelled { IfOk result (λ script. Spells text.now script) }
    ensures refused { (fault : ScriptFault) → result ≡ Err (ParseError.Script fault) → Refused text.now fault.line fault.why }
    ensures taken { (program : Program) → Spells text.now program → TakesProgram result program }
    ensures faulted { (line : ℕ) (why : Why) → Refused text.now line why → Faults result line why }
    ensures formed { IfOk result WellFormed }
{
    read(alloc, text)
}

/// Each text spells one script or is refused once, and never both; and what it spells is well-formed. Of
/// a text that is too long no byte counts behind the first that is too many.
pub fn one_reading()
    ensures some { (text : List ℕ) → ((program : Program) × Spells text program) ⊎ ((line : ℕ) × (why : Why) × Refused text line why) }
    ensures not_both { (text : List ℕ) (program : Program) (line : ℕ) (why : Why) → Spells text program → Refused text line why → ⊥ }
    ensures one_script { (text : List ℕ) (p q : Program) → Spells text p → Spells text q → p ≡ q }
    ensures formed { (text : List ℕ) (p : Program) → Spells text p → WellFormed p }
    ensures one_cause { (text : List ℕ) (m n : ℕ) (v w : Why) → Refused text m v → Refused text n w → (m ≡ n) × (v ≡ w) }
    ensures cut { (text : List ℕ) → reading_of (take (most_bytes + 1) text) ≡ reading_of text }
{}
