//! A machine's steps as lines of text: what tests compare with what is drawn up by hand.
//!
//! A machine runs alone over a short list of words, and each of its steps is a line: what it asks for,
//! the row and the place of the word, what it writes, and, behind the colon, the word that it found.
//! `load page 3: 0` is a load of the page word of page 3 that found 0, `swap lock 0 1: 0` a swap of the
//! lock from 0 to 1 that found 0.

ghost use Rattle.std.specs.Prelude.{◌≡◌, true};
ghost use Rattle.gh_base.specs.Machines.{IsBusy};

use crate::cell::Req;
use crate::layout::Layout;
use crate::machine::Machine;
use crate::routine::Routine;
use std::alloc::{AllocError, Global};

/// What a run of a machine was.
#[derive(Debug, Drop)]
pub struct Steps<O> {
    /// Its steps, a line each.
    pub lines: Vec<String>,
    /// What it ended with; none where it has not ended.
    pub out: Option<O>,
}

impl<O> Steps<O> {
    /// That its lines are these.
    pub fn are(&self, lines: &[&str]) -> bool {
        if self.lines.len() != lines.len() {
            return false;
        }
        for (i, line) in lines.iter().enumerate() {
            if i >= self.lines.len() || self.lines[i].as_str() != *line {
                return false;
            }
        }
        true
    }
}

/// The control words, by their numbers.
const CONTROL: [&str; 15] = [
    "touch", "phase", "gen", "begun", "swept", "lock", "want", "bank", "gcur", "heap", "trigger",
    "work", "slack", "tally", "live",
];

/// The row that a word lies in, and its place there.
fn row(layout: &Layout, word: u32) -> (&'static str, u32) {
    for (name, first) in [
        ("scanned", layout.scanned_row()),
        ("ack", layout.ack_row()),
        ("entry", layout.entry_row()),
        ("buffer", layout.buffer_row()),
        ("global", layout.global_row()),
        ("field", layout.field_row()),
        ("birth", layout.birth_row()),
        ("bitmap", layout.bitmap_row()),
        ("mark", layout.mark_row()),
        ("alloc", layout.alloc_row()),
        ("page", 15),
    ] {
        if word >= first {
            return (name, word - first);
        }
    }
    ("control", word)
}

/// A word by its row and its place there.
fn name(alloc: Global, layout: &Layout, word: u32) -> Result<String, AllocError> {
    if word < 15 {
        let control = CONTROL[word as usize];
        return format!(in alloc; "{control}");
    }
    let (row, at) = row(layout, word);
    format!(in alloc; "{row} {at}")
}

/// The line of a step.
pub(crate) fn line(
    alloc: Global,
    layout: &Layout,
    request: Req,
    found: u64,
) -> Result<String, AllocError> {
    let name = name(alloc, layout, request.word())?;
    match request {
        Req::Load(_) => format!(in alloc; "load {name}: {found}"),
        Req::Store(_, value) => format!(in alloc; "store {name} {value}: {found}"),
        Req::Or(_, bits) => format!(in alloc; "or {name} {bits}: {found}"),
        Req::And(_, bits) => format!(in alloc; "and {name} {bits}: {found}"),
        Req::Add(_, more) => format!(in alloc; "add {name} {more}: {found}"),
        Req::Swap(_, old, new) => format!(in alloc; "swap {name} {old} {new}: {found}"),
    }
}

/// Makes the step on the list, and answers the word found; a word that the list lacks holds 0.
pub fn step(words: &mut Vec<u64>, request: Req) -> u64 {
    let at = request.word() as usize;
    if at >= words.len() {
        return 0;
    }
    let found = words[at];
    words[at] = request.left(found);
    found
}

/// Runs the machine alone over the words until it ends, and for `most` steps at the most.
pub fn run_alone<M: Machine>(
    alloc: Global,
    machine: &mut M,
    layout: &Layout,
    words: &mut Vec<u64>,
    most: u32,
) -> Result<Steps<M::Out>, AllocError>
    requires { M.busy machine.old ≡ true }
{
    let mut lines = Vec::new(alloc);
    for _ in 0..most {
        let request = machine.next();
        let found = step(words, request);
        lines.push(line(alloc, layout, request, found)?)?;
        if let Some(out) = machine.take(found) {
            return Ok(Steps {
                lines,
                out: Some(out),
            });
        }
    }
    Ok(Steps { lines, out: None })
}

/// Runs the routine alone over the words until it has given something, and for `most` steps at the most.
pub fn run_routine_alone<R: Routine>(
    alloc: Global,
    routine: &mut R,
    layout: &Layout,
    words: &mut Vec<u64>,
    most: u32,
) -> Result<Steps<R::Out>, AllocError>
    requires sound { (R.listing layout.now).sound routine.old }
    requires busy { IsBusy (R.listing layout.now) routine.old }
{
    let mut lines = Vec::new(alloc);
    for _ in 0..most {
        let request = routine.next(layout);
        let found = step(words, request);
        lines.push(line(alloc, layout, request, found)?)?;
        if let Some(out) = routine.take(layout, found) {
            return Ok(Steps {
                lines,
                out: Some(out),
            });
        }
    }
    Ok(Steps { lines, out: None })
}
