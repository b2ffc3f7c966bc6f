//! What is reported of a run, of a replay or of one by threads: its answers, its cycles, the credit of its workers and what is live, and
//! the lines that they make.
//!
//! Answers come in the order in which the statements end, one goroutine's among another's, and lines
//! stand goroutine by goroutine. So the answers that have lines are put into the lines' order once,
//! when the run is over, and in memory that was taken before its first step: a line is then found
//! without a search, and neither takes memory nor fails. A line is made where it is asked for, since
//! the lines together are much larger than the answers.
//!
//! Where the heap that never frees was run beside it, the report keeps that heap, and has the line `agrees` behind all
//! others.

ghost use Rattle.std.specs.Prelude.{◌≡◌, ◌+◌, ◌++◌, ◌^◌, ◌<◌, ◌≤◌, [], Some, length, map, option_map, slice_get};
ghost use Rattle.std.specs.Vec.{vec_capacity};
ghost use Rattle.gh_script.specs.Program.{Program};
ghost use Rattle.gh_lines.specs.Text.{answers_by};
ghost use Rattle.gh_replay.specs.Report.{is_checked, IsReportOf, replay_lines, rows_from};
ghost use Rattle.gh_world.specs.Runs.{swept_cycle};

use crate::row::Row;
use gh_base::Answer;
use gh_coord::Cycle;
use gh_ever::Ever;
use gh_interp::tell;
use gh_lines::{LineBuf, has_line};
use gh_script::Script;
use gh_world::Totals;
use std::marker::Model;

/// What a script's run comes to, its lines, and the heap that never frees, where that was run beside it.
#[derive(Drop)]
pub struct Report {
    goroutines: u32,
    answers: Vec<(u32, Answer)>,
    rows: Vec<Row>,
    cycles: Vec<Cycle>,
    totals: Totals,
    ever: Option<Ever>,
}

impl Model for Report {
    ghost use Rattle.std.specs.Prelude.{◌≡◌, ◌+◌, ◌^◌, ◌<◌, length, map};
    ghost use Rattle.gh_replay.specs.Report.{ReportState, rows_of};
    ghost use Rattle.gh_world.specs.Runs.{swept_cycle};

    ghost Value = { ReportState };

    ghost view = { λ r. record { goroutines = r.goroutines; outcome = record { answers = r.answers.items; cycles = map swept_cycle r.cycles.items; earned = r.totals.earned; spent = r.totals.spent; lapsed = r.totals.lapsed; objects = r.totals.objects; bytes = r.totals.live }; ever = r.ever } };

    ghost invariant = { λ r. (r.rows.items ≡ rows_of r.goroutines r.answers.items) × (length r.rows.items + length r.cycles.items + 3 < 2 ^ 32) };
}

impl Report {
    /// The report of these answers, each with its goroutine, to a script of so many goroutines, of these
    /// cycles and these totals, and of the heap that never frees beside the run, if there is one. `rows` is empty, and
    /// has room for a row for each answer. It is one of a whole run of a script (`IsReportOf`) where each goroutine's answers are.
    pub fn new(
        goroutines: u32,
        answers: Vec<(u32, Answer)>,
        mut rows: Vec<Row>,
        cycles: Vec<Cycle>,
        totals: Totals,
        ever: Option<Ever>,
    ) -> Report
        requires empty { rows.items ≡ [] }
        requires few { length answers.items + length cycles.items + 3 < 2 ^ 32 }
        requires room { length answers.items ≤ vec_capacity rows }
        ensures goroutines { result.goroutines ≡ goroutines }
        ensures answers { result.outcome.answers ≡ answers.items }
        ensures cycles { result.outcome.cycles ≡ map swept_cycle cycles.items }
        ensures credit { (result.outcome.earned ≡ totals.earned) × (result.outcome.spent ≡ totals.spent) × (result.outcome.lapsed ≡ totals.lapsed) }
        ensures live { (result.outcome.objects ≡ totals.objects) × (result.outcome.bytes ≡ totals.live) }
        ensures ever { result.ever ≡ ever }
    {
        for g in 0..goroutines {
            add_rows(g, &answers, &mut rows);
        }
        Report {
            goroutines,
            answers,
            rows,
            cycles,
            totals,
            ever,
        }
    }

    /// The heap that never frees, as it is after the run, where the replay was checked, and `None` exactly where it
    /// was not.
    pub fn ever(&self) -> Option<&Ever>
        ensures { option_map (λ ever. ever.now) result ≡ self.now.ever }
    {
        self.ever.as_ref()
    }

    /// How many lines there are: one for each answer that has one, which is each but
    /// [`Answer::Done`], one for each cycle, the one of the credit, the one of what is live, and where the replay was
    /// checked the line `agrees`. Whatever the run, that line is all that a check adds.
    pub fn lines(&self) -> u32
        ensures { (p : Program) → IsReportOf p self.now → result ≡ length (replay_lines p self.now.outcome (is_checked self.now)) }
    {
        let lines = self.rows.len() as u32 + self.cycles.len() as u32 + 2;
        if self.ever.is_some() {
            lines + 1
        } else {
            lines
        }
    }

    /// Fills the buffer with line `i`, counted from 0, which ends with LF: `name n answer`, goroutine
    /// by goroutine in the order of the script, each by its statements; then `cycle k marked M freed F`
    /// for each cycle; then `credit earned E spent S lapsed L`; then `live N bytes B`; and then `agrees`, where a replay was checked. `script` is the one that
    /// was run, and `i` is below [`Report::lines`].
    pub fn line(&self, script: &Script, i: u32, buf: &mut LineBuf)
        requires script { IsReportOf script.now self.now }
        requires below { i < length (replay_lines script.now self.now.outcome (is_checked self.now)) }
        ensures { slice_get (replay_lines script.now self.now.outcome (is_checked self.now)) i ≡ Some buf.new }
    {
        let i = i as usize;
        if i < self.rows.len() {
            let Row { g, n, answer } = self.rows[i];
            let _told = tell(buf, script, g, n, answer);
            return;
        }
        let behind = i - self.rows.len();
        if behind < self.cycles.len() {
            let Cycle { k, marked, freed } = self.cycles[behind];
            buf.cycle(k, marked, freed);
        } else if behind == self.cycles.len() {
            buf.credit(self.totals.earned, self.totals.spent, self.totals.lapsed);
        } else if behind == self.cycles.len() + 1 {
            buf.live(self.totals.objects, self.totals.live);
        } else {
            buf.agrees();
        }
    }
}

/// Appends the rows of one goroutine's answers.
fn add_rows(g: u32, answers: &[(u32, Answer)], rows: &mut Vec<Row>)
    requires few { length answers.now < 2 ^ 32 }
    requires room { length rows.old.items + length (answers_by g answers.now) ≤ vec_capacity rows.old }
    ensures rows { rows.new.items ≡ rows.old.items ++ rows_from g 1 (answers_by g answers.now) }
    ensures capacity { vec_capacity rows.new ≡ vec_capacity rows.old }
{
    let mut n = 0;
    for (h, answer) in answers {
        if *h == g {
            n += 1;
            if has_line(answer) {
                rows.push_reserved(Row {
                    g,
                    n,
                    answer: *answer,
                });
            }
        }
    }
}
