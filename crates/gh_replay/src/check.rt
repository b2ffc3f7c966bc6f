//! The heap that never frees beside a run: it is given the run's statements in the order of their points, and what
//! it answers is compared with what the run answered.
//!
//! Answers stand in the order in which statements end, and points in that in which they act, which is another where
//! there are several processors. So each goroutine has a place among the answers, from which on its next one is looked
//! for. Only `full` is taken over from the run, since the heap that never frees has room for each object. The ends of
//! goroutines have no point of a statement, and change no answer: they come behind all statements.
//!
//! Whatever the run, each answer agrees, and behind it the heap is the one that the run's list leaves.

ghost use Rattle.std.specs.Prelude.{◌≡◌, ◌+◌, ◌<◌, ◌==◌, ◌↔◌, if◌then◌else◌, ℕ, List, [], ◌∷◌, drop, length, is_some, slice_get, true, Some, None, IfSome};
ghost use Rattle.gh_base.specs.declared.limits.TheConstants.{MOST_GOROUTINES};
ghost use Rattle.gh_base.specs.declared.operation.Op.{Op};
ghost use Rattle.gh_ever.specs.Applied.{given_answer, IsDue, spent};
ghost use Rattle.gh_ever.specs.Lists.{ever_of};
ghost use Rattle.gh_lines.specs.Text.{answers_by};
ghost use Rattle.gh_model.specs.Ever.{ever_after};
ghost use Rattle.gh_replay.specs.Check.{answers_untaken, AreAlong, AreOpeningLists, ever_at_end, HaveStatements};
ghost use Rattle.gh_lists.specs.Order.{Answered};
ghost use Rattle.gh_world.specs.Points.{ever_along, op_at_point, with_ends};

use gh_base::Answer;
use gh_base::limits::MOST_GOROUTINES;
use gh_ever::Ever;
use gh_script::Script;

/// The answers of a run, of which each goroutine's are taken one by one.
#[derive(Drop)]
pub struct Told<'a> {
    answers: &'a [(u32, Answer)],
    // From where on those of each goroutine are still to be taken.
    places: [usize; MOST_GOROUTINES as usize],
}

/// Where the first answer of goroutine `g` stands, from this place on.
fn answer_index(answers: &[(u32, Answer)], g: u32, from: usize) -> Option<usize>
    ensures none { result ≡ None → answers_by g (drop from answers.now) ≡ [] }
    ensures within { IfSome result (λ i. i < length answers.now) }
    ensures some { IfSome result (λ i. (x : ℕ × Answer) → slice_get answers.now i ≡ Some x → answers_by g (drop from answers.now) ≡ x.1 ∷ answers_by g (drop (i + 1) answers.now)) }
{
    for i in from..answers.len() {
        if answers[i].0 == g {
            return Some(i);
        }
    }
    None
}

impl<'a> Told<'a> {
    /// All of them.
    fn opening(answers: &'a [(u32, Answer)]) -> Told<'a>
        ensures { (g : ℕ) → answers_untaken result g ≡ answers_by g answers.now }
    {
        Told {
            answers,
            places: [0; MOST_GOROUTINES as usize],
        }
    }

    /// The next answer of goroutine `g`, where there is one more.
    fn take(&mut self, g: u32) -> Option<Answer>
        requires { g < MOST_GOROUTINES }
        ensures first { result ≡ slice_get (answers_untaken self.old g) 0 }
        ensures rest { (h : ℕ) → answers_untaken self.new h ≡ (if h == g then drop 1 (answers_untaken self.old h) else answers_untaken self.old h) }
    {
        let i = answer_index(self.answers, g, self.places[g as usize])?;
        self.places[g as usize] = i + 1;
        Some(self.answers[i].1)
    }
}

/// Statement `n` of goroutine `g`, which was told this answer: whether the heap that never frees answers it so.
fn agrees_at(ever: &mut Ever, script: &Script, g: u32, n: u32, told: Answer) -> bool
    requires there { g < length script.now.goroutines }
    requires due { IsDue ever.old g }
    requires shapes { ever.old.shapes ≡ script.now.shapes }
    ensures agrees { (o : Op) → op_at_point script.now (g, n) ≡ Some o →
        (result ≡ true) ↔ (given_answer script.now.shapes (ever_of ever.old) o (Some told) ≡ told) }
    ensures after { (o : Op) → op_at_point script.now (g, n) ≡ Some o →
        ever_of ever.new ≡ ever_after script.now.shapes (ever_of ever.old) o (given_answer script.now.shapes (ever_of ever.old) o (Some told)) }
    ensures left { (o : Op) → op_at_point script.now (g, n) ≡ Some o → ever.new.left ≡ spent ever.old.left g }
    ensures shapes { ever.new.shapes ≡ ever.old.shapes }
{
    script.is_well_formed();
    match script.statement(g, n) {
        Some(statement) => ever.apply(g, &statement, Some(told)) == told,
        None => false,
    }
}

/// Runs the heap that never frees along the statements at these points: whether it answers all as they were answered.
fn agrees_along(
    ever: &mut Ever,
    script: &Script,
    points: &[(u32, u32)],
    answers: &[(u32, Answer)],
) -> bool
    requires opens { AreOpeningLists script.now ever.old }
    requires statements { HaveStatements script.now points.now answers.now }
    ensures agrees { result ≡ true }
    ensures ever { (xs : List Answered) → AreAlong script.now points.now answers.now xs → ever_of ever.new ≡ ever_along script.now.shapes xs }
    ensures many { length ever.new.left ≡ length script.now.goroutines }
{
    script.is_well_formed();
    let mut told = Told::opening(answers);
    for (g, n) in points {
        let agrees = match told.take(*g) {
            Some(answer) => agrees_at(ever, script, *g, *n, answer),
            None => false,
        };
        if !agrees {
            return false;
        }
    }
    true
}

/// All goroutines, of which there are so many, end.
fn end_all(ever: &mut Ever, goroutines: u32)
    requires { length ever.old.left ≡ goroutines }
    ensures { ever_of ever.new ≡ with_ends (ever_of ever.old) goroutines }
{
    for g in 0..goroutines {
        ever.end(g);
    }
}

/// The heap that never frees, where one is given, after the run of the script that had these points and these answers:
/// none where an answer differs. None differs, whatever the run.
pub fn run_beside(
    ever: Option<Ever>,
    script: &Script,
    points: &[(u32, u32)],
    answers: &[(u32, Answer)],
) -> Option<Ever>
    requires opens { IfSome ever (AreOpeningLists script.now) }
    requires statements { HaveStatements script.now points.now answers.now }
    ensures kept { is_some result ≡ is_some ever }
    ensures ever { (xs : List Answered) → AreAlong script.now points.now answers.now xs → IfSome result (λ lists. ever_of lists ≡ ever_at_end script.now xs) }
{
    let mut ever = ever?;
    if !agrees_along(&mut ever, script, points, answers) {
        return None;
    }
    end_all(&mut ever, script.goroutines());
    Some(ever)
}
