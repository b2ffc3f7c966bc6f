//! Answers, each with its goroutine.

ghost use Rattle.std.specs.Prelude.{◌≡◌, ◌+◌, ◌++◌, ◌<◌, ◌≤◌, IsTrue, length, Some, None, if◌then◌else◌};
ghost use Rattle.std.specs.Vec.{vec_capacity};
ghost use Rattle.gh_lines.specs.Text.{answers_by};
ghost use Rattle.gh_mutator.specs.Serving.{is_statement};
ghost use Rattle.gh_run.specs.Jobs.{answer_among, of_goroutine, told};
ghost use Rattle.gh_world.specs.Turns.{its_goroutine};

use gh_base::{Answer, Op};

/// The goroutine of a statement; none for a step of the processor's own.
fn statement_goroutine(op: Op) -> Option<u32>
    ensures { result ≡ (if is_statement op then Some (its_goroutine op) else None) }
{
    match op {
        Op::New { g, .. }
        | Op::Load { g, .. }
        | Op::Store { g, .. }
        | Op::GetGlobal { g, .. }
        | Op::SetGlobal { g, .. }
        | Op::Int { g, .. }
        | Op::Move { g, .. }
        | Op::Nil { g, .. }
        | Op::Gc { g } => Some(g),
        Op::Poll | Op::End(_) | Op::Leave => None,
    }
}

/// Keeps the answer of an operation, where it is a statement.
pub fn keep(answers: &mut Vec<(u32, Answer)>, op: Op, answer: Answer)
    requires { IsTrue (is_statement op) → length answers.old.items < vec_capacity answers.old }
    ensures kept { answers.new.items ≡ answers.old.items ++ told op answer }
    ensures reserved { vec_capacity answers.new ≡ vec_capacity answers.old }
{
    if let Some(g) = statement_goroutine(op) {
        answers.push_reserved((g, answer));
    }
}

/// What statement `n` of goroutine `g` was answered, counted from 1.
pub fn answer_among(answers: &[(u32, Answer)], g: u32, n: u32) -> Option<Answer>
    ensures { result ≡ answer_among answers.now g n }
{
    if n == 0 {
        return None;
    }
    let mut left = n - 1;
    for i in 0..answers.len() {
        if answers[i].0 == g {
            if left == 0 {
                return Some(answers[i].1);
            }
            left -= 1;
        }
    }
    None
}

/// Appends what goroutine `g` was answered.
pub fn add_answers(g: u32, from: &[(u32, Answer)], answers: &mut Vec<(u32, Answer)>)
    requires { length answers.old.items + length (answers_by g from.now) ≤ vec_capacity answers.old }
    ensures added { answers.new.items ≡ answers.old.items ++ of_goroutine g (answers_by g from.now) }
    ensures reserved { vec_capacity answers.new ≡ vec_capacity answers.old }
{
    for (h, answer) in from {
        if *h == g {
            answers.push_reserved((g, *answer));
        }
    }
}
