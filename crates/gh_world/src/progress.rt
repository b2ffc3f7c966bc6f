//! How far a processor is among its turns.

ghost use Rattle.std.specs.Prelude.{◌≡◌, ℕ, ◌+◌, ◌++◌, ◌^◌, ◌<◌, [], slice_index, false, vec_len, IsTrue, Some, None, if◌then◌else◌};
ghost use Rattle.std.specs.Vec.{vec_capacity};
ghost use Rattle.gh_base.specs.Packing.{bit};
ghost use Rattle.gh_base.specs.declared.limits.TheConstants.{MOST_GOROUTINES};
ghost use Rattle.gh_mutator.specs.Serving.{is_statement};
ghost use Rattle.gh_world.specs.Turns.{its_goroutine, leave_is_begun, is_poll_due, is_run_due, later, next_point, op_due, to_come, turns_of, Follows};
ghost use Rattle.gh_world.specs.World.{now_of, opening_progress, progress_after, AreTurns};

use crate::turns::{Next, due, following, next_turn};
use gh_base::Op;
use gh_base::limits::MOST_GOROUTINES;
use gh_script::Script;

/// How far a processor is among its turns: what it begins next, and how many statements it has begun.
///
/// Whoever runs a processor begins what is [`due`](Progress::due) where nothing is begun, on whatever words, and notes that by
/// [`advance`](Progress::advance). So all that it begins are its turns, in their order.
#[derive(Drop)]
pub struct Progress {
    // What it begins next.
    pub next: Next,
    // How many statements of each goroutine have begun, and how many of all.
    pub begun: [u32; MOST_GOROUTINES as usize],
    pub stated: u32,
    // The goroutine of the statement begun last.
    pub last: u32,
}

/// The goroutine of a statement; none for a step of the processor's own.
fn statement_goroutine(op: Op) -> Option<u32>
    ensures { result ≡ (if is_statement op then Some (its_goroutine op) else None) }
{
    match op {
        Op::New { g, .. }
        | Op::Load { g, .. }
        | Op::Store { g, .. }
        | Op::GetGlobal { g, .. }
        | Op::SetGlobal { g, .. }
        | Op::Int { g, .. }
        | Op::Move { g, .. }
        | Op::Nil { g, .. }
        | Op::Gc { g } => Some(g),
        Op::Poll | Op::End(_) | Op::Leave => None,
    }
}

impl Progress {
    /// Before the first turn of the processor at this seat.
    pub fn opening(script: &Script, seat: u32) -> Progress
        ensures is { result ≡ opening_progress result.next }
        ensures come { to_come script.now seat result.next ≡ later script.now seat 0 0 }
        ensures all { to_come script.now seat result.next ≡ turns_of script.now seat }
        ensures turns { AreTurns script.now seat result }
        ensures going { leave_is_begun result.next ≡ false }
    {
        Progress {
            next: next_turn(script, seat, 0, 0),
            begun: [0; MOST_GOROUTINES as usize],
            stated: 0,
            last: 0,
        }
    }

    /// What the processor begins next. None: it has begun its leave, and nothing is to come.
    #[inline(always)]
    pub fn due(&self, script: &Script) -> Option<Op>
        requires { (seat : ℕ) × AreTurns script.now seat self.now }
        ensures due { result ≡ op_due script.now self.now.next }
        ensures none { result ≡ None → (seat : ℕ) → to_come script.now seat self.now.next ≡ [] }
    {
        due(script, self.next)
    }

    /// Notes that the processor at this seat has begun what was due: it goes on to the turn behind that, and counts a
    /// statement.
    #[inline(always)]
    pub fn advance(&mut self, script: &Script, seat: u32, op: Op)
        requires turns { AreTurns script.now seat self.old }
        requires due { op_due script.now self.old.next ≡ Some op }
        ensures turns { AreTurns script.now seat self.new }
        ensures follows { Follows script.now seat self.old.next op self.new.next }
        ensures polled { is_run_due self.new.next ≡ is_poll_due self.old.next }
        ensures counted { self.new ≡ progress_after self.old (Some op) self.new.next }
    {
        script.is_well_formed();
        self.next = following(script, seat, self.next);
        self.count(op);
    }

    /// Counts an operation that has begun, where it is a statement.
    fn count(&mut self, op: Op)
        requires there { IsTrue (is_statement op) → its_goroutine op < MOST_GOROUTINES }
        requires few { slice_index self.old.begun (its_goroutine op) + 1 < 2 ^ 32 }
        requires fits { self.old.stated + 1 < 2 ^ 32 }
        ensures { self.new ≡ progress_after self.old (Some op) self.old.next }
    {
        if let Some(g) = statement_goroutine(op) {
            self.begun[g as usize] += 1;
            self.stated += 1;
            self.last = g;
        }
    }

    /// The goroutine and the number of the statement begun last.
    pub fn now(&self) -> (u32, u32)
        requires { self.now.last < MOST_GOROUTINES }
        ensures { result ≡ now_of self.now }
    {
        (self.last, self.begun[self.last as usize])
    }
}

/// Notes that the statement has its point.
pub fn note(points: &mut Vec<(u32, u32)>, statement: (u32, u32), is_point: bool)
    requires { IsTrue is_point → vec_len points.old < vec_capacity points.old }
    ensures points { points.new.items ≡ points.old.items ++ next_point is_point statement }
    ensures count { vec_len points.new ≡ vec_len points.old + bit is_point }
    ensures reserved { vec_capacity points.new ≡ vec_capacity points.old }
{
    if is_point {
        points.push_reserved(statement);
    }
}
