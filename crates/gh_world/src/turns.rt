//! The turns of a processor: round after round each of its goroutines that has not ended polls, and then
//! runs its next statement, or ends where it has none left. At last the processor leaves.

ghost use Rattle.std.specs.Prelude.{◌≡◌, ℕ, ◌+◌, ◌-◌, ◌^◌, ◌<◌, ◌≤◌, [], ◌∷◌, length, false, IfSome, Some, None, MatchOption};
ghost use Rattle.std.specs.List.{flat_map, range_with_len};
ghost use Rattle.gh_base.specs.declared.operation.Op.{Op};
ghost use Rattle.gh_base.specs.declared.operation.Op.TheVariants as ops;
ghost use Rattle.gh_interp.specs.Working.{work_of};
ghost use Rattle.gh_world.specs.Turns.{has_turn, later, op_due, to_come, total_of, turn_of, leave_is_begun, is_poll_due, is_run_due, Follows, HasTurn, IsPast, MayBeOver, Stands};

use gh_base::{Op, modulo};
use gh_interp::work;
use gh_script::Script;

/// What the processor begins next.
#[derive(Clone, Copy, Debug, PartialEq, Eq)]
pub enum Next {
    /// The poll of goroutine `g` in a round, from 0.
    Poll { round: u32, g: u32 },
    /// The statement of goroutine `g` in a round, or its end.
    Run { round: u32, g: u32 },
    /// Its leave.
    Leave,
    /// Nothing.
    Over,
}

/// Goroutine `g` is of the processor at this seat, and has not ended before the round.
fn has_turn(script: &Script, seat: u32, round: u32, g: u32) -> bool
    requires { g < length script.now.goroutines }
    ensures { result ≡ has_turn script.now seat round g }
{
    script.is_well_formed();
    modulo(g, script.settings().procs) == seat && round <= script.count(g)
}

/// The first goroutine from `g` on that has a turn of the processor at this seat in the round.
fn first_turn(script: &Script, seat: u32, round: u32, g: u32) -> Option<u32>
    requires { g ≤ length script.now.goroutines }
    ensures stands { IfSome result (λ h. (g ≤ h) × HasTurn script.now seat round h) }
    ensures turns { MatchOption result
        (flat_map (turn_of script.now seat round) (range_with_len g (length script.now.goroutines - g)) ≡ [])
        (λ h. flat_map (turn_of script.now seat round) (range_with_len g (length script.now.goroutines - g)) ≡
        ops.Poll ∷ work_of script.now round h ∷ flat_map (turn_of script.now seat round) (range_with_len (h + 1) (length script.now.goroutines - (h + 1)))) }
{
    for h in g..script.goroutines() {
        if has_turn(script, seat, round, h) {
            return Some(h);
        }
    }
    None
}

/// The first turn of the processor at this seat, from that of goroutine `g` in the round on.
pub fn next_turn(script: &Script, seat: u32, round: u32, g: u32) -> Next
    requires goroutine { g ≤ length script.now.goroutines }
    requires round { round ≤ total_of script.now }
    requires fits { round + 1 < 2 ^ 32 }
    ensures come { to_come script.now seat result ≡ later script.now seat round g }
    ensures stands { Stands script.now seat result }
    ensures over { (h : ℕ) → IsPast script.now round g h → MayBeOver script.now result h }
    ensures going { leave_is_begun result ≡ false }
    ensures polls { is_run_due result ≡ false }
{
    if let Some(g) = first_turn(script, seat, round, g) {
        return Next::Poll { round, g };
    }
    match first_turn(script, seat, round + 1, 0) {
        Some(g) => Next::Poll {
            round: round + 1,
            g,
        },
        None => Next::Leave,
    }
}

/// What the processor at some seat begins next.
pub fn due(script: &Script, next: Next) -> Option<Op>
    requires { (seat : ℕ) × Stands script.now seat next }
    ensures { result ≡ op_due script.now next }
{
    script.is_well_formed();
    match next {
        Next::Poll { .. } => Some(Op::Poll),
        Next::Run { round, g } => Some(work(script, round, g)),
        Next::Leave => Some(Op::Leave),
        Next::Over => None,
    }
}

/// The turn behind this one, of the processor at this seat. A statement comes behind a poll alone.
pub fn following(script: &Script, seat: u32, next: Next) -> Next
    requires { Stands script.now seat next }
    ensures follows { (o : Op) → op_due script.now next ≡ Some o → Follows script.now seat next o result }
    ensures polled { is_run_due result ≡ is_poll_due next }
{
    script.is_well_formed();
    match next {
        Next::Poll { round, g } => Next::Run { round, g },
        Next::Run { round, g } => next_turn(script, seat, round, g + 1),
        Next::Leave | Next::Over => Next::Over,
    }
}

/// How many statements the goroutines of the script have, all together.
pub fn total_of(script: &Script) -> usize
    ensures { result ≡ total_of script.now }
{
    script.is_well_formed();
    let mut total = 0;
    for g in 0..script.goroutines() {
        total += script.count(g) as usize;
    }
    total
}
