//! A statement as an operation, and what a goroutine does next.

ghost use Rattle.std.specs.Prelude.{◌≡◌, ◌+◌, ◌^◌, ◌<◌, length};
ghost use Rattle.gh_script.specs.Program.{statement_as_op};
ghost use Rattle.gh_interp.specs.Working.{work_of};

use gh_base::Op;
use gh_script::{Script, Stmt};

/// The statement as an operation of goroutine `g`: the same registers, type, field, global and number.
/// No statement is one of the processor's own steps, `Poll`, `End` and `Leave`.
pub fn operation(g: u32, statement: Stmt) -> Op
    ensures { result ≡ statement_as_op g statement }
{
    match statement {
        Stmt::New { d, t } => Op::New { g, d, t },
        Stmt::Load { d, b, k } => Op::Load { g, d, b, k },
        Stmt::Store { b, k, v } => Op::Store { g, b, k, v },
        Stmt::GetGlobal { d, k } => Op::GetGlobal { g, d, k },
        Stmt::SetGlobal { k, v } => Op::SetGlobal { g, k, v },
        Stmt::Int { d, n } => Op::Int { g, d, n },
        Stmt::Move { d, s } => Op::Move { g, d, s },
        Stmt::Nil { d } => Op::Nil { g, d },
        Stmt::Gc => Op::Gc { g },
    }
}

/// What goroutine `g` does in a round, counted from 0: its statement number `round + 1`,
/// repetitions written out, or [`Op::End`] where it has no such statement.
pub fn work(script: &Script, round: u32, g: u32) -> Op
    requires goroutine { g < length script.now.goroutines }
    requires fits { round + 1 < 2 ^ 32 }
    ensures { result ≡ work_of script.now round g }
{
    match script.statement(g, round + 1) {
        Some(statement) => operation(g, statement),
        None => Op::End(g),
    }
}
