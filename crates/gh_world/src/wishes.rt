//! How many cycles a script may ask for.

ghost use Rattle.std.specs.Prelude.{◌≡◌, ◌+◌, ◌*◌, ◌<◌, ◌≤◌, length};
ghost use Rattle.gh_script.specs.Limits.{most_statements};
ghost use Rattle.gh_world.specs.Wishes.{may_ask, most_cycles, wishes_of};

use gh_script::{Script, Stmt};

/// The statement may ask for a cycle.
fn may_ask(statement: Stmt) -> bool
    ensures { result ≡ may_ask statement }
{
    matches!(statement, Stmt::New { .. } | Stmt::Gc)
}

/// How many statements of goroutine `g` may ask for a cycle: its `new` and its `gc`.
pub fn wishes_of(script: &Script, g: u32) -> u32
    requires { g < length script.now.goroutines }
    ensures { result ≡ wishes_of script.now g }
{
    script.is_well_formed();
    let mut wishes = 0;
    for n in 0..script.count(g) {
        match script.statement(g, n + 1) {
            Some(statement) => {
                if may_ask(statement) {
                    wishes += 1;
                }
            }
            None => {}
        }
    }
    wishes
}

/// How many cycles a run of the script has at most: each but the last is asked for, and a statement asks
/// for two at most.
pub fn most_cycles(script: &Script) -> u32
    ensures is { result ≡ most_cycles script.now }
    ensures few { result ≤ 2 * most_statements + 1 }
{
    script.is_well_formed();
    let mut wishes = 0;
    for g in 0..script.goroutines() {
        wishes += wishes_of(script, g);
    }
    2 * wishes + 1
}
