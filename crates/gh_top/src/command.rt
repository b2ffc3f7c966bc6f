//! The call that the program makes.

ghost use Rattle.std.specs.Prelude.{◌≡◌, ◌⊎◌, ℕ, IfSome, ◌≤◌, List, None, Some};
ghost use Rattle.std.specs.Io.KnownBytes.{Appends};
ghost use Rattle.gh_io.specs.Counts.{Rose};
ghost use Rattle.gh_script.specs.Program.{Program};
ghost use Rattle.gh_script.specs.Grammar.{Spells};
ghost use Rattle.gh_command.specs.CommandLine.{texts};
ghost use Rattle.gh_top.specs.Outcome.{ComesTo, Ends, IsForThreads, IsRun, IsSoak, ReadsText, streams};
ghost use Rattle.gh_command.specs.declared.line.Line.TheVariants.{Soak};

use crate::finding::find;
use crate::saying::tell;
use crate::status::Status;
use crate::threads::find_by_threads;
use gh_dump::{accepted_texts_certify, one_verdict};
use gh_gate::{Gate, Spawner};
use gh_io::{Sink, Source};
use gh_replay::one_outcome;
use gh_script::one_reading;
use gh_soak::what_is_live_is_one;
use std::alloc::Global;
use std::sync::Wait;
use std::thread;

/// Runs the command where it asks for no threads, and so does not wait: `None` exactly where the words ask for `run` or
/// `soak`, and then nothing was read or written.
///
/// `words` begins with the program's name. `replay` has at most
/// one each of `--seed n` and `--list text`, which say who steps when, `--budget n`, the most atomic steps
/// that all actors together may make (1 to 1,000,000,000, and 50,000,000 where the words say nothing), and
/// `--check`, by which the heap that never frees is run beside the script.
/// It reads a script from `src`, and runs its goroutines in turns on its processors, among workers and a
/// coordinator, which collect garbage: where the words say nothing of who steps, each of these actors makes a
/// step in its turn. It writes the lines of the answers to `out`, goroutine by goroutine, then those of the
/// cycles, the one of the credit and the one of what is live at the end; and with `--check` one line more, `agrees`, whatever the script
/// and whoever steps when: that is all that a check has to say.
///
/// `gen --seed n --size n` reads nothing, and writes the text of the script of this seed and this size (4 to 200,000), which
/// has 4 · (size / 4) statements.
///
/// `verify` reads a dump of a heap, and writes `reachable n` where no line of it has a cause: then its `n` objects are exactly those
/// that its globals reach by its fields. Else it writes `line l: why`, the first line that has one and its first cause. It reads
/// at most 268,435,457 bytes, which is one more than a dump may have.
///
/// A command line that is not taken, one whose list is none
/// among them, a text that is no script and a run that is not over within its budget are told in one line. Of a script it
/// reads at most 4,194,305 bytes, which is one more than one may have. Nothing is written before the run
/// has ended, and each line of a run is written as one piece, the rest of it again until it is taken.
pub fn quiet<S: Source, K: Sink>(
    alloc: Global,
    words: &[&str],
    src: &mut S,
    out: &mut K,
) -> Option<Status>
    // How it ended, and what it wrote: each with its cause.
    ensures ends { IfSome result (Ends (texts words.now)
        (streams (S.left src.old) (S.faults src.old) (K.taken out.old) (K.faults out.old))
        (streams (S.left src.new) (S.faults src.new) (K.taken out.new) (K.faults out.new))) }
    // Words that ask for no text to be read, those that are refused among them, have nothing read.
    ensures unread { ¬ ReadsText (texts words.now) → src.new ≡ src.old }
    ensures none { result ≡ None → IsForThreads (texts words.now) × (src.new ≡ src.old) × (out.new ≡ out.old) }
    ensures none_exactly { IsForThreads (texts words.now) → (result ≡ None) ⊎ (result ≡ Some Status.NoMemory) }
{
    one_reading();
    one_outcome();
    one_verdict();
    accepted_texts_certify();
    let found = find(alloc, words, src)?;
    Some(tell(&found, out))
}

/// Runs the command. It begins with [`quiet`], which does all that asks for no threads.
///
/// `run` reads a script, as `replay` does, runs each of its actors in a thread of its own, which `sp` starts, and writes the
/// same lines. `soak --seed n --size n` reads nothing, runs the script that `gen` writes by threads, and writes two lines: how
/// many statements that has, and what is live at the end. Whoever stepped when, these are the same two. The actors are held
/// by the gate between their steps. Nothing is written before all threads have ended, and where no threads can be had or
/// memory runs out `sp` runs no jobs. A call that runs threads may wait.
pub fn top<R: thread::Threads + Wait + Sync, S: Source, K: Sink, G: Gate + Sync, P: Spawner>(
    rt: &R,
    alloc: Global,
    words: &[&str],
    src: &mut S,
    out: &mut K,
    gate: &G,
    sp: &mut P,
) -> Status
    // How it ended, and what it wrote: each with its cause.
    ensures ends { Ends (texts words.now)
        (streams (S.left src.old) (S.faults src.old) (K.taken out.old) (K.faults out.old))
        (streams (S.left src.new) (S.faults src.new) (K.taken out.new) (K.faults out.new)) result }
    ensures unread { ¬ ReadsText (texts words.now) → src.new ≡ src.old }
    // A script that is read without a fault, and whose threads can be had, is run and told.
    ensures run_complete { (text : List ℕ) (p : Program) → S.left src.old ≡ Some text → IsRun (texts words.now) → Spells text p →
        ¬ Rose (S.faults src.old) (S.faults src.new) → ¬ Rose (K.faults out.old) (K.faults out.new) → ¬ Rose (P.faults sp.old) (P.faults sp.new) →
        (result ≡ Status.Ok) ⊎ (result ≡ Status.NoMemory) }
    ensures soak_complete { (seed size : ℕ) → IsSoak (texts words.now) seed size →
        ¬ Rose (K.faults out.old) (K.faults out.new) → ¬ Rose (P.faults sp.old) (P.faults sp.new) →
        (result ≡ Status.Ok) ⊎ (result ≡ Status.NoMemory) }
    // There is one text that a run of this seed and this size can come to, and the sink took it.
    ensures soak_is_one { (seed size : ℕ) (text written : List ℕ) → IsSoak (texts words.now) seed size → result ≡ Status.Ok →
        ComesTo (Soak seed size) text Status.Ok written → Appends (K.taken out.old) (K.taken out.new) written }
    // What is told of threads was run by them.
    ensures ran { IsForThreads (texts words.now) → result ≡ Status.Ok → Rose (P.ran sp.old) (P.ran sp.new) }
    // Where the call ends otherwise, and no write failed, the spawner ran no jobs.
    ensures none_ran { ¬ (result ≡ Status.Ok) → ¬ (result ≡ Status.WriteFault) → P.ran sp.new ≡ P.ran sp.old }
    // A spawner that refuses runs nothing.
    ensures refused { P.refuses sp.old → IsForThreads (texts words.now) → result ≡ Status.Ok → ⊥ }
    ensures no_thread { result ≡ Status.NoThread → Rose (P.faults sp.old) (P.faults sp.new) }
    ensures faults_never_fall { P.faults sp.old ≤ P.faults sp.new }
    ensures ran_never_falls { P.ran sp.old ≤ P.ran sp.new }
{
    if let Some(status) = quiet(alloc, words, src, out) {
        return status;
    }
    one_reading();
    one_outcome();
    one_verdict();
    accepted_texts_certify();
    what_is_live_is_one();
    let found = find_by_threads(rt, alloc, words, src, gate, sp);
    tell(&found, out)
}
