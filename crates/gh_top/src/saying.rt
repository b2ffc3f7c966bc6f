//! Writing what was found. Nothing here takes memory, and each line goes out as one piece.

ghost use Rattle.std.specs.Prelude.{◌≡◌, ◌⊎◌, ◌≤◌, ◌++◌, IsOk, OnOk, OnErr};
ghost use Rattle.std.specs.Io.KnownBytes.{Appends};
ghost use Rattle.gh_io.specs.Counts.{Rose};
ghost use Rattle.gh_io.specs.Streams.{TookPart};
ghost use Rattle.gh_replay.specs.Report.{is_checked, IsReportOf, replay_text};
ghost use Rattle.gh_lines.specs.Text.{live_line, statements_line};
ghost use Rattle.gh_top.specs.Found.{FoundIsWritten, IsCutOff, IsSilent, IsTellable, said_of, status_of};

use crate::found::Found;
use crate::status::Status;
use gh_io::laws::parts_are_of_both;
use gh_io::{Failed, Sink, write_all};
use gh_lines::LineBuf;
use gh_replay::Report;
use gh_script::Script;

/// Writes what there is to say of what was found: how the call ends then.
pub fn tell<K: Sink>(found: &Found, out: &mut K) -> Status
    requires { IsTellable found.now }
    ensures { FoundIsWritten found.now (K.taken out.old) (K.taken out.new) (K.faults out.old) (K.faults out.new) result
        ⊎ IsCutOff found.now (K.taken out.old) (K.taken out.new) (K.faults out.old) (K.faults out.new) result }
{
    match say(found, out) {
        Ok(()) => ending(found),
        Err(_) => Status::WriteFault,
    }
}

// How the call ends once what was found is written.
fn ending(found: &Found) -> Status
    ensures { result ≡ status_of found.now }
{
    match found {
        Found::BadWords => Status::BadWords,
        Found::BadScript(_) => Status::BadScript,
        Found::Ran(_, _) => Status::Ok,
        Found::OutOfTurns(_) => Status::OutOfTurns,
        Found::Generated(_) | Found::Soaked { .. } | Found::Verified(_) => Status::Ok,
        Found::BadDump(_) => Status::BadDump,
        Found::ReadFault => Status::ReadFault,
        Found::NoThread => Status::NoThread,
        Found::NoMemory => Status::NoMemory,
    }
}

// Writes what there is to say of what was found.
fn say<K: Sink>(found: &Found, out: &mut K) -> Result<(), Failed>
    requires { IsTellable found.now }
    ensures ok { OnOk result (Appends (K.taken out.old) (K.taken out.new) (said_of found.now)) }
    ensures part { OnErr result (TookPart (K.taken out.old) (K.taken out.new) (said_of found.now)) }
    ensures failed { OnErr result (Rose (K.faults out.old) (K.faults out.new)) }
    ensures no_fault { OnOk result (K.faults out.new ≡ K.faults out.old) }
    ensures never_falls { K.faults out.old ≤ K.faults out.new }
    ensures silent { IsSilent found.now → IsOk result × (out.new ≡ out.old) }
{
    match found {
        Found::BadWords => {
            let mut line = LineBuf::new();
            line.bad_words();
            write_all(out, line.bytes())
        }
        Found::BadScript(fault) => {
            let mut line = LineBuf::new();
            line.bad_script(fault.line, fault.why);
            write_all(out, line.bytes())
        }
        Found::Ran(script, report) => say_report(out, script, report),
        Found::OutOfTurns(turns) => {
            let mut line = LineBuf::new();
            line.turns(*turns);
            write_all(out, line.bytes())
        }
        Found::Generated(text) => write_all(out, text),
        Found::Soaked {
            statements,
            objects,
            bytes,
        } => say_soaked(out, *statements, *objects, *bytes),
        Found::Verified(objects) => {
            let mut line = LineBuf::new();
            line.reachable(*objects);
            write_all(out, line.bytes())
        }
        Found::BadDump(fault) => {
            let mut line = LineBuf::new();
            line.bad_text(fault.line, fault.why.word());
            write_all(out, line.bytes())
        }
        Found::ReadFault | Found::NoThread | Found::NoMemory => Ok(()),
    }
}

// The lines of the report, each as one piece.
fn say_report<K: Sink>(out: &mut K, script: &Script, report: &Report) -> Result<(), Failed>
    requires { IsReportOf script.now report.now }
    ensures ok { OnOk result (Appends (K.taken out.old) (K.taken out.new) (replay_text script.now report.now.outcome (is_checked report.now))) }
    ensures part { OnErr result (TookPart (K.taken out.old) (K.taken out.new) (replay_text script.now report.now.outcome (is_checked report.now))) }
    ensures failed { OnErr result (Rose (K.faults out.old) (K.faults out.new)) }
    ensures no_fault { OnOk result (K.faults out.new ≡ K.faults out.old) }
    ensures never_falls { K.faults out.old ≤ K.faults out.new }
{
    parts_are_of_both();
    let mut line = LineBuf::new();
    for i in 0..report.lines() {
        report.line(script, i, &mut line);
        write_all(out, line.bytes())?;
    }
    Ok(())
}

// How many statements were run, and how much is live at the end, each line as one piece.
fn say_soaked<K: Sink>(out: &mut K, statements: u32, objects: u64, bytes: u64) -> Result<(), Failed>
    ensures ok { OnOk result (Appends (K.taken out.old) (K.taken out.new) (statements_line statements ++ live_line objects bytes)) }
    ensures part { OnErr result (TookPart (K.taken out.old) (K.taken out.new) (statements_line statements ++ live_line objects bytes)) }
    ensures failed { OnErr result (Rose (K.faults out.old) (K.faults out.new)) }
    ensures no_fault { OnOk result (K.faults out.new ≡ K.faults out.old) }
    ensures never_falls { K.faults out.old ≤ K.faults out.new }
{
    parts_are_of_both();
    let mut line = LineBuf::new();
    line.statements(statements);
    write_all(out, line.bytes())?;
    line.live(objects, bytes);
    write_all(out, line.bytes())
}
