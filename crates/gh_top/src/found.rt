//! What a call finds before it writes anything: its words are looked at, its text is read or generated, and its
//! script run, or its dump verified.
//!
//! Nothing here writes, and nothing that writes (`saying.rt`) reads or takes memory. So what is written
//! is settled before the first byte of it goes out.

use gh_dump::DumpFault;
use gh_replay::Report;
use gh_script::{Script, ScriptFault};

/// What was found.
#[derive(Drop)]
pub enum Found {
    /// The command line is not taken. Nothing was read.
    BadWords,
    /// The text spells no script.
    BadScript(ScriptFault),
    /// The script was run, by a schedule or by threads, and this is the report of it.
    Ran(Script, Report),
    /// The script's run took so many turns, which is the budget, and is not over.
    OutOfTurns(u64),
    /// This script was generated. Nothing was read.
    Generated(Vec<u8>),
    /// A generated script of so many statements was run by threads, and so much is live at the end. Nothing was read.
    Soaked {
        statements: u32,
        objects: u64,
        bytes: u64,
    },
    /// No line of the dump has a cause. It lists so many objects.
    Verified(u32),
    /// A line of the dump has a cause.
    BadDump(DumpFault),
    /// A read failed.
    ReadFault,
    /// No threads could be had, and no actor has made a step.
    NoThread,
    /// Memory ran out.
    NoMemory,
}
