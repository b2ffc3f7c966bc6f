//! How a call of the program ends.

ghost use Rattle.std.specs.Prelude.{◌≡◌};

/// How a call ended, by the first cause in this order: the words are not taken, a read failed, the text
/// is no script or, of words that verify, no dump, no threads could be had or the turns ran out. Where a write of what is then to be said failed, it is `WriteFault`
/// in their place, and in that of `Ok`. Memory may run out at any point before the run begins.
#[derive(Clone, Copy, Debug, PartialEq, Eq)]
pub enum Status {
    /// All that there was to say was taken. For `run` and `replay` the source was read to its end, and its script was
    /// run; for `verify` it was read to its end, and no line of its text has a cause; for `soak` a generated script was run. `gen` and
    /// `soak` read nothing.
    Ok,
    /// The command does not take the words. Nothing was read, and the line `words refused` was taken.
    BadWords,
    /// The text spells no script. Its line `line n: why` was taken.
    BadScript,
    /// A read failed. Nothing was written.
    ReadFault,
    /// A write failed. The sink has taken the beginning of what there was to say.
    WriteFault,
    /// Memory ran out, before an actor made its first step. Nothing was written.
    NoMemory,
    /// No threads could be had for a run, and no actor has made a step. Nothing was written.
    NoThread,
    /// So many turns as the budget has were taken, and the script's run is not over. `turns n` was taken.
    OutOfTurns,
    /// A line of the text has a cause, so it is no dump. Its line `line n: why` was taken.
    BadDump,
}

impl Status {
    ghost use Rattle.std.specs.Prelude.{◌≡◌};
    ghost use Rattle.gh_top.specs.Outcome.{code_of};

    /// The status of the process: 0 and 2 to 9, in the order above.
    pub fn code(&self) -> u8
        ensures { result ≡ code_of self.now }
    {
        match self {
            Status::Ok => 0,
            Status::BadWords => 2,
            Status::BadScript => 3,
            Status::ReadFault => 4,
            Status::WriteFault => 5,
            Status::NoMemory => 6,
            Status::NoThread => 7,
            Status::OutOfTurns => 8,
            Status::BadDump => 9,
        }
    }
}
