//! The lines of the language by their first words.

/// A setting of a script.
#[derive(Clone, Copy, Debug, PartialEq, Eq)]
pub enum Setting {
    Procs,
    Workers,
    Arena,
    Globals,
    Gogc,
    Minheap,
}

/// What a line is, as its first word says.
#[derive(Clone, Copy, Debug, PartialEq, Eq)]
pub enum Key {
    Setting(Setting),
    Type,
    Go,
    Repeat,
    End,
    New,
    Load,
    Store,
    GetGlobal,
    SetGlobal,
    Int,
    Move,
    Nil,
    Gc,
}
