//! Names, values and answers.

/// An object's name: the `k`-th object that goroutine `g` made, both counted from 0. A name is
/// never used again.
#[derive(Clone, Copy, Debug, PartialEq, Eq)]
pub struct Name {
    /// The goroutine, by its place in the script.
    pub g: u32,
    /// How many objects that goroutine had made before.
    pub k: u32,
}

/// What a register or a field of the heap holds.
#[derive(Clone, Copy, Debug, PartialEq, Eq)]
pub enum Value {
    /// No reference.
    Nil,
    /// A number.
    Int(u64),
    /// A reference: the index of the object's first heap word, plus 1.
    Ref(u64),
}

/// Why a statement did nothing.
#[derive(Clone, Copy, Debug, PartialEq, Eq)]
pub enum Fault {
    /// The base register holds nil or a number.
    NilBase,
    /// The object's slot has no such word.
    Field,
    /// A pointer field or a global meets a number, or a number field meets nil or a reference.
    Kind,
}

/// What a statement answers.
#[derive(Clone, Copy, Debug, PartialEq, Eq)]
pub enum Answer {
    /// It was done.
    Done,
    /// It found nil.
    Nil,
    /// It found this number.
    Int(u64),
    /// It made or found this object.
    Ref(Name),
    /// A whole cycle, its sweep included, has run since the statement began.
    Swept,
    /// There was no room for the object.
    Full,
    /// It did nothing, for this reason.
    Fault(Fault),
}
