//! The definitions that the crates above are proved against.
//!
//! A heap that never frees says what a script means: it has names and paths, and no addresses,
//! marks, spans, phases or frees. What the collector does is right exactly where no script can
//! tell the two apart. The definitions stand in this crate's `specs/`; it has no code but the
//! type of that heap's values.
#![tactic(auto)]

use gh_base::Name;

/// A value of the heap that never frees.
#[derive(Clone, Copy, Debug, PartialEq, Eq)]
pub enum EverValue {
    /// No object.
    Nil,
    /// A number.
    Int(u64),
    /// The object of this name.
    Ref(Name),
}
