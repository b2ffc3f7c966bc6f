//! Objects: the name and the type of each that was made.

use gh_base::Name;
use std::collections::HashMap;

/// An object that was made.
#[derive(Clone, Copy, Debug)]
pub struct Object {
    /// Its name.
    pub name: Name,
    /// The number of its type.
    pub kind: u32,
}

/// The type of each object, by the two numbers of its name.
pub type Kinds = HashMap<(u32, u32), u32>;
