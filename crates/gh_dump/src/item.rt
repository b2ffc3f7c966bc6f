//! What one line of a dump says.

use crate::name::{Name, Reference};

/// A line of a dump.
#[derive(Clone, Copy, Debug)]
pub enum Item {
    /// `global k ref X`: what the global holds.
    Global(u32, Reference),
    /// `object NAME bytes B rank r global k`: an object, its slot's bytes, its rank, and the global that names it.
    ObjectByGlobal(Name, u32, u32, u32),
    /// `object NAME bytes B rank r parent NAME field i`: an object, its slot's bytes, its rank, and its
    /// parent with the field that names it.
    ObjectByParent(Name, u32, u32, Name, u32),
    /// `field i ref X`: what the field holds of the object whose line stands last before.
    Field(u32, Reference),
    /// `total N bytes B`: how many objects there are, and the bytes of all.
    Total(u32, u32),
}
