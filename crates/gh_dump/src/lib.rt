//! Dumps of a heap, as certificates.
//!
//! A dump is a text that lists what stands in a heap: the globals that are not nil, the objects, each
//! with its pointer fields that are not nil, and how many objects there are. An object says why it is
//! there: a global names it, or the field of another object does, its parent, and then its rank is one
//! more than its parent's. A rank falls with each step from an object to its parent, so the steps
//! end, and they end at a global: what is listed is reached. Each global and each field names an object
//! that is listed: what is reached is listed. So a text in which each line is right is a certificate
//! that it lists exactly what its globals reach, and [`verify`] needs no walk from object to object to
//! see it.
//!
//! Nothing here knows of the collector or of the heap that never frees, so a certificate rests on
//! neither.
#![tactic(auto)]

mod before;
mod cause;
mod fault;
mod index;
mod item;
mod laws;
mod line;
mod name;
mod reading;
mod spelled;

pub use fault::{DumpFault, DumpWhy, VerifyError};
pub use item::Item;
pub use laws::{accepted_texts_certify, letters_tell_names, one_verdict};
pub use name::{Name, Reference};
pub use reading::{MOST_DUMP_BYTES, verify};
