//! The grey work buffer that a machine holds.

/// A grey work buffer that a machine holds (what Go's `gcWork` keeps, mgcwork.go). Its word says who
/// holds it; how many entries it has now, its holder alone knows.
#[derive(Clone, Copy, Debug, PartialEq, Eq)]
pub struct Held {
    /// Which buffer, below the layout's buffers.
    pub index: u32,
    /// Its entries, at most 253.
    pub count: u32,
}
