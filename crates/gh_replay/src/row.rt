//! An answer that has a line.

use gh_base::Answer;

/// What statement `n` of goroutine `g`, counted from 1, answered.
#[derive(Clone, Copy, Debug)]
pub struct Row {
    pub g: u32,
    pub n: u32,
    pub answer: Answer,
}
