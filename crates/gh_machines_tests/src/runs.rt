//! Words that are drawn up by hand, and the lines of a run over them.

use gh_base::trace::Steps;
use std::alloc::{AllocError, Global};

/// The first words of the rows of a layout of 16 pages, one global and three seats.
pub(crate) const PAGE_ROW: usize = 15;

pub(crate) const MARK_ROW: usize = 287;

pub(crate) const BITMAP_ROW: usize = 543;

pub(crate) const FIELD_ROW: usize = 17_183;

pub(crate) const GLOBAL_ROW: usize = 33_567;

pub(crate) const BUFFER_ROW: usize = 33_568;

/// The page words of swept spans whose sweep number is 2, of the first size class and of the second.
pub(crate) const ONE: u64 = 1 + 512 + (2 << 30);

pub(crate) const TWO: u64 = ONE + 4;

/// The words of that layout, of which these, by their numbers, are not 0.
pub(crate) fn words(alloc: Global, set: &[(usize, u64)]) -> Result<Vec<u64>, AllocError> {
    let mut words = vec![in alloc; 0u64; 60_000]?;
    for (word, value) in set {
        if *word < words.len() {
            words[*word] = *value;
        }
    }
    Ok(words)
}

/// That the steps of these numbers have these lines.
pub(crate) fn has_lines<O>(steps: &Steps<O>, lines: &[(usize, &str)]) -> bool {
    for (at, line) in lines {
        if *at >= steps.lines.len() || steps.lines[*at].as_str() != *line {
            return false;
        }
    }
    true
}
