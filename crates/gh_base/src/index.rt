//! An index that a word of the heap told.

ghost use Rattle.std.specs.Prelude.{◌≡◌, ◌%◌, ◌<◌, ◌≤◌};

/// The index modulo `n`, the words of its row: below `n` whatever was told.
///
/// An index that actors wrote is below `n` as it stands. To find that out is a comparison, and a
/// division takes ten times as long.
#[inline(always)]
pub fn modulo(index: u32, n: u32) -> u32
    requires { 1 ≤ n }
    ensures is { result ≡ index % n }
    ensures below { result < n }
{
    if index < n { index } else { index % n }
}
