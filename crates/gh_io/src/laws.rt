//! Laws of what a sink took. The functions do nothing; what they ensure is proved.

ghost use Rattle.gh_io.specs.Streams.{PartOfFirstIsOfBoth, PartOfSecondIsOfBoth};

/// Of two pieces, one after the other: a part of the first is a part of both, and so is the first with
/// a part of the second. So who writes several pieces, up to a fault, has written a part of them all.
pub fn parts_are_of_both()
    ensures first { PartOfFirstIsOfBoth }
    ensures second { PartOfSecondIsOfBoth }
{}
