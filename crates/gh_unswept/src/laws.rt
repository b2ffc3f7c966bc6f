//! The law of a whole pass over unswept spans. The function does nothing; what it ensures is proved.

ghost use Rattle.gh_unswept.specs.FirstUnswept.{TheUnsweptPassTakesTheFirst};

/// Whatever words it is told, the pass for an unswept span gives a page only where it was told that the head of a wanted
/// span stands there, and has swept that span, and the sweep counted a clear slot; and where each page before it was met,
/// and each wanted span there was swept by it with no slot clear, or lost to another. It gives `None` only where that is
/// so of all pages.
pub fn the_unswept_pass_takes_the_first()
    ensures { TheUnsweptPassTakesTheFirst }
{}
