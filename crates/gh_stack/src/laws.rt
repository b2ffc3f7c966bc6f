//! Laws of the routine. The functions do nothing; what they ensure is proved.

ghost use Rattle.gh_base.specs.declared.layout.Layout.{Layout};
ghost use Rattle.gh_base.specs.Machines.{IsRoutine};
ghost use Rattle.gh_stack.specs.Facts.{StacksAreScannedByMoves};
ghost use Rattle.gh_stack.specs.Listing.{listing};
ghost use Rattle.gh_stack.specs.Scans.{StacksAreScanned};

use gh_marks::laws::facts_last;

/// The scan of a stack is a routine: it stays sound, its step is on a word that there is, and it writes the word of its
/// stack alone.
pub fn stack_scan_is_a_routine()
    ensures { (l : Layout) → IsRoutine l (listing l) }
{}

/// The scan of a stack wishes exactly the references of the registers that it was given to be shaded, in
/// their order and each once. Its only step is the store of the cycle, once all are shaded and not before.
pub fn stacks_are_scanned()
    ensures { StacksAreScanned }
{}

/// Whatever any number of actors do beside it while marking is on: what the scan wishes to be shaded is an
/// object of the cycle, and the registers before it are clean. Its store is the move by which the stack becomes
/// black, and what is known at each stage lasts.
pub fn stacks_are_scanned_by_moves()
    ensures { StacksAreScannedByMoves }
{
    facts_last();
}
