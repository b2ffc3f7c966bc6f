//! The laws of the routines. The functions do nothing; what they ensure is proved.

ghost use Rattle.gh_base.specs.declared.layout.Layout.{Layout};
ghost use Rattle.gh_base.specs.Machines.{IsRoutine};
ghost use Rattle.gh_credit.specs.Drawing as drawing;
ghost use Rattle.gh_credit.specs.Drawing.{DrawsCredit};
ghost use Rattle.gh_credit.specs.Earning as earning;

/// Whatever it is told: the words that a draw gives are those that its steps take out of the bank. It takes none exactly where
/// it finds the bank empty, or another has changed the bank between its two steps; else it takes exactly the lesser of what the
/// bank held and what is owed.
pub fn credit_is_drawn()
    ensures { DrawsCredit }
{}

/// Drawing is a routine: each step is on a word that there is, and it writes the bank alone.
pub fn drawing_is_a_routine()
    ensures { (l : Layout) → IsRoutine l (drawing.listing l) }
{}

/// Handing over is a routine: each step is on a word that there is, and it writes the bank alone.
pub fn earning_is_a_routine()
    ensures { (l : Layout) → IsRoutine l (earning.listing l) }
{}
