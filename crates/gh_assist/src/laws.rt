//! Laws of an assist. The functions do nothing; what they ensure is proved.

ghost use Rattle.gh_assist.specs.BankFirst.{AssistsTryTheBankFirst};
ghost use Rattle.gh_assist.specs.Facts.{AssistsByMoves};
ghost use Rattle.gh_assist.specs.Listing.{listing};
ghost use Rattle.gh_assist.specs.Paying.{AssistsPay};
ghost use Rattle.gh_assist.specs.Quiet.{AssistsAreQuiet};
ghost use Rattle.gh_assist.specs.Within.{AssistsAreWithin, TakingAndScanningAreWithin};
ghost use Rattle.gh_base.specs.declared.layout.Layout.{Layout};
ghost use Rattle.gh_base.specs.Machines.{IsRoutine};

use gh_credit::laws::{credit_is_drawn, drawing_is_a_routine};
use gh_marks::laws::{facts_last, hands_follow, own_moves_leave, steps_go_by_moves};
use gh_scan::laws::{marking_is_quiet, scan_is_a_routine, scans_by_moves};
use gh_wbuf::laws::{buffers_pass_by_moves, entry_taking_is_a_routine};

/// An assist is a routine: it stays sound, each step is on a word that there is, and it writes marks, buffers and their
/// entries, and the bank alone.
pub fn assist_is_a_routine()
    ensures { (l : Layout) → IsRoutine l (listing l) }
{
    drawing_is_a_routine();
    entry_taking_is_a_routine();
    scan_is_a_routine();
}

/// Whatever any number of actors do beside it while marking is on: each step of an assist is made of moves that its seat may
/// make, leaves all that its caller knows, and what is known at each stage holds then and lasts. It has in hand what its
/// routine has and nothing else, so where it has ended its seat has its buffer alone.
pub fn assists_by_moves()
    ensures { AssistsByMoves }
{
    facts_last();
    hands_follow();
    own_moves_leave();
    steps_go_by_moves();
    buffers_pass_by_moves();
    scans_by_moves();
}

/// Whatever it is told: what is owed grows by the debt of the object's bytes, by the work and the slack as they were loaded,
/// and falls by each word that is drawn out of the bank and each that is scanned, once and not below 0. What it counts as
/// spent is what it draws. It ends only where nothing is owed, or no buffer has a grey object.
pub fn assists_pay()
    ensures { AssistsPay }
{
    credit_is_drawn();
}

/// Whatever it is told: where words are owed behind its two loads, the third step of an assist looks at the bank, and where that
/// held words, the fourth tries to take out the lesser of these and of what is owed. No other step of it is on the bank, and
/// it takes no grey object before.
pub fn assists_try_the_bank_first()
    ensures { AssistsTryTheBankFirst }
{}

/// An assist writes mark bits, buffers and their entries, and the bank by a swap: no word of the handshake of a stop, and none
/// that a right guards.
pub fn assists_are_quiet()
    ensures { AssistsAreQuiet }
{
    marking_is_quiet();
}

/// Begun with a buffer of a heap's layout, each step of an assist is on a word that there is, and what it holds is a buffer
/// of that layout, whatever it is told.
pub fn assists_are_within()
    ensures { AssistsAreWithin }
{}

/// So it is with the routines by which objects are taken and scanned, whoever runs them, and whatever they are told.
pub fn taking_and_scanning_are_within()
    ensures { TakingAndScanningAreWithin }
{}
