//! A law of the command line's form, whatever reads it.

ghost use Rattle.gh_command.specs.CommandLineLaws.{BudgetIsInRange, SizeIsInRange};

/// A budget is from 1 to 1,000,000,000 turns, and a size from 4 to 200,000.
pub fn numbers_are_in_range()
    ensures budget { BudgetIsInRange }
    ensures size { SizeIsInRange }
{}
