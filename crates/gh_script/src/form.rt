//! The form of a script: settings and types in any order, and then goroutines.

ghost use Rattle.std.specs.Prelude.{◌↔◌, ℕ, List};
ghost use Rattle.gh_script.specs.Program.{Program};
ghost use Rattle.gh_script.specs.Grammar.{Spells};
ghost use Rattle.gh_script.specs.Form.{HasForm};

/// A text spells a script exactly where its lines that say something are settings and types in any
/// order, and then goroutines, each of `go`, a block and `end`; a block is of statements and of
/// `repeat`s, each with a block of its own and `end`, at most 8 deep. Each line is right in itself,
/// nothing stands twice, the counts are within their limits, and the script is what the lines say,
/// with each repeated block written out.
pub fn script_form()
    ensures { (text : List ℕ) (program : Program) → Spells text program ↔ HasForm text program }
{}
