//! Laws of scripts for whose objects there is always room. The functions do nothing; what they ensure is proved.

ghost use Rattle.gh_plenty.specs.Plenty.{GeneratedScriptsAreNeverFull, ScriptsWithPlentyAreNeverFull};

use gh_class::size_class_laws;
use gh_explained::every_run_stands;
use gh_mutator::laws::only_points_change;
use gh_script::{generated_scripts_have_their_size, generated_scripts_spell, one_reading};

/// Where a script has one type of small objects, and the arena has room for all that it makes and for one span more a
/// processor, no operation of a whole run of it is answered `full`.
pub fn scripts_with_plenty_are_never_full()
    ensures { ScriptsWithPlentyAreNeverFull }
{
    every_run_stands();
    only_points_change();
    size_class_laws();
}

/// So it is for the script of each seed and size.
pub fn generated_scripts_are_never_full()
    ensures { GeneratedScriptsAreNeverFull }
{
    generated_scripts_spell();
    generated_scripts_have_their_size();
    one_reading();
    scripts_with_plenty_are_never_full();
}
