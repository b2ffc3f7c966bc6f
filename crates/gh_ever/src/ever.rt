//! The public calls: lists that stand for the heap, with marks to find what it reaches.

ghost use Rattle.std.specs.Prelude.{◌≡◌, ◌<◌, ◌^◌, ◌↔◌, IfOk, IsTrue, length, slice_set, true, vec_len};
ghost use Rattle.gh_base.specs.declared.operation.Op.TheVariants.{End};
ghost use Rattle.gh_base.specs.declared.value.Answer.TheVariants.{Done};
ghost use Rattle.gh_model.specs.Ever.{Reach, ever_after, opening_ever};
ghost use Rattle.gh_script.specs.Program.{statement_as_op};
ghost use Rattle.gh_ever.specs.Applied.{IsDue, NamesType, given_answer, spent};
ghost use Rattle.gh_ever.specs.Lists.{counts_of, ever_of, opening_lists};
ghost use Rattle.gh_ever.specs.Sound.{AreSized};

use crate::kept::Kept;
use crate::opening::{copy_of, counts_of};
use crate::reach::reaches;
use gh_base::{Answer, Name, Shapes};
use gh_script::{Script, Stmt};
use std::alloc::{AllocError, Global};
use std::marker::Model;

/// The heap that never frees, for the statements of one script.
#[derive(Debug, Drop)]
pub struct Ever {
    kept: Kept,
    marks: Vec<bool>,
}

impl Model for Ever {
    ghost use Rattle.std.specs.Prelude.{◌+◌, ◌≤◌, length, sum, vec_len};
    ghost use Rattle.gh_ever.specs.Lists.{Lists};

    ghost Value = { Lists };

    ghost view = { λ a. a.kept };

    ghost invariant = { λ a. length a.kept.objects + sum a.kept.left ≤ vec_len a.marks };
}

impl Ever {
    /// The heap before any statement of the script: no object, and nil in each global and register.
    /// Takes room for all that the script's statements can make; fails only for want of memory.
    pub fn new(alloc: Global, script: &Script) -> Result<Ever, AllocError>
        ensures opening { IfOk result (λ ever. ever_of ever ≡ opening_ever) }
        ensures lists { IfOk result (λ ever. ever ≡ opening_lists script.now.shapes (counts_of script.now)) }
    {
        script.is_well_formed();
        let shapes = copy_of(alloc, script.shapes())?;
        let left = counts_of(alloc, script)?;
        Ever::open(alloc, shapes, left)
    }

    /// The same of these shapes, with so many statements of each goroutine to come.
    fn open(alloc: Global, shapes: Shapes, left: Vec<u32>) -> Result<Ever, AllocError>
        requires sized { AreSized shapes }
        requires few { vec_len left < 2 ^ 32 }
        ensures opening { IfOk result (λ ever. ever_of ever ≡ opening_ever) }
        ensures lists { IfOk result (λ ever. ever ≡ opening_lists shapes left.items) }
    {
        let kept = Kept::open(alloc, shapes, left)?;
        let marks = vec![in alloc; false; kept.room()]?;
        Ok(Ever { kept, marks })
    }

    /// The answer to the next statement of goroutine `g`, counted from 0, by the heap that never
    /// frees; takes over `Full` where a `new` is told it, and ignores all else that it is told.
    /// A fault changes nothing, and after `Full` the register holds nil. Takes no memory.
    ///
    /// Conditions: goroutine `g` has a statement to come, as it has where `s` is the statement of
    /// the script that follows those applied for `g`; a `new` names one of the script's types.
    pub fn apply(&mut self, g: u32, s: &Stmt, told: Option<Answer>) -> Answer
        requires due { IsDue self.old g }
        requires typed { NamesType self.old.shapes s.now }
        ensures answered { result ≡ given_answer self.old.shapes (ever_of self.old) (statement_as_op g s.now) told }
        ensures after { ever_of self.new ≡ ever_after self.old.shapes (ever_of self.old) (statement_as_op g s.now) result }
        ensures shapes { self.new.shapes ≡ self.old.shapes }
        ensures left { self.new.left ≡ spent self.old.left g }
        ensures ended { self.new.ended ≡ self.old.ended }
    {
        self.kept.apply(g, s, told)
    }

    /// Goroutine `g` ends: what its registers hold is no longer reached from there.
    ///
    /// Condition: there is this goroutine.
    pub fn end(&mut self, g: u32)
        requires { g < length self.old.left }
        ensures after { ever_of self.new ≡ ever_after self.old.shapes (ever_of self.old) (End g) Done }
        ensures shapes { self.new.shapes ≡ self.old.shapes }
        ensures left { self.new.left ≡ self.old.left }
        ensures ended { self.new.ended ≡ slice_set self.old.ended g true }
    {
        self.kept.end(g);
    }

    /// That a finite path of pointer fields leads to the object `n` from a global, or from a
    /// register of a goroutine that has not ended. Takes no memory.
    pub fn reach(&mut self, n: Name) -> bool
        ensures reach { IsTrue result ↔ Reach (ever_of self.old) n }
        ensures same { self.new ≡ self.old }
    {
        reaches(&self.kept, &mut self.marks, n)
    }
}
