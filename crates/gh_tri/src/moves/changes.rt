//! The changes of a stack's registers that are no moves.

ghost use Rattle.std.specs.Prelude.{◌≡◌, ◌↔◌, IsTrue};

use super::Picture;

#[tactic(auto, unfolding(crate::specs::Shown::picture_of))]
impl Picture {
    ghost use Rattle.gh_tri.specs.Changes.{changed_picture, Copy, Drop, MayChange};
    ghost use Rattle.gh_tri.specs.Invariants.{Invariants};
    ghost use Rattle.gh_tri.specs.Shown.{picture_of};

    /// Drops what a register holds.
    pub fn drop_register(&mut self, stack: u32, reg: u32)
        requires { MayChange (picture_of self.old) (Drop stack reg) }
        ensures changed { picture_of self.new ≡ changed_picture (picture_of self.old) (Drop stack reg) }
        ensures invariants { Invariants (picture_of self.old) → Invariants (picture_of self.new) }
    {
        self.registers.set(stack as usize, reg as usize, None);
    }

    /// Whether what register `from` of a stack holds may be copied into its register `into` now.
    pub fn may_copy(&self, stack: u32, into: u32, from: u32) -> bool
        ensures { IsTrue result ↔ MayChange (picture_of self.now) (Copy stack into from) }
    {
        if !self.is_register(stack, into) {
            return false;
        }
        if !self.is_register(stack, from) {
            return false;
        }
        self.is_grey_stack(stack) || self.is_black_stack(stack)
    }

    /// Copies what register `from` of a stack holds into its register `into`.
    pub fn copy_register(&mut self, stack: u32, into: u32, from: u32)
        requires { MayChange (picture_of self.old) (Copy stack into from) }
        ensures changed { picture_of self.new ≡ changed_picture (picture_of self.old) (Copy stack into from) }
        ensures invariants { Invariants (picture_of self.old) → Invariants (picture_of self.new) }
    {
        let held = self.registers.get(stack as usize, from as usize);
        self.registers.set(stack as usize, into as usize, held);
    }
}
