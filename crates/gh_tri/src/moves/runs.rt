//! Moves that belong together: any one move, a write with its barrier, and the scan of an object and of a stack.

ghost use Rattle.std.specs.Prelude.{◌≡◌, ℕ, ◌<◌};

use super::Picture;
use crate::Move;

impl Picture {
    ghost use Rattle.gh_tri.specs.declared.Colour.TheVariants.{Black};
    ghost use Rattle.gh_tri.specs.Shown.{picture_of};
    ghost use Rattle.gh_tri.specs.Tricolour.{May, moved, IsField, IsBlackStack, NilOrMade};
    ghost use Rattle.gh_tri.specs.Invariants.{Invariants, after};
    ghost use Rattle.gh_tri.specs.Runs.{shades, written_with_barrier, object_scan, register_scans};

    /// Makes a move, whichever it is.
    pub fn make(&mut self, m: Move)
        requires { May (picture_of self.old) m }
        ensures moved { picture_of self.new ≡ moved (picture_of self.old) m }
        ensures invariants { Invariants (picture_of self.old) → Invariants (picture_of self.new) }
    {
        match m {
            Move::Load(stack, reg, o, f) => self.load(stack, reg, o, f),
            Move::ReadOld(stack, o, f) => {
                let _ = self.read_old(stack, o, f);
            }
            Move::Shade(o) => self.shade(o),
            Move::Store(stack, o, f, new) => self.store(stack, o, f, new),
            Move::ScanField(o, f) => self.scan_field(o, f),
            Move::Blacken(o) => self.blacken(o),
            Move::Allocate(stack, reg) => {
                let _ = self.allocate(stack, reg);
            }
            Move::ScanRegister(stack, reg) => self.scan_register(stack, reg),
        }
    }

    /// Shades the object that a value names, if it names one.
    pub fn shade_value(&mut self, value: Option<u32>)
        requires { NilOrMade (picture_of self.old) value }
        ensures shaded { picture_of self.new ≡ shades (picture_of self.old) value }
        ensures invariants { Invariants (picture_of self.old) → Invariants (picture_of self.new) }
    {
        if let Some(o) = value {
            self.shade(o);
        }
    }

    /// A write with the hybrid barrier: the old value is read and shaded, the new one is shaded, and only then it is stored.
    pub fn write(&mut self, stack: u32, o: u32, f: u32, new: Option<u32>)
        requires stack { stack < (picture_of self.old).stacks }
        requires field { IsField (picture_of self.old) o f }
        requires made { NilOrMade (picture_of self.old) new }
        ensures written { picture_of self.new ≡ written_with_barrier (picture_of self.old) stack o f new }
        ensures invariants { Invariants (picture_of self.old) → Invariants (picture_of self.new) }
    {
        let old = self.read_old(stack, o, f);
        self.shade_value(old);
        self.shade_value(new);
        self.store(stack, o, f, new);
    }

    /// Scans an object: each of its fields in order, and then it is black.
    pub fn scan_object(&mut self, o: u32)
        requires { o < (picture_of self.old).objects }
        ensures moves { picture_of self.new ≡ after (picture_of self.old) (object_scan o (picture_of self.old).fields) }
        ensures black { (picture_of self.new).colour o ≡ Black }
        ensures invariants { Invariants (picture_of self.old) → Invariants (picture_of self.new) }
    {
        let count = self.fields();
        for f in 0..count {
            self.scan_field(o, f);
        }
        self.blacken(o);
    }

    /// Scans a stack: each of its registers in order, and then it is black.
    pub fn scan_stack(&mut self, stack: u32)
        requires { stack < (picture_of self.old).stacks }
        ensures moves { picture_of self.new ≡ after (picture_of self.old) (register_scans stack 16) }
        ensures black { IsBlackStack (picture_of self.new) stack }
        ensures invariants { Invariants (picture_of self.old) → Invariants (picture_of self.new) }
    {
        for reg in 0..16 {
            self.scan_register(stack, reg);
        }
    }
}
