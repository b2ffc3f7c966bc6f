//! What may be asked of a picture: whether a field or a stack is scanned, and whether a move may be made.

ghost use Rattle.std.specs.Prelude.{◌≡◌, ℕ, ◌<◌, ◌↔◌, IsTrue, true, Some, None};

use super::Picture;
use crate::{Colour, Move};

#[tactic(auto, unfolding(crate::specs::Shown::picture_of))]
impl Picture {
    ghost use Rattle.gh_tri.specs.Shown.{picture_of};
    ghost use Rattle.gh_tri.specs.Tricolour.{May, MayLoad, MayStore, IsField, IsStackRegister, StackHolds, IsBlackStack, IsGreyStack, NilOrMade, NilOrMarked};

    /// Whether the move may be made now.
    pub fn may(&self, m: Move) -> bool
        ensures { IsTrue result ↔ May (picture_of self.now) m }
    {
        match m {
            Move::Load(stack, reg, o, f) => self.may_load(stack, reg, o, f),
            Move::ReadOld(stack, o, f) => stack < self.stacks && self.is_field(o, f),
            Move::Shade(o) => o < self.objects,
            Move::Store(stack, o, f, new) => self.may_store(stack, o, f, new),
            Move::ScanField(o, f) => self.is_field(o, f),
            Move::Blacken(o) => o < self.objects && self.are_fields_scanned(o),
            Move::Allocate(stack, reg) => {
                self.is_register(stack, reg) && self.objects < self.limit
            }
            Move::ScanRegister(stack, reg) => self.is_register(stack, reg),
        }
    }

    fn may_load(&self, stack: u32, reg: u32, o: u32, f: u32) -> bool
        ensures { IsTrue result ↔ MayLoad (picture_of self.now) stack reg o f }
    {
        if !self.is_register(stack, reg) {
            return false;
        }
        if !self.is_field(o, f) {
            return false;
        }
        if !self.is_held(stack, o) {
            return false;
        }
        if self.are_all(stack, false) {
            return true;
        }
        self.are_all(stack, true)
    }

    fn may_store(&self, stack: u32, o: u32, f: u32, new: Option<u32>) -> bool
        ensures { IsTrue result ↔ MayStore (picture_of self.now) stack o f new }
    {
        if stack >= self.stacks {
            return false;
        }
        if !self.is_field(o, f) {
            return false;
        }
        if !self.is_made(new) {
            return false;
        }
        if !self.is_marked(new) {
            return false;
        }
        match self.read_by(stack, o, f) {
            None => false,
            Some(value) => self.is_marked(value),
        }
    }

    /// What a stack has read as old in a field, and not stored over yet.
    pub fn read_by(&self, stack: u32, o: u32, f: u32) -> Option<Option<u32>>
        requires stack { stack < (picture_of self.now).stacks }
        requires field { IsField (picture_of self.now) o f }
        ensures { result ≡ (picture_of self.now).read stack o f }
    {
        let row = stack as usize * self.limit as usize + o as usize;
        self.reads.get(row, f as usize)
    }

    /// Whether the picture has this field.
    pub fn is_field(&self, o: u32, f: u32) -> bool
        ensures { IsTrue result ↔ IsField (picture_of self.now) o f }
    {
        o < self.objects && f < self.fields
    }

    /// Whether an object is made.
    pub fn is_object(&self, o: u32) -> bool
        ensures { IsTrue result ↔ (o < (picture_of self.now).objects) }
    {
        o < self.objects
    }

    /// Whether the picture has this register.
    pub fn is_register(&self, stack: u32, reg: u32) -> bool
        ensures { IsTrue result ↔ IsStackRegister (picture_of self.now) stack reg }
    {
        stack < self.stacks && reg < 16
    }

    /// Whether a field is scanned.
    pub fn is_scanned(&self, o: u32, f: u32) -> bool
        requires { IsField (picture_of self.now) o f }
        ensures { result ≡ (picture_of self.now).scanned o f }
    {
        if o as usize >= self.scanned.rows {
            return true;
        }
        self.scanned.get(o as usize, f as usize)
    }

    /// Whether each register of a stack is scanned.
    pub fn is_black_stack(&self, stack: u32) -> bool
        requires { stack < (picture_of self.now).stacks }
        ensures { IsTrue result ↔ IsBlackStack (picture_of self.now) stack }
    {
        self.are_all(stack, true)
    }

    /// Whether no register of a stack is scanned.
    pub fn is_grey_stack(&self, stack: u32) -> bool
        requires { stack < (picture_of self.now).stacks }
        ensures { IsTrue result ↔ IsGreyStack (picture_of self.now) stack }
    {
        self.are_all(stack, false)
    }

    /// Whether each register of a stack is scanned, or each is not.
    fn are_all(&self, stack: u32, seen: bool) -> bool
        requires { stack < (picture_of self.now).stacks }
        ensures { IsTrue result ↔ ((r : ℕ) → r < 16 → (picture_of self.now).seen stack r ≡ seen) }
    {
        for r in 0..16 {
            if self.seen.get(stack as usize, r) != seen {
                return false;
            }
        }
        true
    }

    /// Whether an object is object 0, or stands in a register of the stack.
    fn is_held(&self, stack: u32, o: u32) -> bool
        requires { stack < (picture_of self.now).stacks }
        ensures { IsTrue result ↔ StackHolds (picture_of self.now) stack o }
    {
        if o == 0 {
            return true;
        }
        for r in 0..16 {
            if self.registers.get(stack as usize, r) == Some(o) {
                return true;
            }
        }
        false
    }

    /// Whether each field of an object is scanned.
    fn are_fields_scanned(&self, o: u32) -> bool
        requires { o < (picture_of self.now).objects }
        ensures { IsTrue result ↔ ((f : ℕ) → f < (picture_of self.now).fields → (picture_of self.now).scanned o f ≡ true) }
    {
        for f in 0..self.fields {
            if !self.is_scanned(o, f) {
                return false;
            }
        }
        true
    }

    /// Whether a value is nil or a marked object.
    pub fn is_marked(&self, value: Option<u32>) -> bool
        ensures { IsTrue result ↔ NilOrMarked (picture_of self.now) value }
    {
        match value {
            None => true,
            Some(o) => o < self.limit && self.colours[o as usize] != Colour::White,
        }
    }

    /// Whether a value is nil or an object that is made.
    pub fn is_made(&self, value: Option<u32>) -> bool
        ensures { IsTrue result ↔ NilOrMade (picture_of self.now) value }
    {
        match value {
            None => true,
            Some(o) => o < self.objects,
        }
    }
}
