//! The picture, its eight moves, and the changes of registers.

ghost use Rattle.std.specs.Prelude.{◌≡◌, ℕ, ◌+◌, ◌*◌, ◌<◌, ◌≤◌, ◌^◌, length, IfOk, Option, Some, None};
ghost use Rattle.gh_tri.specs.Tables.{cells};

mod asks;
mod changes;
mod runs;

use crate::Colour;
use crate::shades::{first_colours, note_scanned, shade_in};
use crate::table::{Table, place};
use std::alloc::{AllocError, Global};

/// A heap in the course of a mark phase: objects with their colours and fields, and stacks of 16 registers.
#[derive(Drop)]
pub struct Picture {
    objects: u32,
    limit: u32,
    fields: u32,
    stacks: u32,
    colours: Vec<Colour>,
    values: Table<Option<u32>>,
    scanned: Table<bool>,
    registers: Table<Option<u32>>,
    seen: Table<bool>,
    reads: Table<Option<Option<u32>>>,
    ghost limited: { objects ≤ limit },
    ghost colour_count: { length colours.items ≡ limit },
    ghost value_rows: { values.rows ≡ limit },
    ghost value_columns: { values.columns ≡ fields },
    ghost scanned_rows: { scanned.rows ≤ objects },
    ghost scanned_columns: { scanned.columns ≡ fields },
    ghost register_rows: { registers.rows ≡ stacks },
    ghost register_columns: { registers.columns ≡ 16 },
    ghost seen_rows: { seen.rows ≡ stacks },
    ghost seen_columns: { seen.columns ≡ 16 },
    ghost read_rows: { reads.rows ≡ stacks * limit },
    ghost read_columns: { reads.columns ≡ fields },
    ghost empty: { (o f : ℕ) → objects ≤ o → cells None values.columns values.items.items o f ≡ None },
    ghost values_made: { (o f w : ℕ) → cells None values.columns values.items.items o f ≡ Some w → w < objects },
    ghost registers_made: { (s r w : ℕ) → cells None registers.columns registers.items.items s r ≡ Some w → w < objects },
}

#[tactic(auto, unfolding(crate::specs::Shown::picture_of))]
impl Picture {
    ghost use Rattle.gh_tri.specs.Shown.{picture_of};
    ghost use Rattle.gh_tri.specs.Tricolour.{May, moved, IsField, IsStackRegister, NilOrMade};
    ghost use Rattle.gh_tri.specs.Opening.{AreCells, AreObjects, opened_picture};
    ghost use Rattle.gh_tri.specs.Invariants.{Invariants, IsOpeningPicture};
    ghost use Rattle.gh_tri.specs.declared.Move.TheVariants.{Load, ReadOld, Shade, Store, ScanField, Blacken, Allocate, ScanRegister};

    /// A picture as at a cycle's begin. Object 0, whose fields are the globals, is grey, the objects 1 to `objects - 1` are
    /// white and the stacks are grey. An edge (o, f, t) puts t into field f of o, a triple (stack, register, o) of `held`
    /// puts o into a register; later ones put theirs in the place of earlier ones. All memory is taken here, for `room`
    /// objects more too; the only error is that there is not enough.
    pub fn new(
        alloc: Global,
        objects: u32,
        room: u32,
        fields: u32,
        stacks: u32,
        edges: &[(u32, u32, u32)],
        held: &[(u32, u32, u32)],
    ) -> Result<Picture, AllocError>
        requires some { 0 < objects }
        requires total { objects + room < 2 ^ 32 }
        requires edge_fields { AreCells objects fields edges.now }
        requires edge_objects { AreObjects objects edges.now }
        requires held_registers { AreCells stacks 16 held.now }
        requires held_objects { AreObjects objects held.now }
        ensures opened { IfOk result (λ p. picture_of p ≡ opened_picture objects room fields stacks edges.now held.now) }
        ensures opening { IfOk result (λ p. IsOpeningPicture (picture_of p)) }
        ensures invariants { IfOk result (λ p. Invariants (picture_of p)) }
    {
        let limit = objects + room;
        let colours = first_colours(alloc, limit)?;
        let mut values = Table::new(alloc, limit as usize, fields as usize, None)?;
        place(&mut values, edges);
        let scanned = Table::new(alloc, objects as usize, fields as usize, false)?;
        let mut registers = Table::new(alloc, stacks as usize, 16, None)?;
        place(&mut registers, held);
        let seen = Table::new(alloc, stacks as usize, 16, false)?;
        let reads = Table::new(
            alloc,
            stacks as usize * limit as usize,
            fields as usize,
            None,
        )?;
        Ok(Picture {
            objects,
            limit,
            fields,
            stacks,
            colours,
            values,
            scanned,
            registers,
            seen,
            reads,
        })
    }

    /// How many fields each object has.
    pub fn fields(&self) -> u32
        ensures { result ≡ (picture_of self.now).fields }
    {
        self.fields
    }

    /// The colour of an object.
    pub fn colour(&self, o: u32) -> Colour
        requires { o < (picture_of self.now).objects }
        ensures { result ≡ (picture_of self.now).colour o }
    {
        self.colours[o as usize]
    }

    /// What field `f` of object `o` holds.
    pub fn field(&self, o: u32, f: u32) -> Option<u32>
        requires { IsField (picture_of self.now) o f }
        ensures answer { result ≡ (picture_of self.now).value o f }
        ensures made { NilOrMade (picture_of self.now) result }
    {
        self.values.get(o as usize, f as usize)
    }

    /// What a register of a stack holds.
    pub fn register(&self, stack: u32, reg: u32) -> Option<u32>
        requires { IsStackRegister (picture_of self.now) stack reg }
        ensures answer { result ≡ (picture_of self.now).register stack reg }
        ensures made { NilOrMade (picture_of self.now) result }
    {
        self.registers.get(stack as usize, reg as usize)
    }

    /// Puts the value of field `f` of object `o` into a register.
    pub fn load(&mut self, stack: u32, reg: u32, o: u32, f: u32)
        requires { May (picture_of self.old) (Load stack reg o f) }
        ensures moved { picture_of self.new ≡ moved (picture_of self.old) (Load stack reg o f) }
        ensures invariants { Invariants (picture_of self.old) → Invariants (picture_of self.new) }
    {
        let loaded = self.values.get(o as usize, f as usize);
        self.registers.set(stack as usize, reg as usize, loaded);
    }

    /// Answers the value of field `f` of object `o`, and keeps it as read there by the stack, until the stack's store.
    pub fn read_old(&mut self, stack: u32, o: u32, f: u32) -> Option<u32>
        requires { May (picture_of self.old) (ReadOld stack o f) }
        ensures answer { result ≡ (picture_of self.old).value o f }
        ensures made { NilOrMade (picture_of self.old) result }
        ensures moved { picture_of self.new ≡ moved (picture_of self.old) (ReadOld stack o f) }
        ensures invariants { Invariants (picture_of self.old) → Invariants (picture_of self.new) }
    {
        let value = self.values.get(o as usize, f as usize);
        let row = stack as usize * self.limit as usize + o as usize;
        self.reads.set(row, f as usize, Some(value));
        value
    }

    /// Makes a white object grey.
    pub fn shade(&mut self, o: u32)
        requires { May (picture_of self.old) (Shade o) }
        ensures moved { picture_of self.new ≡ moved (picture_of self.old) (Shade o) }
        ensures invariants { Invariants (picture_of self.old) → Invariants (picture_of self.new) }
    {
        shade_in(&mut self.colours, Some(o));
    }

    /// Puts the new value into field `f` of object `o`, and uses up what the stack read there.
    pub fn store(&mut self, stack: u32, o: u32, f: u32, new: Option<u32>)
        requires { May (picture_of self.old) (Store stack o f new) }
        ensures moved { picture_of self.new ≡ moved (picture_of self.old) (Store stack o f new) }
        ensures invariants { Invariants (picture_of self.old) → Invariants (picture_of self.new) }
    {
        let row = stack as usize * self.limit as usize + o as usize;
        self.reads.set(row, f as usize, None);
        self.values.set(o as usize, f as usize, new);
    }

    /// Shades the object that field `f` of object `o` holds. The field is scanned from then on.
    pub fn scan_field(&mut self, o: u32, f: u32)
        requires { May (picture_of self.old) (ScanField o f) }
        ensures moved { picture_of self.new ≡ moved (picture_of self.old) (ScanField o f) }
        ensures invariants { Invariants (picture_of self.old) → Invariants (picture_of self.new) }
    {
        let target = self.values.get(o as usize, f as usize);
        shade_in(&mut self.colours, target);
        note_scanned(&mut self.scanned, o as usize, f as usize);
    }

    /// Makes an object black, whose fields are all scanned.
    pub fn blacken(&mut self, o: u32)
        requires { May (picture_of self.old) (Blacken o) }
        ensures moved { picture_of self.new ≡ moved (picture_of self.old) (Blacken o) }
        ensures invariants { Invariants (picture_of self.old) → Invariants (picture_of self.new) }
    {
        self.colours[o as usize] = Colour::Black;
    }

    /// Makes an object, black, with all its fields nil and scanned, puts it into a register, and answers its number.
    pub fn allocate(&mut self, stack: u32, reg: u32) -> u32
        requires { May (picture_of self.old) (Allocate stack reg) }
        ensures answer { result ≡ (picture_of self.old).objects }
        ensures moved { picture_of self.new ≡ moved (picture_of self.old) (Allocate stack reg) }
        ensures invariants { Invariants (picture_of self.old) → Invariants (picture_of self.new) }
    {
        let made = self.objects;
        self.colours[made as usize] = Colour::Black;
        self.registers.set(stack as usize, reg as usize, Some(made));
        self.objects = made + 1;
        made
    }

    /// Shades the object that a register holds, which is scanned from then on. A register may be scanned again. The stack is
    /// black once all its 16 registers are scanned.
    pub fn scan_register(&mut self, stack: u32, reg: u32)
        requires { May (picture_of self.old) (ScanRegister stack reg) }
        ensures moved { picture_of self.new ≡ moved (picture_of self.old) (ScanRegister stack reg) }
        ensures invariants { Invariants (picture_of self.old) → Invariants (picture_of self.new) }
    {
        let held = self.registers.get(stack as usize, reg as usize);
        shade_in(&mut self.colours, held);
        self.seen.set(stack as usize, reg as usize, true);
    }
}
