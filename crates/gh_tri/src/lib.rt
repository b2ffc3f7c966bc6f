//! The argument for Go's write barrier, as an object that is checked: a picture of a heap in the course of a mark phase,
//! the eight moves that mutators and markers make of it, and the proof that every list of moves keeps the tricolour
//! invariant. Go makes this argument in prose, at the head of `mbarrier.go` and in the proposal "Eliminate STW stack
//! re-scanning" (17503).
//!
//! # What can go wrong
//!
//! A marker colours objects. White: not found yet. Grey: found, with fields still to be scanned. Black: found, with each
//! field scanned. A stack is grey until its registers are scanned, and then black. When no grey object and no grey stack
//! is left, each white object is freed. Meanwhile mutators go on. A white object is lost, freed while the program can
//! still reach it, where two things come together: something black comes to hold it, which nobody scans again, and each
//! path from something grey to it is cut before a marker has gone that way.
//!
//! # The barrier
//!
//! Before a mutator stores a pointer into a field it shades, that is makes grey if they are white, both what the field
//! holds and the new pointer.
//!
//! * **Why what the field holds is shaded (the deletion shade, Yuasa's).** A stack that is black may load a white object.
//!   That is no harm as long as the object is *protected*: some path of white objects leads to it from something grey, and
//!   a marker will come along. To cut the path, a store has to delete one of its fields, and shades what it deletes: what
//!   was protected becomes grey, or stays protected by the rest of the path. So a mutator can't hide an object by moving its
//!   only pointer from the heap into a stack that was scanned.
//! * **Why the new pointer is shaded (the insertion shade, Dijkstra's).** A stack that is still grey may hold a white
//!   object which nothing in the heap leads to. If the store put it into a black object, and the stack dropped it before its
//!   scan, nobody would find it. So it is shaded when it is published. For a stack that is black this shade is not needed;
//!   Go shades in both cases, since it is cheaper not to ask, and so do the moves here.
//! * **Why a stack that was scanned once stays black.** What a scan finds it marks. What a black stack then loads comes from
//!   an object that it can reach, so it is marked or protected, by the two rules above; and what it allocates is black. So
//!   what it holds is marked or protected to the end of the cycle, without a write barrier on stacks, and without
//!   stopping the program to scan the stacks again. In the midst of its scan a stack loads nothing.
//! * **Why an allocation is black.** A new object has no pointers, so there is nothing to scan, and whatever is stored into it
//!   is shaded by the barrier. Were it white, a black stack would hold a white object that nothing grey leads to.
//!
//! The store has three steps, and other threads move in between: the old value is read, it and the new value are shaded,
//! and the new value is stored. This is right although another store may have replaced what was read: the field then holds
//! what that store put there, which was shaded before.
//!
//! # What is no move
//!
//! A goroutine also drops registers and copies them within its stack. Neither looks into an object or colours one, so the
//! picture's registers change and nothing else. What a black stack holds twice is marked or protected as before. In the midst of
//! its scan a stack copies nothing: what is white could go from a register that is still to be scanned into one that was.
//!
//! # Where it stands
//!
//! `specs/Tricolour.antt` has the picture as a record of functions (`Tricolour`), what each move leaves (`moved`), and when it
//! may be made (`May`). `specs/Invariants.antt` has the invariant in five parts: scanned fields, black stacks, barrier order,
//! marked objects, and objects that are not made. `specs/Changes.antt` has the changes of registers, `specs/Steps.antt` what
//! leads from one picture to another. [`a_move_keeps_the_invariants`] and [`a_change_of_registers_keeps_the_invariants`] are the
//! laws of one step. With [`an_opening_has_the_invariants`] and [`what_is_reached_is_marked`] they give [`every_list_of_moves`], the
//! theorem over all lists of moves, and [`each_step_keeps_the_invariants`] says them of moves and changes in any order: `gh_marks`
//! shows that each step of marking is such. [`Picture`] keeps such a picture in tables that are made once; the contract of each of
//! its moves and changes says that it is that move or change and no other.
#![tactic(auto)]

ghost use Rattle.gh_tri.specs.Changes.{ChangesKeepTheInvariants};
ghost use Rattle.gh_tri.specs.Invariants.{
  EveryMoveKeepsTheInvariants,
  KeepsTheInvariants,
  MarkedWhatIsReached,
  NoWhiteObjectIsReached,
  Opens,
};
ghost use Rattle.gh_tri.specs.Steps.{EachStepKeepsTheInvariants};

mod moves;
mod shades;
mod table;

pub use moves::Picture;

/// The colour of an object between a cycle's begin and its end.
#[derive(Clone, Copy, Debug, PartialEq, Eq, Drop)]
pub enum Colour {
    /// Not found yet, and not marked.
    White,
    /// Marked, with fields that are still to be scanned.
    Grey,
    /// Marked, with all fields scanned.
    Black,
}

impl Colour {
    ghost use Rattle.std.specs.Prelude.{◌≡◌};
    ghost use Rattle.gh_tri.specs.Tricolour.{greyed};

    /// Grey for white, and else the same.
    pub fn greyed(self) -> Colour
        ensures { result ≡ greyed self }
    {
        match self {
            Colour::White => Colour::Grey,
            Colour::Grey => Colour::Grey,
            Colour::Black => Colour::Black,
        }
    }
}

/// A move. Stacks, registers (0 to 15), objects and fields are numbers from 0 on; object 0 holds the globals, and `None` is
/// nil.
#[derive(Clone, Copy, Debug, PartialEq, Eq, Drop)]
pub enum Move {
    /// A stack, a register, an object, a field: the field's value goes into the register.
    Load(u32, u32, u32, u32),
    /// A stack, an object, a field: the stack reads what a store is about to delete there.
    ReadOld(u32, u32, u32),
    /// An object: it becomes grey if it is white.
    Shade(u32),
    /// A stack, an object, a field, the new value: the value goes into the field, and the read before is used up.
    Store(u32, u32, u32, Option<u32>),
    /// An object, a field: what the field holds is shaded, and the field is scanned.
    ScanField(u32, u32),
    /// An object: it becomes black.
    Blacken(u32),
    /// A stack, a register: a new black object goes into the register.
    Allocate(u32, u32),
    /// A stack, a register: what the register holds is shaded, and the register is scanned.
    ScanRegister(u32, u32),
}

/// Each move that may be made keeps the invariants, from whatever picture has them.
pub fn a_move_keeps_the_invariants()
    ensures { KeepsTheInvariants }
{}

/// A picture as at a cycle's begin has the invariants.
pub fn an_opening_has_the_invariants()
    ensures { Opens }
{}

/// In a picture that has the invariants, where no object is grey, each field of object 0 is scanned and each stack is black,
/// no path of fields leads to a white object from object 0 or from a register.
pub fn what_is_reached_is_marked()
    ensures { MarkedWhatIsReached }
{}

/// A change of a stack's registers that is no move keeps the invariants: a register is dropped, or it takes what another
/// register of the stack holds, where the stack's scan has not begun or has ended. This is what a goroutine does by `nil`,
/// `int` and `move`, by a load of nil or of a number, by a `new` that is answered `full`, and by its end.
pub fn a_change_of_registers_keeps_the_invariants()
    ensures { ChangesKeepTheInvariants }
{}

/// From an opening picture, whatever moves are made while each may be made when its turn comes: the invariants hold;
/// and where no object is grey, each field of object 0 is scanned and each stack is black, no path of fields leads to a
/// white object from object 0 or from a register.
pub fn every_list_of_moves()
    ensures invariants { EveryMoveKeepsTheInvariants }
    ensures white { NoWhiteObjectIsReached }
{}

/// Whatever moves and changes of registers lead from one picture to another, each made where it may be, they keep the
/// invariants. So who shows that each atomic step of a machine leads from a picture of the one state to a picture of the other
/// has the invariants in all of its states.
pub fn each_step_keeps_the_invariants()
    ensures { EachStepKeepsTheInvariants }
{
    a_move_keeps_the_invariants();
    a_change_of_registers_keeps_the_invariants();
}
