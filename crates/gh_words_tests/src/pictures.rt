//! Pictures step by step: a store into a new object, and the two ways in which a collector without one of the shades
//! loses an object.

use gh_tri::Move::{Allocate, Blacken, Load, ReadOld, ScanField, ScanRegister, Shade, Store};
use gh_tri::{Colour, Move, Picture};
use std::test::Fail;

/// One line of a story: what is done, or what has to hold.
#[derive(Clone, Copy, Debug, Drop)]
enum Step {
    /// The move may be made, and is.
    Makes(Move),
    /// The move may not be made.
    MayNot(Move),
    /// A store with its barrier.
    Writes(u32, u32, u32, Option<u32>),
    ScansObject(u32),
    ScansStack(u32),
    DropsRegister(u32, u32),
    /// The first of two registers of a stack takes what the second holds.
    CopiesRegister(u32, u32, u32),
    MayNotCopy(u32, u32, u32),
    /// The object has this colour.
    Has(u32, Colour),
    /// The field holds this.
    Holds(u32, u32, Option<u32>),
    /// The register holds this.
    Keeps(u32, u32, Option<u32>),
}

/// Takes the step, and answers whether it was as the story says.
fn take(picture: &mut Picture, step: Step) -> bool {
    match step {
        Step::Makes(m) => {
            if !picture.may(m) {
                return false;
            }
            picture.make(m);
            true
        }
        Step::MayNot(m) => !picture.may(m),
        Step::Writes(s, o, f, v) => {
            if !picture.is_register(s, 0) || !picture.is_field(o, f) || !picture.is_made(v) {
                return false;
            }
            picture.write(s, o, f, v);
            true
        }
        Step::ScansObject(o) => {
            if !picture.is_object(o) {
                return false;
            }
            picture.scan_object(o);
            true
        }
        Step::ScansStack(s) => {
            if !picture.is_register(s, 0) {
                return false;
            }
            picture.scan_stack(s);
            picture.is_register(s, 0) && picture.is_black_stack(s)
        }
        Step::DropsRegister(s, r) => {
            if !picture.is_register(s, r) {
                return false;
            }
            picture.drop_register(s, r);
            true
        }
        Step::CopiesRegister(s, d, r) => {
            if !picture.may_copy(s, d, r) {
                return false;
            }
            picture.copy_register(s, d, r);
            true
        }
        Step::MayNotCopy(s, d, r) => !picture.may_copy(s, d, r),
        Step::Has(o, c) => picture.is_object(o) && picture.colour(o) == c,
        Step::Holds(o, f, v) => picture.is_field(o, f) && picture.field(o, f) == v,
        Step::Keeps(s, r, v) => picture.is_register(s, r) && picture.register(s, r) == v,
    }
}

/// The place of the first step that was not as the story says.
fn play(picture: &mut Picture, story: &[Step]) -> Option<usize> {
    for (i, step) in story.iter().enumerate() {
        if !take(picture, *step) {
            return Some(i);
        }
    }
    None
}

#[test]
fn no_object_is_lost(rt: HostRuntime) -> Result<(), Fail> {
    // A white object goes into a new one.
    let into_new = [
        Step::Makes(Load(0, 0, 0, 0)),
        Step::Keeps(0, 0, Some(1)),
        Step::Has(1, Colour::White),
        Step::Makes(Allocate(0, 1)),
        Step::Keeps(0, 1, Some(2)),
        Step::Has(2, Colour::Black),
        Step::MayNot(Allocate(0, 1)),
        Step::Makes(ReadOld(0, 2, 0)),
        Step::MayNot(Store(0, 2, 0, Some(1))),
        Step::Makes(Shade(1)),
        Step::Has(1, Colour::Grey),
        Step::Makes(Store(0, 2, 0, Some(1))),
        Step::Holds(2, 0, Some(1)),
        Step::MayNot(Store(0, 2, 0, Some(1))),
    ];
    // A stack that was scanned holds object 2, which only the field of object 1 protects, and another stack deletes that
    // field before object 1 is scanned.
    let last_field = [
        Step::ScansStack(0),
        Step::Makes(Load(0, 0, 0, 0)),
        Step::Makes(Load(0, 0, 1, 0)),
        Step::Keeps(0, 0, Some(2)),
        Step::Has(2, Colour::White),
        Step::Makes(ReadOld(1, 1, 0)),
        Step::MayNot(Store(1, 1, 0, None)),
        Step::Makes(Shade(2)),
        Step::Makes(Store(1, 1, 0, None)),
        Step::Holds(1, 0, None),
        Step::ScansObject(0),
        Step::ScansObject(1),
        Step::ScansObject(2),
        Step::ScansStack(1),
        Step::Has(2, Colour::Black),
    ];
    // Only a register of a stack that is not scanned yet holds object 2. The stack puts it into object 1, which is black,
    // and drops it before its scan.
    let into_black = [
        Step::ScansObject(0),
        Step::ScansObject(1),
        Step::Has(1, Colour::Black),
        Step::Makes(ReadOld(0, 1, 0)),
        Step::MayNot(Store(0, 1, 0, Some(2))),
        Step::Writes(0, 1, 0, Some(2)),
        Step::DropsRegister(0, 0),
        Step::Keeps(0, 0, None),
        Step::Holds(1, 0, Some(2)),
        Step::Has(2, Colour::Grey),
        Step::ScansStack(0),
        Step::MayNot(Blacken(2)),
        Step::Makes(ScanField(2, 0)),
        Step::Makes(Blacken(2)),
        Step::Has(2, Colour::Black),
    ];
    // In the midst of its scan a stack copies nothing: else object 1 would leave the register that is still to be scanned
    // for one that was. A register may be scanned again.
    let registers = [
        Step::CopiesRegister(0, 2, 1),
        Step::Keeps(0, 2, Some(1)),
        Step::Makes(ScanRegister(0, 0)),
        Step::MayNotCopy(0, 0, 1),
        Step::DropsRegister(0, 1),
        Step::Keeps(0, 1, None),
        Step::Makes(ScanRegister(0, 0)),
        Step::ScansStack(0),
        Step::Has(1, Colour::Grey),
        Step::CopiesRegister(0, 15, 2),
        Step::Keeps(0, 15, Some(1)),
        Step::MayNotCopy(0, 16, 2),
    ];
    let alloc = rt.alloc();
    let mut first = Picture::new(alloc, 2, 1, 1, 1, &[(0, 0, 1)], &[])?;
    let mut second = Picture::new(alloc, 3, 0, 1, 2, &[(0, 0, 1), (1, 0, 2)], &[])?;
    let mut third = Picture::new(alloc, 3, 0, 1, 1, &[(0, 0, 1)], &[(0, 0, 2)])?;
    let mut fourth = Picture::new(alloc, 2, 0, 1, 1, &[], &[(0, 1, 1)])?;
    assert_eq!(rt;
        [
            play(&mut first, &into_new),
            play(&mut second, &last_field),
            play(&mut third, &into_black),
            play(&mut fourth, &registers),
        ],
        [None; 4]
    );
    Ok(())
}
