//! What the words tell that a load or a store reads: the slot of an object, the kind of a field, and its
//! value.
//!
//! An index that a word of the heap told is taken modulo the words of its row. So every step is on a word
//! that there is, whatever was found.
//!
//! Who makes the steps of a load without a task ([`crate::Mutator::loaded`]) reads its words by these functions too, which
//! then stand in its code: each is a few instructions, and a call would cost as many.

ghost use Rattle.std.specs.Prelude.{◌≡◌, ◌%◌, ◌^◌, ◌<◌, ◌≤◌, IsTrue};
ghost use Rattle.gh_base.specs.Cells.{InRange};
ghost use Rattle.gh_mutator.specs.Fields.{birth_cell, field_cell, has_field, is_pointer_by, kinds_differ, page_cell, value_of, word_of_value};
ghost use Rattle.gh_barrier.specs.Listing.{cell_at};
ghost use Rattle.gh_mutator.specs.AtOnce.{bits_cell};
ghost use Rattle.gh_poll.specs.Registers.{IsNear};
ghost use Rattle.gh_mutator.specs.Store.{pointer_cell_at};

use gh_barrier::PointerCell;
use gh_base::{Cell, Layout, PageWord, Value, modulo};
use gh_class::size_class_laws;

/// The word of the page in which heap word `at` lies.
#[inline(always)]
pub fn page_cell(layout: &Layout, at: u32) -> Cell
    ensures is { result ≡ page_cell layout.now at }
    ensures within { InRange layout.now result }
{
    Cell::Page(modulo(at / 1024, layout.pages))
}

/// Heap word `x`.
#[inline(always)]
pub fn field_cell(layout: &Layout, x: u32) -> Cell
    ensures is { result ≡ field_cell layout.now x }
    ensures within { InRange layout.now result }
{
    Cell::Field(modulo(x, 1024 * layout.pages))
}

/// Heap word `x`, as a cell that holds a pointer.
pub(crate) fn pointer_cell(layout: &Layout, x: u32) -> PointerCell
    ensures is { result ≡ pointer_cell_at layout.now x }
    ensures within { InRange layout.now (cell_at result) }
{
    PointerCell::Field(modulo(x, 1024 * layout.pages))
}

/// The word of the bitmap that has the bit of heap word `x`.
#[inline(always)]
pub fn bits_cell(layout: &Layout, x: u32) -> Cell
    ensures is { result ≡ bits_cell layout.now x }
    ensures within { InRange layout.now result }
{
    Cell::Bitmap(modulo(x / 64, 16 * layout.pages))
}

/// The birth word of the object whose first heap word is `at`.
#[inline(always)]
pub fn birth_cell(layout: &Layout, at: u32) -> Cell
    ensures is { result ≡ birth_cell layout.now at }
    ensures within { InRange layout.now result }
{
    Cell::Birth(modulo(at, 1024 * layout.pages))
}

/// The object whose page word was found has a field `k`.
#[inline(always)]
pub fn has_field(k: u32, found: u64) -> bool
    ensures is { result ≡ has_field k found }
    ensures few { IsTrue result → k < 2 ^ 23 }
{
    size_class_laws();
    k < PageWord::unpack(found).slot_words()
}

/// Heap word `at` is a pointer field, by the word of the bitmap that was found.
#[inline(always)]
pub fn is_pointer_by(layout: &Layout, at: u32, found: u64) -> bool
    ensures { result ≡ is_pointer_by layout.now at found }
{
    let _ = layout;
    (found >> (at % 64)) & 1 == 1
}

/// `modulo` of 64 bits.
#[inline(always)]
fn modulo_64(index: u64, n: u64) -> u64
    requires { 1 ≤ n }
    ensures is { result ≡ index % n }
    ensures below { result < n }
{
    if index < n { index } else { index % n }
}

/// A found word as a value: of a pointer field nil or a reference to a word of the heap, else a number.
#[inline(always)]
pub fn value_of(pages: u32, pointer: bool, found: u64) -> Value
    requires some { 1 ≤ pages }
    requires few { pages ≤ 1024 }
    ensures is { result ≡ value_of pages pointer found }
    ensures near { IsNear pages result }
{
    if !pointer {
        Value::Int(found)
    } else if found == 0 {
        Value::Nil
    } else {
        Value::Ref(modulo_64(found - 1, 1024 * u64::from(pages)) + 1)
    }
}

/// The word that a value is written as.
pub(crate) fn word_of_value(value: Value) -> u64
    ensures { result ≡ word_of_value value }
{
    match value {
        Value::Nil => 0,
        Value::Int(number) => number,
        Value::Ref(reference) => reference,
    }
}

/// A pointer field meets a number, or a number field nil or a reference.
pub(crate) fn kinds_differ(pointer: bool, value: Value) -> bool
    ensures { result ≡ kinds_differ pointer value }
{
    match value {
        Value::Int(_) => pointer,
        _ => !pointer,
    }
}
