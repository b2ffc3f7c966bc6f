//! What is reachable, by marks: passes over the cells mark what they lead to, until one marks
//! nothing.

ghost use Rattle.std.specs.Prelude.{◌≡◌, ◌<◌, ◌≤◌, ◌↔◌, IsTrue, All, Some, false, length, vec_len};
ghost use Rattle.gh_model.specs.Ever.{Reach};
ghost use Rattle.gh_ever.specs.Cells.{stored_value};
ghost use Rattle.gh_ever.specs.Lists.{ever_of};
ghost use Rattle.gh_ever.specs.Marks.{AreComplete, IsFollowed, IsSoundMarks, leads, marked, unmarked, with_mark};

use crate::cell::{Cell, Place, same_name};
use crate::kept::Kept;
use crate::object::Object;
use gh_base::Name;
use gh_model::EverValue;

/// Takes all marks away.
pub fn clear(marks: &mut Vec<bool>)
    ensures clear { All (λ mark. mark ≡ false) marks.new.items }
    ensures len { vec_len marks.new ≡ vec_len marks.old }
{
    for i in 0..marks.len() {
        marks[i] = false;
    }
}

/// That the object of this name is marked.
pub fn is_marked(objects: &Vec<Object>, marks: &Vec<bool>, n: Name) -> bool
    requires { vec_len objects.now ≤ vec_len marks.now }
    ensures { result ≡ marked objects.now.items marks.now.items n }
{
    for i in 0..objects.len() {
        if same_name(n, objects[i].name) {
            return marks[i];
        }
    }
    false
}

/// Marks the object of this name; whether that set a mark.
fn mark(objects: &Vec<Object>, marks: &mut Vec<bool>, n: Name) -> bool
    requires { vec_len objects.now ≤ vec_len marks.old }
    ensures marked { marks.new.items ≡ with_mark objects.now.items marks.old.items n }
    ensures len { vec_len marks.new ≡ vec_len marks.old }
    ensures fewer { IsTrue result → unmarked marks.new.items < unmarked marks.old.items }
    ensures same { result ≡ false → marks.new.items ≡ marks.old.items }
{
    for i in 0..objects.len() {
        if same_name(n, objects[i].name) {
            if marks[i] {
                return false;
            }
            marks[i] = true;
            return true;
        }
    }
    false
}

/// That what stands at the place is reachable, by the marks.
fn leads(kept: &Kept, marks: &Vec<bool>, place: Place) -> bool
    requires { length kept.now.objects ≤ vec_len marks.now }
    ensures { result ≡ leads kept.now marks.now.items place }
{
    match place {
        Place::Global(_) => true,
        Place::Register(g, _) => !kept.ended.get(g as usize).copied().unwrap_or(false),
        Place::Field(n, _) => is_marked(&kept.objects, marks, n),
    }
}

/// Marks what the cell leads to; whether that set a mark.
fn follow(kept: &Kept, marks: &mut Vec<bool>, cell: Cell) -> bool
    requires room { length kept.now.objects ≤ vec_len marks.old }
    requires held { stored_value kept.now.cells cell.place ≡ Some cell.value }
    ensures sound { IsSoundMarks kept.now marks.old.items → IsSoundMarks kept.now marks.new.items }
    ensures followed { result ≡ false → IsFollowed kept.now marks.new.items cell }
    ensures len { vec_len marks.new ≡ vec_len marks.old }
    ensures fewer { IsTrue result → unmarked marks.new.items < unmarked marks.old.items }
    ensures same { result ≡ false → marks.new.items ≡ marks.old.items }
{
    match cell.value {
        EverValue::Ref(n) => {
            if leads(kept, marks, cell.place) {
                mark(&kept.objects, marks, n)
            } else {
                false
            }
        }
        _ => false,
    }
}

/// Marks what the cells lead to, one after the other; whether that set a mark.
fn pass(kept: &Kept, marks: &mut Vec<bool>) -> bool
    requires room { length kept.now.objects ≤ vec_len marks.old }
    ensures sound { IsSoundMarks kept.now marks.old.items → IsSoundMarks kept.now marks.new.items }
    ensures complete { result ≡ false → AreComplete kept.now marks.new.items }
    ensures len { vec_len marks.new ≡ vec_len marks.old }
    ensures fewer { IsTrue result → unmarked marks.new.items < unmarked marks.old.items }
{
    let mut changed = false;
    for cell in &kept.cells {
        if follow(kept, marks, *cell) {
            changed = true;
        }
    }
    changed
}

/// That the heap reaches the object of this name.
pub fn reaches(kept: &Kept, marks: &mut Vec<bool>, n: Name) -> bool
    requires room { length kept.now.objects ≤ vec_len marks.old }
    ensures reach { IsTrue result ↔ Reach (ever_of kept.now) n }
    ensures len { vec_len marks.new ≡ vec_len marks.old }
{
    clear(marks);
    'passes: while pass(kept, marks) {}
    is_marked(&kept.objects, marks, n)
}
