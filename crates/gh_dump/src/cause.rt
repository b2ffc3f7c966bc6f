//! The first cause for which a line is refused: the tests of the table, in its order.

ghost use Rattle.std.specs.Prelude.{◌≡◌, ℕ, List, Option, Some, take};
ghost use Rattle.gh_dump.specs.declared.item.Item.{Item};
ghost use Rattle.gh_dump.specs.Causes.{
  cause_of,
  is_above,
  is_held,
  is_misplaced,
  is_parent_fault,
  is_total_fault,
  is_twice_fault,
  is_unknown_fault,
  is_within,
  is_word_fault,
};
ghost use Rattle.gh_dump.specs.Index.{Indexes};
ghost use Rattle.gh_dump.specs.Kept.{IsBefore};
ghost use Rattle.gh_dump.specs.Listing.{field_of, is_listed, rank_of};

use crate::before::Before;
use crate::fault::DumpWhy;
use crate::index::Index;
use crate::item::Item;
use crate::name::Name;

/// Whether a global stands behind an object, or a field before any.
fn is_misplaced(before: &Before, line: &Item) -> bool
    ghost items: { List (Option Item) }
    requires { IsBefore before.now items }
    ensures { result ≡ is_misplaced items line.now }
{
    match line {
        Item::Global(_, _) => before.has_object,
        Item::Field(_, _) => !before.has_object,
        _ => false,
    }
}

/// Whether the line is none of the forms, or stands where it may not.
fn is_word_fault(before: &Before, line: &Option<Item>) -> bool
    ghost items: { List (Option Item) }
    requires { IsBefore before.now items }
    ensures { result ≡ is_word_fault items line.now }
{
    match line {
        None => true,
        Some(item) => before.has_total || is_misplaced(before, item),
    }
}

/// Whether a number is no greater than the last one.
fn is_within(n: u32, last: Option<u32>) -> bool
    ensures { result ≡ is_within n last }
{
    match last {
        None => false,
        Some(m) => n <= m,
    }
}

/// Whether a line before lists the object.
fn is_listed_before(index: &Index, before: &Before, object: Name) -> bool
    ghost items: { List (Option Item) }
    requires whole { Indexes index.now items }
    requires before { IsBefore before.now (take before.now.lines items) }
    ensures { result ≡ is_listed (take before.now.lines items) object }
{
    match index.first(object) {
        Some(first) => first.line < before.lines,
        None => false,
    }
}

/// Whether the object is listed already, or a number isn't above the last one of its group.
fn is_twice_fault(index: &Index, before: &Before, line: &Option<Item>) -> bool
    ghost items: { List (Option Item) }
    requires whole { Indexes index.now items }
    requires before { IsBefore before.now (take before.now.lines items) }
    ensures { result ≡ is_twice_fault (take before.now.lines items) line.now }
{
    match line {
        Some(Item::ObjectByGlobal(object, _, _, _)) => is_listed_before(index, before, *object),
        Some(Item::ObjectByParent(object, _, _, _, _)) => is_listed_before(index, before, *object),
        Some(Item::Global(k, _)) => is_within(*k, before.last_global),
        Some(Item::Field(i, _)) => is_within(*i, before.last_field),
        _ => false,
    }
}

/// Whether the object is listed.
fn is_listed(index: &Index, object: Name) -> bool
    ghost items: { List (Option Item) }
    requires { Indexes index.now items }
    ensures { result ≡ is_listed items object }
{
    index.first(object).is_some()
}

/// Whether the object of a reference is listed nowhere.
fn is_unknown_fault(index: &Index, line: &Option<Item>) -> bool
    ghost items: { List (Option Item) }
    requires { Indexes index.now items }
    ensures { result ≡ is_unknown_fault items line.now }
{
    match line {
        Some(Item::Global(_, x)) => !is_listed(index, x.object),
        Some(Item::Field(_, x)) => !is_listed(index, x.object),
        _ => false,
    }
}

/// Whether the rank is one more than the parent's, if it is listed.
fn is_above(index: &Index, parent: Name, rank: u32) -> bool
    ghost items: { List (Option Item) }
    requires { Indexes index.now items }
    ensures { result ≡ is_above (rank_of items parent) rank }
{
    match index.first(parent) {
        Some(first) => rank > 0 && first.rank == rank - 1,
        None => false,
    }
}

/// Whether the parent's field holds the object.
fn is_held(index: &Index, parent: Name, field: u32, object: Name) -> bool
    ghost items: { List (Option Item) }
    requires { Indexes index.now items }
    ensures { result ≡ is_held (field_of items parent field) object }
{
    match index.held(parent, field) {
        Some(held) => held == object,
        None => false,
    }
}

/// Whether what the line says of the object's origin isn't listed.
fn is_parent_fault(index: &Index, line: &Option<Item>) -> bool
    ghost items: { List (Option Item) }
    requires { Indexes index.now items }
    ensures { result ≡ is_parent_fault items line.now }
{
    match line {
        Some(Item::ObjectByGlobal(object, _, _, k)) => !index.is_global_to(*k, *object),
        Some(Item::ObjectByParent(object, _, rank, parent, i)) => {
            !(is_above(index, *parent, *rank) && is_held(index, *parent, *i, *object))
        }
        _ => false,
    }
}

/// Whether the numbers aren't those of what is listed.
fn is_total_fault(index: &Index, line: &Option<Item>) -> bool
    ghost items: { List (Option Item) }
    requires { Indexes index.now items }
    ensures { result ≡ is_total_fault items line.now }
{
    match line {
        Some(Item::Total(n, bytes)) => !(*n == index.objects && u64::from(*bytes) == index.bytes),
        _ => false,
    }
}

/// The first cause of the table that the line has.
#[tactic(auto, unfolding(crate::specs::Causes::cause_of))]
pub fn cause(index: &Index, before: &Before, line: &Option<Item>) -> Option<DumpWhy>
    ghost items: { List (Option Item) }
    requires whole { Indexes index.now items }
    requires before { IsBefore before.now (take before.now.lines items) }
    ensures { result ≡ cause_of items (take before.now.lines items) line.now }
{
    if is_word_fault(before, line) {
        Some(DumpWhy::Word)
    } else if is_twice_fault(index, before, line) {
        Some(DumpWhy::Twice)
    } else if is_unknown_fault(index, line) {
        Some(DumpWhy::Unknown)
    } else if is_parent_fault(index, line) {
        Some(DumpWhy::Parent)
    } else if is_total_fault(index, line) {
        Some(DumpWhy::Total)
    } else {
        None
    }
}
