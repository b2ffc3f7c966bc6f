//! A line of a dump, read by itself.

ghost use Rattle.std.specs.Prelude.{◌≡◌, drop};
ghost use Rattle.gh_script.specs.Said.{said};
ghost use Rattle.gh_script.specs.Text.{words_of};
ghost use Rattle.gh_dump.specs.Items.{begins_object, field_item, global_item, item_by_global, item_by_parent, item_of, short_item, total_item};

use crate::item::Item;
use crate::spelled::{name, number, reference};
use gh_script::{Sentence, next_word, words};

/// `global k ref X`, its first and its third word being right.
fn global_item(s: &Sentence) -> Option<Item>
    ensures { result ≡ global_item (said s.now) }
{
    let k = number(s.second)?;
    let x = reference(s.fourth)?;
    Some(Item::Global(k, x))
}

/// `field i ref X`, likewise.
fn field_item(s: &Sentence) -> Option<Item>
    ensures { result ≡ field_item (said s.now) }
{
    let i = number(s.second)?;
    let x = reference(s.fourth)?;
    Some(Item::Field(i, x))
}

/// `total N bytes B`, likewise.
fn total_item(s: &Sentence) -> Option<Item>
    ensures { result ≡ total_item (said s.now) }
{
    let n = number(s.second)?;
    let bytes = number(s.fourth)?;
    Some(Item::Total(n, bytes))
}

/// A line of four words.
#[tactic(auto, unfolding(crate::specs::Items::short_item))]
fn short_item(s: &Sentence) -> Option<Item>
    ensures { result ≡ short_item (said s.now) }
{
    if s.first == b"global".as_slice() && s.third == b"ref".as_slice() {
        global_item(s)
    } else if s.first == b"field".as_slice() && s.third == b"ref".as_slice() {
        field_item(s)
    } else if s.first == b"total".as_slice() && s.third == b"bytes".as_slice() {
        total_item(s)
    } else {
        None
    }
}

/// That a line begins as an object's.
fn is_object(s: &Sentence, t: &Sentence) -> bool
    ensures { result ≡ begins_object (said s.now) (said t.now) }
{
    s.first == b"object".as_slice()
        && s.third == b"bytes".as_slice()
        && t.first == b"rank".as_slice()
}

/// `object NAME bytes B rank r global k`
#[tactic(auto, unfolding(crate::specs::Items::item_by_global))]
fn item_by_global(s: &Sentence, t: &Sentence) -> Option<Item>
    ensures { result ≡ item_by_global (said s.now) (said t.now) }
{
    if !is_object(s, t) || t.third != b"global".as_slice() {
        return None;
    }
    let object = name(s.second)?;
    let bytes = number(s.fourth)?;
    let rank = number(t.second)?;
    let k = number(t.fourth)?;
    Some(Item::ObjectByGlobal(object, bytes, rank, k))
}

/// `object NAME bytes B rank r parent NAME field i`
#[tactic(auto, unfolding(crate::specs::Items::item_by_parent))]
fn item_by_parent(s: &Sentence, t: &Sentence, u: &Sentence) -> Option<Item>
    ensures { result ≡ item_by_parent (said s.now) (said t.now) (said u.now) }
{
    if !is_object(s, t) || t.third != b"parent".as_slice() || u.first != b"field".as_slice() {
        return None;
    }
    let object = name(s.second)?;
    let bytes = number(s.fourth)?;
    let rank = number(t.second)?;
    let parent = name(t.fourth)?;
    let field = number(u.second)?;
    Some(Item::ObjectByParent(object, bytes, rank, parent, field))
}

/// What follows the first word.
fn behind_one(line: &[u8]) -> &[u8]
    ensures { words_of result.now ≡ drop 1 (words_of line.now) }
{
    next_word(line).1
}

/// What follows the first four words.
fn behind_four(line: &[u8]) -> &[u8]
    ensures { words_of result.now ≡ drop 4 (words_of line.now) }
{
    behind_one(behind_one(behind_one(behind_one(line))))
}

/// What a line says; `None` if it is none of the forms.
#[tactic(auto, unfolding(crate::specs::Items::item_of, crate::specs::Items::item_in))]
pub fn item(line: &[u8]) -> Option<Item>
    ensures { result ≡ item_of line.now }
{
    let first = words(line);
    if first.count == 4 {
        return short_item(&first);
    }
    let rest = behind_four(line);
    let second = words(rest);
    if first.count == 8 {
        item_by_global(&first, &second)
    } else if first.count == 10 {
        item_by_parent(&first, &second, &words(behind_four(rest)))
    } else {
        None
    }
}
