//! The shape of a type, as a word spells it.

ghost use Rattle.std.specs.Prelude.{◌≡◌, ◌+◌, ◌*◌, ◌<◌, ◌≤◌, ◌++◌, ◌&&◌, not, length, take, drop, replicate, IsTrue, OnOk, IfOk};
ghost use Rattle.std.specs.List.{list_all, list_any, position_or_len};
ghost use Rattle.gh_script.specs.ShapeText.{
  are_counts,
  are_letters,
  bits_as_number,
  fields_behind_letter,
  fields_in,
  fields_of,
  fits_limits,
  has_count,
  has_no_stray,
  is_kind,
  items_of,
  packed,
  shape_with,
  spread,
};
ghost use Rattle.gh_script.specs.ShapeSaid.{item_seen, with_item, PassesLimits};

use crate::word::number;
use gh_base::limits::MOST_TYPE_WORDS;
use gh_base::{Bits, Shape};
use std::alloc::{AllocError, Global};

/// A letter of a shape, and what stands behind it up to the next letter.
#[derive(Clone, Copy)]
pub struct Item<'a> {
    pub pointer: bool,
    pub tail: &'a [u8],
}

fn is_kind(b: u8) -> bool
    ensures { result ≡ is_kind b }
{
    b == b'p' || b == b'n'
}

/// Where the first letter stands, or the length.
#[tactic(auto, using(std::proofs::lemmas::List::Sums::position_or_len_is))]
fn kind_index(word: &[u8]) -> usize
    ensures at { result ≡ position_or_len is_kind word.now }
    ensures within { result ≤ length word.now }
{
    for (i, b) in word.iter().enumerate() {
        if is_kind(*b) {
            return i;
        }
    }
    word.len()
}

/// The item that begins at a place.
fn item_at(word: &[u8], i: usize) -> Option<Item<'_>>
    requires { i < length word.now }
    ensures { items_of (drop i word.now) ≡ with_item result (items_of (drop (i + 1) word.now)) }
{
    let kind = word[i];
    if !is_kind(kind) {
        return None;
    }
    let behind = &word[i + 1..];
    let tail = &behind[..kind_index(behind)];
    Some(Item {
        pointer: kind == b'p',
        tail,
    })
}

fn has_no_stray(item: &Item) -> bool
    ensures { result ≡ has_no_stray (item_seen item.now) }
{
    item.tail.is_empty() || item.tail[0] == b'*'
}

/// How many fields an item has; `None` where a number's place has none.
#[tactic(auto, unfolding(crate::specs::ShapeText::fields_behind_letter))]
fn count(item: &Item) -> Option<u64>
    ensures { result ≡ fields_behind_letter item.now.tail.now }
{
    if item.tail.is_empty() {
        Some(1)
    } else {
        number(&item.tail[1..])
    }
}

fn has_stray_at(word: &[u8], i: usize) -> bool
    requires { i < length word.now }
    ensures { list_all has_no_stray (items_of (drop i word.now)) ≡ (not result && list_all has_no_stray (items_of (drop (i + 1) word.now))) }
{
    match item_at(word, i) {
        None => false,
        Some(item) => !has_no_stray(&item),
    }
}

fn have_no_stray(word: &[u8]) -> bool
    ensures { result ≡ list_all has_no_stray (items_of word.now) }
{
    for i in 0..word.len() {
        if has_stray_at(word, i) {
            return false;
        }
    }
    true
}

/// Whether the letters of a shape are spelled right.
#[tactic(auto, unfolding(crate::specs::ShapeText::are_letters))]
pub fn are_letters(word: &[u8]) -> bool
    ensures { result ≡ are_letters word.now }
{
    !word.is_empty() && is_kind(word[0]) && have_no_stray(word)
}

fn lacks_count_at(word: &[u8], i: usize) -> bool
    requires { i < length word.now }
    ensures { list_all has_count (items_of (drop i word.now)) ≡ (not result && list_all has_count (items_of (drop (i + 1) word.now))) }
{
    match item_at(word, i) {
        None => false,
        Some(item) => count(&item).is_none(),
    }
}

/// How many fields an item has, 0 where a number's place has none.
fn field_count(item: &Item) -> u64
    ensures { result ≡ fields_in (item_seen item.now) }
{
    count(item).unwrap_or(0)
}

/// Whether numbers stand in the places of numbers.
#[tactic(auto, unfolding(crate::specs::ShapeText::are_counts))]
pub fn are_counts(word: &[u8]) -> bool
    ensures { result ≡ are_counts word.now }
{
    for i in 0..word.len() {
        if lacks_count_at(word, i) {
            return false;
        }
    }
    true
}

/// The fields so far, with those of the item at a place, if there is one; `None` past the limits.
fn total_past(word: &[u8], i: usize, total: u64) -> Option<u64>
    requires at { i < length word.now }
    requires so_far { total ≤ MOST_TYPE_WORDS }
    ensures { PassesLimits total result (items_of (drop i word.now)) (items_of (drop (i + 1) word.now)) }
{
    match item_at(word, i) {
        None => Some(total),
        Some(item) => {
            let fields = field_count(&item);
            if fields == 0 {
                return None;
            }
            if fields > MOST_TYPE_WORDS as u64 - total {
                None
            } else {
                Some(total + fields)
            }
        }
    }
}

/// Whether each count and the length of a shape are from 1 to `MOST_TYPE_WORDS`.
pub fn fits_limits(word: &[u8]) -> bool
    ensures { result ≡ fits_limits word.now }
{
    let mut total = 0;
    for i in 0..word.len() {
        match total_past(word, i, total) {
            Some(more) => total = more,
            None => return false,
        }
    }
    true
}

fn push_fields(fields: &mut Vec<bool>, pointer: bool, count: u64) -> Result<(), AllocError>
    ensures { OnOk result (fields.new.items ≡ fields.old.items ++ replicate count pointer) }
{
    for _k in 0..count {
        fields.push(pointer)?;
    }
    Ok(())
}

/// Adds the fields of the item at a place, if there is one.
fn push_item(fields: &mut Vec<bool>, word: &[u8], i: usize) -> Result<(), AllocError>
    requires { i < length word.now }
    ensures { OnOk result (fields.new.items ++ spread (items_of (drop (i + 1) word.now))
        ≡ fields.old.items ++ spread (items_of (drop i word.now))) }
{
    match item_at(word, i) {
        None => Ok(()),
        Some(item) => {
            push_fields(fields, item.pointer, field_count(&item))?;
            Ok(())
        }
    }
}

/// The fields of a shape one by one: which are pointers.
#[tactic(auto, unfolding(crate::specs::ShapeText::fields_of))]
fn fields(alloc: Global, word: &[u8]) -> Result<Vec<bool>, AllocError>
    ensures { IfOk result (λ fields. fields.items ≡ fields_of word.now) }
{
    let mut fields = Vec::new(alloc);
    for i in 0..word.len() {
        push_item(&mut fields, word, i)?;
    }
    Ok(fields)
}

/// At most 64 fields as a word, a bit each, the first lowest.
fn word_of_fields(fields: &[bool]) -> u64
    requires { length fields.now ≤ 64 }
    ensures { result ≡ bits_as_number fields.now }
{
    let mut word = 0;
    let mut i = fields.len();
    while i > 0 {
        i -= 1;
        word = 2 * word + u64::from(fields[i]);
    }
    word
}

/// Word `i` of the packed fields.
fn packed_word(fields: &[bool], i: usize) -> u64
    requires many { length fields.now ≤ MOST_TYPE_WORDS }
    requires within { 64 * i ≤ length fields.now }
    ensures { result ≡ bits_as_number (take 64 (drop (64 * i) fields.now)) }
{
    let rest = &fields[64 * i..];
    word_of_fields(&rest[..rest.len().min(64)])
}

fn packed(alloc: Global, fields: &[bool]) -> Result<Vec<u64>, AllocError>
    requires { length fields.now ≤ MOST_TYPE_WORDS }
    ensures { IfOk result (λ words. words.items ≡ packed fields.now) }
{
    let mut words = Vec::new(alloc);
    for i in 0..(fields.len() + 63) / 64 {
        words.push(packed_word(fields, i))?;
    }
    Ok(words)
}

fn has_pointer(fields: &[bool]) -> bool
    ensures { result ≡ list_any (λ pointer. pointer) fields.now }
{
    fields.iter().any(|pointer| *pointer)
}

#[tactic(auto, unfolding(crate::specs::ShapeText::shape_with))]
fn shape_with(alloc: Global, fields: &[bool]) -> Result<Shape, AllocError>
    requires { length fields.now ≤ MOST_TYPE_WORDS }
    ensures { IfOk result (λ shape. shape ≡ shape_with fields.now) }
{
    Ok(Shape {
        words: fields.len() as u32,
        noscan: !has_pointer(fields),
        bits: Bits {
            words: packed(alloc, fields)?,
        },
    })
}

/// The shape that a word spells.
pub fn shape(alloc: Global, word: &[u8]) -> Result<Shape, AllocError>
    requires { IsTrue (fits_limits word.now) }
    ensures { IfOk result (λ shape. shape ≡ shape_with (fields_of word.now)) }
{
    let fields = fields(alloc, word)?;
    shape_with(alloc, &fields)
}
