//! The list of a schedule, as a text spells it.

ghost use Rattle.std.specs.Prelude.{◌≡◌, ◌+◌, ◌<◌, ◌≤◌, ◌^◌, IfOk, IfSome, drop, length, option_map, Some};
ghost use Rattle.std.specs.List.{position_or_len};
ghost use Rattle.gh_script.specs.Words.{is_digit};
ghost use Rattle.gh_replay.specs.ListText.{is_comma, is_sign, list_of, ranged, turn_read, until_of};

use crate::schedule::{Turn, Until};
use std::alloc::{AllocError, Global};

/// The most items of a list.
pub const MOST_ITEMS: usize = 10_000;

/// The items that a text spells, or `None` where it is no list: 1 to [`MOST_ITEMS`] items, separated by single
/// commas, each of them `A*n`, so many steps of actor A, or `A@m`, the steps of A until its marks are at least
/// m, or `A!n`, so many turns of others than A. A is at most 255, n from 1 to 1,000,000 and m at most 2 ^ 32, each
/// spelled as numbers in scripts: 1 to 20 decimal digits. The only error is want of memory.
#[tactic(auto, unfolding(crate::specs::ListText::list_of))]
pub fn parse_list(alloc: Global, text: &str) -> Result<Option<Vec<Turn>>, AllocError>
    ensures { IfOk result (λ list. option_map (λ turns. turns.items) list ≡ list_of text.now) }
{
    let mut turns = Vec::new(alloc);
    let mut rest = text.as_bytes();
    'pieces: while turns.len() < MOST_ITEMS {
        let end = comma_index(rest);
        match turn(&rest[..end]) {
            Some(turn) => turns.push(turn)?,
            None => return Ok(None),
        }
        if end == rest.len() {
            return Ok(Some(turns));
        }
        rest = behind(rest, end);
    }
    Ok(None)
}

/// Where the first comma of a text stands, or its length.
#[tactic(auto, using(std::proofs::lemmas::List::Sums::position_or_len_is))]
fn comma_index(text: &[u8]) -> usize
    ensures at { result ≡ position_or_len is_comma text.now }
    ensures within { result ≤ length text.now }
{
    for (i, b) in text.iter().enumerate() {
        if *b == b',' {
            return i;
        }
    }
    text.len()
}

fn is_sign(b: u8) -> bool
    ensures { result ≡ is_sign b }
{
    b == b'*' || b == b'@' || b == b'!'
}

/// Where the first sign of an item stands, or its length.
#[tactic(auto, using(std::proofs::lemmas::List::Sums::position_or_len_is))]
fn sign_index(piece: &[u8]) -> usize
    ensures at { result ≡ position_or_len is_sign piece.now }
    ensures within { result ≤ length piece.now }
{
    for (i, b) in piece.iter().enumerate() {
        if is_sign(*b) {
            return i;
        }
    }
    piece.len()
}

/// What stands behind place `i` of a text.
fn behind(text: &[u8], i: usize) -> &[u8]
    requires { i < length text.now }
    ensures { result.now ≡ drop (i + 1) text.now }
{
    &text[i + 1..]
}

/// The item that a piece spells.
fn turn(piece: &[u8]) -> Option<Turn>
    ensures { result ≡ turn_read piece.now }
{
    let i = sign_index(piece);
    if i == piece.len() {
        return None;
    }
    let actor = match ranged(&piece[..i], 0, 255) {
        Some(actor) => actor as u8,
        None => return None,
    };
    match until(piece[i], behind(piece, i)) {
        Some(until) => Some(Turn { actor, until }),
        None => None,
    }
}

/// How long an item goes on, behind its sign.
fn until(sign: u8, word: &[u8]) -> Option<Until>
    ensures { result ≡ until_of (Some sign) word.now }
{
    if sign == b'*' {
        let steps = ranged(word, 1, 1_000_000)?;
        Some(Until::Steps(steps as u32))
    } else if sign == b'@' {
        let marks = ranged(word, 0, 4_294_967_296)?;
        Some(Until::Marks(marks))
    } else {
        let turns = ranged(word, 1, 1_000_000)?;
        Some(Until::Without(turns as u32))
    }
}

fn is_digit(b: u8) -> bool
    ensures { result ≡ is_digit b }
{
    b >= b'0' && b <= b'9'
}

/// The number that a word spells, where it is in its range.
fn ranged(word: &[u8], least: u64, most: u64) -> Option<u64>
    requires { most ≤ 2 ^ 32 }
    ensures number { result ≡ ranged least most word.now }
    ensures within { IfSome result (λ n. n ≤ most) }
{
    if word.is_empty() || word.len() > 20 {
        return None;
    }
    let mut value = 0;
    for b in word {
        if !is_digit(*b) {
            return None;
        }
        value = 10 * value + u64::from(*b - b'0');
        if value > most {
            return None;
        }
    }
    if value >= least { Some(value) } else { None }
}
