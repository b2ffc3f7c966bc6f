//! Keywords, registers, numbers and names.

ghost use Rattle.std.specs.Prelude.{◌≡◌, ◌+◌, ◌-◌, ◌*◌, ◌^◌, ◌&&◌, nat_lt, if◌then◌else◌};
ghost use Rattle.std.specs.List.{list_all};
ghost use Rattle.gh_script.specs.Words.{
  block_key_of,
  digits_value_of,
  is_digit,
  is_letter,
  is_name,
  is_name_byte,
  key_of,
  number_spelled,
  register_named,
  setting_named,
  statement_key_of,
};

use crate::key::{Key, Setting};

#[tactic(auto, unfolding(crate::specs::Words::setting_named))]
fn setting(word: &[u8]) -> Option<Setting>
    ensures { result ≡ setting_named word.now }
{
    if word == b"procs".as_slice() {
        Some(Setting::Procs)
    } else if word == b"workers".as_slice() {
        Some(Setting::Workers)
    } else if word == b"arena".as_slice() {
        Some(Setting::Arena)
    } else if word == b"globals".as_slice() {
        Some(Setting::Globals)
    } else if word == b"gogc".as_slice() {
        Some(Setting::Gogc)
    } else if word == b"minheap".as_slice() {
        Some(Setting::Minheap)
    } else {
        None
    }
}

#[tactic(auto, unfolding(crate::specs::Words::block_key_of))]
fn block_key(word: &[u8]) -> Option<Key>
    ensures { result ≡ block_key_of word.now }
{
    if word == b"type".as_slice() {
        Some(Key::Type)
    } else if word == b"go".as_slice() {
        Some(Key::Go)
    } else if word == b"repeat".as_slice() {
        Some(Key::Repeat)
    } else if word == b"end".as_slice() {
        Some(Key::End)
    } else {
        None
    }
}

#[tactic(auto, unfolding(crate::specs::Words::statement_key_of))]
fn statement_key(word: &[u8]) -> Option<Key>
    ensures { result ≡ statement_key_of word.now }
{
    if word == b"new".as_slice() {
        Some(Key::New)
    } else if word == b"load".as_slice() {
        Some(Key::Load)
    } else if word == b"store".as_slice() {
        Some(Key::Store)
    } else if word == b"gload".as_slice() {
        Some(Key::GetGlobal)
    } else if word == b"gstore".as_slice() {
        Some(Key::SetGlobal)
    } else if word == b"int".as_slice() {
        Some(Key::Int)
    } else if word == b"move".as_slice() {
        Some(Key::Move)
    } else if word == b"nil".as_slice() {
        Some(Key::Nil)
    } else if word == b"gc".as_slice() {
        Some(Key::Gc)
    } else {
        None
    }
}

/// What a line is, as its first word says.
#[tactic(auto, unfolding(crate::specs::Words::key_of))]
pub fn key(word: &[u8]) -> Option<Key>
    ensures { result ≡ key_of word.now }
{
    if let Some(setting) = setting(word) {
        return Some(Key::Setting(setting));
    }
    if let Some(key) = block_key(word) {
        return Some(key);
    }
    statement_key(word)
}

fn is_digit(b: u8) -> bool
    ensures { result ≡ is_digit b }
{
    b >= b'0' && b <= b'9'
}

fn is_letter(b: u8) -> bool
    ensures { result ≡ is_letter b }
{
    b >= b'a' && b <= b'z'
}

/// The register that a word names, `r0` to `r15`.
#[tactic(auto, unfolding(crate::specs::Words::register_named))]
pub fn register(word: &[u8]) -> Option<u32>
    ensures { result ≡ register_named word.now }
{
    match word {
        [r, d] if *r == b'r' && is_digit(*d) => Some(u32::from(*d - b'0')),
        [r, t, d] if *r == b'r' && *t == b'1' && *d >= b'0' && *d <= b'5' => Some(
            10 + u32::from(*d - b'0'),
        ),
        _ => None,
    }
}

fn is_name_byte(b: u8) -> bool
    ensures { result ≡ is_name_byte b }
{
    is_letter(b) || is_digit(b)
}

fn are_name_bytes(word: &[u8]) -> bool
    ensures { result ≡ list_all is_name_byte word.now }
{
    word.iter().all(|b| is_name_byte(*b))
}

/// Whether a word is a name: 1 to 16 lower-case letters and digits, a letter first.
#[tactic(auto, unfolding(crate::specs::Words::is_name))]
pub fn is_name(word: &[u8]) -> bool
    ensures { result ≡ is_name word.now }
{
    match word {
        [] => false,
        [first, rest @ ..] => is_letter(*first) && rest.len() < 16 && are_name_bytes(rest),
    }
}

/// The number that one more digit makes; `None` where it is no digit, or past 64 bits.
fn next_value(value: u64, digit: u8) -> Option<u64>
    ensures { result ≡ (if is_digit digit && nat_lt (10 * value + (digit - 48)) (2 ^ 64) then Some (10 * value + (digit - 48)) else None) }
{
    if !is_digit(digit) {
        return None;
    }
    value.checked_mul(10)?.checked_add(u64::from(digit - b'0'))
}

/// The number that digits spell; `None` where one is no digit, or past 64 bits.
fn digits_value(digits: &[u8]) -> Option<u64>
    ensures { result ≡ digits_value_of digits.now }
{
    let mut value = 0;
    for b in digits {
        match next_value(value, *b) {
            Some(next) => value = next,
            None => return None,
        }
    }
    Some(value)
}

/// The number that a word spells.
#[tactic(auto, unfolding(crate::specs::Words::number_spelled))]
pub fn number(word: &[u8]) -> Option<u64>
    ensures { result ≡ number_spelled word.now }
{
    if word.is_empty() || word.len() > 20 {
        None
    } else {
        digits_value(word)
    }
}
