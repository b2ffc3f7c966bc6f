//! Numbers, names and references, as words spell them.

ghost use Rattle.std.specs.Prelude.{◌≡◌, ◌==◌, ◌≤◌, length};
ghost use Rattle.std.specs.List.{position_or_len};
ghost use Rattle.gh_dump.specs.Items.{letters_number, name_of, named, number_of, reference_of};

use crate::name::{Name, Reference};
use gh_script::{behind, is_name};

/// Where the first byte `b` of a word stands, or the word's length.
#[tactic(auto, using(std::proofs::lemmas::List::Sums::position_or_len_is))]
fn place_of(word: &[u8], b: u8) -> usize
    ensures at { result ≡ position_or_len (λ c. c == b) word.now }
    ensures within { result ≤ length word.now }
{
    for (i, c) in word.iter().enumerate() {
        if *c == b {
            return i;
        }
    }
    word.len()
}

/// The number that a word spells, if it has at most 32 bits.
#[tactic(auto, unfolding(crate::specs::Items::number_of))]
pub fn number(word: &[u8]) -> Option<u32>
    ensures { result ≡ number_of word.now }
{
    match gh_script::number(word) {
        Some(n) => if n < 4_294_967_296 {
            Some(n as u32)
        } else {
            None
        },
        None => None,
    }
}

/// The letters of a goroutine's name as one number, the first letter least.
fn letters(goroutine: &[u8]) -> u128
    requires { length goroutine.now ≤ 16 }
    ensures { result ≡ letters_number goroutine.now }
{
    let mut value: u128 = 0;
    let mut left = goroutine.len();
    while left > 0 {
        left -= 1;
        value = value * 256 + u128::from(goroutine[left]);
    }
    value
}

/// The object of that number of the goroutine.
fn named(goroutine: &[u8], number: u32) -> Option<Name>
    ensures { result ≡ named goroutine.now number }
{
    if is_name(goroutine) {
        Some(Name {
            goroutine: letters(goroutine),
            number,
        })
    } else {
        None
    }
}

/// The name that a word spells: a goroutine's name, a dot and a number.
#[tactic(auto, unfolding(crate::specs::Items::name_of))]
pub fn name(word: &[u8]) -> Option<Name>
    ensures { result ≡ name_of word.now }
{
    let dot = place_of(word, b'.');
    let number = number(behind(word, dot))?;
    named(&word[..dot], number)
}

/// The reference that a word spells: a name, or a name, a plus and an offset.
#[tactic(auto, unfolding(crate::specs::Items::reference_of))]
pub fn reference(word: &[u8]) -> Option<Reference>
    ensures { result ≡ reference_of word.now }
{
    let plus = place_of(word, b'+');
    if plus < word.len() {
        let object = name(&word[..plus])?;
        let offset = number(behind(word, plus))?;
        Some(Reference { object, offset })
    } else {
        let object = name(word)?;
        Some(Reference { object, offset: 0 })
    }
}
