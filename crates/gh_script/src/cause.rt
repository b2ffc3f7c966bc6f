//! The first cause for which a line is refused: the tests of the table, in its order.

ghost use Rattle.std.specs.Prelude.{◌≡◌};
ghost use Rattle.gh_script.specs.Said.{said};
ghost use Rattle.gh_script.specs.Limits.{least, most};
ghost use Rattle.gh_script.specs.Grammar.{
  cause_at,
  is_limit_fault,
  is_misspelt,
  is_nesting_fault,
  is_no_number,
  is_no_register,
  is_number_fault,
  is_twice_fault,
  is_unknown_fault,
  is_word_fault,
  number_in,
  words_in,
};

use crate::draft::Draft;
use crate::fault::Why;
use crate::given::{given_at, globals};
use crate::key::{Key, Setting};
use crate::line::Sentence;
use crate::shape_text::{are_counts, are_letters, fits_limits};
use crate::word::{is_name, number, register};
use gh_base::limits;
use gh_base::limits::{LEAST_PAGES, MOST_GLOBALS, MOST_PAGES, MOST_PROCS, MOST_WORKERS};

/// The most types of a script.
pub const MOST_TYPES: usize = 64;
/// The most goroutines of a script.
pub const MOST_GOROUTINES: usize = limits::MOST_GOROUTINES as usize;
/// The most times that a body of `repeat` stands.
const MOST_TIMES: u64 = limits::MOST_STATEMENTS as u64;
/// The most `repeat`s that are open at once.
const MOST_REPEATS: usize = 8;
/// The greatest field that a statement names.
const MOST_FIELD: u64 = 65_535;

fn words_in(key: Key) -> usize
    ensures { result ≡ words_in key }
{
    match key {
        Key::Setting(_) => 2,
        Key::Type => 3,
        Key::Go => 2,
        Key::Repeat => 2,
        Key::End => 1,
        Key::New => 3,
        Key::Load => 4,
        Key::Store => 4,
        Key::GetGlobal => 3,
        Key::SetGlobal => 3,
        Key::Int => 3,
        Key::Move => 3,
        Key::Nil => 2,
        Key::Gc => 1,
    }
}

fn is_no_register(word: &[u8]) -> bool
    ensures { result ≡ is_no_register word.now }
{
    register(word).is_none()
}

/// Whether a register, a name or the letters of a shape are misspelt.
fn is_misspelt(key: Key, line: &Sentence) -> bool
    ensures { result ≡ is_misspelt key (said line.now) }
{
    match key {
        Key::Setting(_) => false,
        Key::Type => !is_name(line.second) || !are_letters(line.third),
        Key::Go => !is_name(line.second),
        Key::Repeat | Key::End => false,
        Key::New => is_no_register(line.second) || !is_name(line.third),
        Key::Load => is_no_register(line.second) || is_no_register(line.third),
        Key::Store => is_no_register(line.second) || is_no_register(line.fourth),
        Key::GetGlobal => is_no_register(line.second),
        Key::SetGlobal => is_no_register(line.third),
        Key::Int => is_no_register(line.second),
        Key::Move => is_no_register(line.second) || is_no_register(line.third),
        Key::Nil => is_no_register(line.second),
        Key::Gc => false,
    }
}

fn is_word_fault(key: Key, line: &Sentence) -> bool
    ensures { result ≡ is_word_fault key (said line.now) }
{
    line.count != words_in(key) || is_misspelt(key, line)
}

fn is_no_number(word: &[u8]) -> bool
    ensures { result ≡ is_no_number word.now }
{
    number(word).is_none()
}

/// Whether something else stands where a number belongs.
fn is_number_fault(key: Key, line: &Sentence) -> bool
    ensures { result ≡ is_number_fault key (said line.now) }
{
    match key {
        Key::Setting(_) => is_no_number(line.second),
        Key::Type => !are_counts(line.third),
        Key::Repeat => is_no_number(line.second),
        Key::Go | Key::End | Key::New => false,
        Key::Load => is_no_number(line.fourth),
        Key::Store => is_no_number(line.third),
        Key::GetGlobal => is_no_number(line.third),
        Key::SetGlobal => is_no_number(line.second),
        Key::Int => is_no_number(line.third),
        Key::Move | Key::Nil | Key::Gc => false,
    }
}

/// The number that a word spells, 0 where it spells none.
pub fn number_in(word: &[u8]) -> u64
    ensures { result ≡ number_in word.now }
{
    number(word).unwrap_or(0)
}

/// The least number of a setting.
pub fn least(setting: Setting) -> u64
    ensures { result ≡ least setting }
{
    match setting {
        Setting::Procs | Setting::Workers | Setting::Globals => 1,
        Setting::Arena => u64::from(LEAST_PAGES),
        Setting::Gogc | Setting::Minheap => 0,
    }
}

/// The greatest number of a setting.
pub fn most(setting: Setting) -> u64
    ensures { result ≡ most setting }
{
    match setting {
        Setting::Procs => u64::from(MOST_PROCS),
        Setting::Workers => u64::from(MOST_WORKERS),
        Setting::Arena => u64::from(MOST_PAGES),
        Setting::Globals => u64::from(MOST_GLOBALS),
        Setting::Gogc => 1000,
        Setting::Minheap => 8_388_608,
    }
}

/// Whether a number, a length or a count lies outside its limits.
fn is_limit_fault(draft: &Draft, key: Key, line: &Sentence) -> bool
    ensures { result ≡ is_limit_fault draft.now key (said line.now) }
{
    match key {
        Key::Setting(x) => {
            let n = number_in(line.second);
            n < least(x) || n > most(x)
        }
        Key::Type => !fits_limits(line.third) || draft.types() >= MOST_TYPES,
        Key::Go => draft.begun() >= MOST_GOROUTINES,
        Key::Repeat => {
            let n = number_in(line.second);
            n < 1 || n > MOST_TIMES
        }
        Key::End => draft.is_too_long(),
        Key::Load => number_in(line.fourth) > MOST_FIELD,
        Key::Store => number_in(line.third) > MOST_FIELD,
        Key::GetGlobal => number_in(line.third) >= u64::from(globals(&draft.given)),
        Key::SetGlobal => number_in(line.second) >= u64::from(globals(&draft.given)),
        Key::New | Key::Int | Key::Move | Key::Nil | Key::Gc => false,
    }
}

/// Whether a setting stands a second time, or a name is taken.
fn is_twice_fault(draft: &Draft, key: Key, line: &Sentence) -> bool
    ensures { result ≡ is_twice_fault draft.now key (said line.now) }
{
    match key {
        Key::Setting(x) => given_at(&draft.given, x).is_some(),
        Key::Type => draft.type_of(line.second).is_some(),
        Key::Go => draft.has_goroutine(line.second),
        _ => false,
    }
}

/// Whether `new` names no type.
fn is_unknown_fault(draft: &Draft, key: Key, line: &Sentence) -> bool
    ensures { result ≡ is_unknown_fault draft.now key (said line.now) }
{
    match key {
        Key::New => draft.type_of(line.third).is_none(),
        _ => false,
    }
}

/// Whether the line stands where it may not.
fn is_nesting_fault(draft: &Draft, key: Key) -> bool
    ensures { result ≡ is_nesting_fault draft.now key }
{
    match key {
        Key::Setting(_) => draft.begun() >= 1,
        Key::Type => draft.begun() >= 1,
        Key::Go => draft.is_open(),
        Key::Repeat => !draft.is_open() || draft.repeats_open() >= MOST_REPEATS,
        _ => !draft.is_open(),
    }
}

/// The first cause of the table that a line meets.
#[tactic(auto, unfolding(crate::specs::Grammar::cause_at))]
pub fn cause(draft: &Draft, key: Key, line: &Sentence) -> Option<Why>
    ensures { result ≡ cause_at draft.now key (said line.now) }
{
    if is_word_fault(key, line) {
        Some(Why::Word)
    } else if is_number_fault(key, line) {
        Some(Why::Number)
    } else if is_limit_fault(draft, key, line) {
        Some(Why::Limit)
    } else if is_twice_fault(draft, key, line) {
        Some(Why::Twice)
    } else if is_unknown_fault(draft, key, line) {
        Some(Why::Unknown)
    } else if is_nesting_fault(draft, key) {
        Some(Why::Nesting)
    } else {
        None
    }
}
