//! The table, and the class and the slot of an object.
ghost use Rattle.std.specs.Prelude.{◌≡◌, ◌+◌, ◌*◌, ◌-◌, ◌<◌, ◌≤◌, ◌↔◌, IfSome, IsNone, SomeIff, nat_le, position};
ghost use Rattle.gh_class.specs.Classes.{slot_sizes, slot_of, slot_words_of, pages_of, slots_of, span_index, IsClassOf, IsSizeClass, class_number, large_pages, size_class_of, slot_words};

use std::marker::Model;

/// How many size classes there are. Their numbers are 0 to 24.
pub const CLASSES: u32 = 25;
/// How many span classes there are: two to a size class.
pub const SPAN_CLASSES: u32 = 2 * CLASSES;
/// The most words of a type, which has one at least.
pub const MOST_TYPE_WORDS: u32 = 65_536;
/// The most pages of a span: those of the largest object.
pub const MOST_SPAN_PAGES: u32 = MOST_TYPE_WORDS / PAGE_WORDS;

// The bytes of a slot, by class.
const SLOT_BYTES: [u32; 25] = [
    8, 16, 24, 32, 48, 64, 80, 96, 112, 128, 160, 192, 256, 320, 384, 512, 768, 1024, 1408, 2048,
    3072, 4096, 8192, 16384, 32768,
];

// The pages of a span, by class.
const PAGES: [u32; 25] = [
    1, 1, 1, 1, 1, 1, 1, 1, 1, 1, 1, 1, 1, 1, 1, 1, 1, 1, 2, 1, 3, 1, 1, 2, 4,
];

// The bytes of a page, and its words of 8 bytes.
const PAGE_BYTES: u32 = 8192;

const PAGE_WORDS: u32 = 1024;

/// A size class, by its number. The classes go by rising slot size.
#[derive(Clone, Copy, PartialEq, Eq, Debug)]
pub struct Class {
    number: u8,
}

impl Model for Class {
    ghost use Rattle.std.specs.Prelude.{ℕ, ◌<◌};

    ghost Value = { ℕ };

    ghost view = { λ c. c.number };

    ghost invariant = { λ c. c.number < 25 };

    ghost inverse = { λ n. record { number = n } };
}

impl Class {
    /// The class of the smallest slots.
    pub const FIRST: Class = Class { number: 0 };

    /// The class of this number; `None` exactly from 25 on.
    pub fn from_number(number: u32) -> Option<Self>
        ensures { SomeIff result (number < 25) number }
    {
        if number < CLASSES {
            Some(Class {
                number: number as u8,
            })
        } else {
            None
        }
    }

    /// The class's number, 0 to 24.
    pub fn number(&self) -> u32
        ensures value { result ≡ self.now }
        ensures below { result < 25 }
    {
        u32::from(self.number)
    }

    /// The bytes of a slot, 8 to 32,768.
    #[tactic(auto, unfolding(crate::specs::Classes::slot_of, crate::specs::Classes::slot_sizes))]
    pub fn slot_bytes(&self) -> u32
        ensures value { result ≡ slot_of self.now }
        ensures range { (8 ≤ result) × (result ≤ 32768) }
        ensures among { self.now < 25 }
    {
        SLOT_BYTES[self.number as usize]
    }

    /// The words of a slot, 1 to 4096, each of 8 bytes.
    pub fn slot_words(&self) -> u32
        ensures value { result ≡ slot_words_of self.now }
        ensures range { (1 ≤ result) × (result ≤ 4096) }
        ensures among { self.now < 25 }
    {
        self.slot_bytes() / 8
    }

    /// The pages of a span, 1 to 4, each of 8192 bytes.
    #[tactic(auto, unfolding(crate::specs::Classes::pages_of, crate::specs::Classes::page_counts))]
    pub fn pages(&self) -> u32
        ensures value { result ≡ pages_of self.now }
        ensures range { (1 ≤ result) × (result ≤ 4) }
        ensures among { self.now < 25 }
    {
        PAGES[self.number as usize]
    }

    /// The slots of a span, 1 to 1024.
    pub fn slots(&self) -> u32
        ensures value { result ≡ slots_of self.now }
        ensures range { (1 ≤ result) × (result ≤ 1024) }
        ensures among { self.now < 25 }
    {
        PAGE_BYTES * self.pages() / self.slot_bytes()
    }
}

/// The size class of an object: one of the table's, or none of them.
#[derive(Clone, Copy, PartialEq, Eq, Debug)]
pub enum SizeClass {
    /// An object of at most 32,768 bytes, in a slot of this class.
    Small(Class),
    /// A larger object, in a span of its own.
    Large,
}

impl SizeClass {
    /// The size class of an object of so many words, each of 8 bytes.
    pub fn of_words(words: u32) -> SizeClass
        requires { words ≤ MOST_TYPE_WORDS }
        ensures is { result ≡ size_class_of words }
        ensures among { IsSizeClass result }
    {
        match class_of(8 * words) {
            Some(class) => SizeClass::Small(class),
            None => SizeClass::Large,
        }
    }
}

/// A span class (Go's `spanClass`, in mheap.go): what the objects are that a span's slots are for.
#[derive(Clone, Copy, PartialEq, Eq, Debug)]
pub struct SpanClass {
    /// Their size class.
    pub class: Class,
    /// That they have no pointer fields.
    pub noscan: bool,
}

impl SpanClass {
    /// Its number, 0 to 49: twice that of the size class, and 1 more for noscan.
    pub fn index(&self) -> u32
        ensures value { result ≡ span_index self.now }
        ensures below { result < 50 }
    {
        2 * self.class.number() + u32::from(self.noscan)
    }
}

/// The least class whose slot holds so many bytes; `None` exactly above 32,768. 0 bytes go to class 0.
pub fn class_of(bytes: u32) -> Option<Class>
    ensures class { IfSome result (IsClassOf bytes) }
    ensures number { IfSome result (λ c. c ≡ class_number bytes) }
    ensures none { IsNone result ↔ (32768 < bytes) }
{
    let number = first_holding(bytes)?;
    Some(Class {
        number: number as u8,
    })
}

// The place of the first slot that holds so many bytes.
#[tactic(auto, unfolding(crate::specs::Classes::slot_sizes))]
fn first_holding(bytes: u32) -> Option<usize>
    ensures place { result ≡ position (λ slot. nat_le bytes slot) slot_sizes }
    ensures below { IfSome result (λ n. n < 25) }
{
    SLOT_BYTES.iter().position(|slot| bytes <= *slot)
}

/// The fewest pages of 1024 words that hold so many words.
#[tactic(auto, unfolding(crate::specs::Classes::large_pages))]
pub fn large_pages(words: u32) -> u32
    ensures value { result ≡ large_pages words }
    ensures enough { words ≤ 1024 * result }
    ensures fewest { 0 < words → 1024 * (result - 1) < words }
{
    words.div_ceil(PAGE_WORDS)
}

/// The words of the slot of an object of so many words, each of 8 bytes: those of its class's slot,
/// and above 4096 words those of its pages.
pub fn slot_words(words: u32) -> u32
    requires { words ≤ MOST_TYPE_WORDS }
    ensures value { result ≡ slot_words words }
    ensures fits { words ≤ result }
    ensures bound { result ≤ MOST_TYPE_WORDS }
{
    match class_of(8 * words) {
        Some(class) => class.slot_bytes() / 8,
        None => PAGE_WORDS * large_pages(words),
    }
}
