//! The shapes of types: which words of an object are pointer fields.

ghost use Rattle.std.specs.Prelude.{◌≡◌, ℕ, ◌<◌, List, length};
ghost use Rattle.gh_base.specs.Shapes.{bits_at, shape_at};

use std::marker::Model;

/// The pointer fields of a type: bit j of word i stands for field 64 i + j.
#[derive(Debug, Drop)]
pub struct Bits {
    /// The words.
    pub words: Vec<u64>,
}

impl Model for Bits {
    ghost use Rattle.std.specs.Prelude.{ℕ, List};

    ghost Value = { List ℕ };

    ghost view = { λ b. b.words.items };
}

/// A type's shape. `FitsShape` of specs/Shapes.antt states what is said here of its fields; who makes a list of shapes shows
/// `ShapesFit` of it.
#[derive(Debug, Drop)]
pub struct Shape {
    /// Its length in words, 1 to `MOST_TYPE_WORDS`.
    pub words: u32,
    /// That it has no pointer field: true exactly where no bit is set.
    pub noscan: bool,
    /// Its pointer fields. No bit is set from the length on; words that are not there are 0.
    pub bits: Bits,
}

/// The shapes of a script's types, in the order in which it names them.
#[derive(Debug, Drop)]
pub struct Shapes {
    /// A row a type.
    pub rows: Vec<Shape>,
}

impl Model for Shapes {
    ghost use Rattle.std.specs.Prelude.{List};
    ghost use Rattle.gh_base.specs.declared.shape.Shape.{Shape};

    ghost Value = { List Shape };

    ghost view = { λ s. s.rows.items };
}

impl Shapes {
    /// How many types there are.
    pub fn count(&self) -> usize
        ensures { result ≡ length self.now }
    {
        self.rows.len()
    }

    /// The length of type `t` in words.
    pub fn words(&self, t: u32) -> u32
        requires { t < length self.now }
        ensures { result ≡ (shape_at self.now t).words }
    {
        self.rows[t as usize].words
    }

    /// That type `t` has no pointer field.
    pub fn noscan(&self, t: u32) -> bool
        requires { t < length self.now }
        ensures { result ≡ (shape_at self.now t).noscan }
    {
        self.rows[t as usize].noscan
    }

    /// The pointer fields 64 i to 64 i + 63 of type `t`, a bit each.
    pub fn bits(&self, t: u32, i: u32) -> u64
        requires { t < length self.now }
        ensures { result ≡ bits_at (shape_at self.now t) i }
    {
        let shape = &self.rows[t as usize];
        let words = &shape.bits.words;
        if (i as usize) < words.len() {
            words[i as usize]
        } else {
            0
        }
    }
}
