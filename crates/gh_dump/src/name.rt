//! Names of objects, and references to them.

ghost use Rattle.std.specs.Cmp.Rules.{comparing, hashing};
ghost use Rattle.std.proofs.Common.{rules};
ghost use Rattle.gh_dump.specs.Names.{name_writes, same_name};

use std::hash::{Hash, Hasher};

/// The name of an object: `a.0` is the first that goroutine `a` made.
#[derive(Clone, Copy, Debug)]
pub struct Name {
    /// The letters and digits of the goroutine's name, as one number of 16 bytes, the first letter least.
    pub goroutine: u128,
    /// The object's number, from 0.
    pub number: u32,
}

impl PartialEq for Name {
    ghost eq = { same_name };

    ghost laws = { Prim.search (comparing, rules) };

    fn eq(&self, other: &Name) -> bool {
        self.goroutine == other.goroutine && self.number == other.number
    }
}

impl Eq for Name {
    ghost laws = { Prim.search (comparing, rules) };
}

impl Hash for Name {
    ghost hash_input = { name_writes };

    ghost respects_eq = { Prim.search (hashing, rules) };

    fn hash<H: Hasher>(&self, state: &mut H) {
        state.write_u128(self.goroutine);
        state.write_u32(self.number);
    }
}

/// A reference to an object: its name, and an offset into it in words.
#[derive(Clone, Copy, Debug)]
pub struct Reference {
    /// The object.
    pub object: Name,
    /// The offset, in words. Nothing is asked of it.
    pub offset: u32,
}
