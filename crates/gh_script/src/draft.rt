//! What the lines so far say.

ghost use Rattle.std.specs.Prelude.{◌≡◌, ◌+◌, ◌<◌, MatchOption, is_some, sum_by, length};
ghost use Rattle.std.specs.Option.{option_map};
ghost use Rattle.std.specs.Str.{bytes_eq};
ghost use Rattle.gh_script.specs.Limits.{most_statements};
ghost use Rattle.gh_script.specs.Program.{statements_in};
ghost use Rattle.gh_script.specs.Draft.{are_too_many, blank_draft, goroutines_begun, has_goroutine, is_too_long, repeats_open, type_of};

use crate::given::{self, Given};
use crate::goroutine::{Goroutine, MOST_STATEMENTS, Open};
use crate::statement::Stmt;
use gh_base::Shape;
use std::alloc::Global;
use std::marker::Model;

/// The name of a type.
#[derive(Debug, Drop)]
pub struct Name {
    pub bytes: Vec<u8>,
}

impl Model for Name {
    ghost use Rattle.std.specs.Prelude.{ℕ, List};

    ghost Value = { List ℕ };

    ghost view = { λ n. n.bytes.items };
}

impl Name {
    fn is(&self, word: &[u8]) -> bool
        ensures { result ≡ bytes_eq self.now word.now }
    {
        self.bytes.as_slice() == word
    }
}

/// The settings given so far, the types with their names, the goroutines that have ended, and the
/// one that is open.
#[derive(Debug, Drop)]
pub struct Draft {
    pub given: Given,
    pub names: Vec<Name>,
    pub shapes: Vec<Shape>,
    pub closed: Vec<Goroutine>,
    pub current: Option<Open>,
}

impl Model for Draft {
    ghost use Rattle.gh_script.specs.Draft.{Draft};

    ghost Value = { Draft };

    ghost view = { λ d. record { given = d.given; names = d.names.items; shapes = d.shapes.items; closed = d.closed.items; current = d.current } };
}

impl Draft {
    /// Before the first line.
    pub fn blank(alloc: Global) -> Draft
        ensures { result ≡ blank_draft }
    {
        Draft {
            given: given::nothing(),
            names: Vec::new(alloc),
            shapes: Vec::new(alloc),
            closed: Vec::new(alloc),
            current: None,
        }
    }

    /// The place of the type of a name.
    #[tactic(auto, unfolding(crate::specs::Draft::type_of))]
    pub fn type_of(&self, word: &[u8]) -> Option<usize>
        ensures { result ≡ type_of self.now.names word.now }
    {
        self.names.iter().position(|name| name.is(word))
    }

    /// How many types there are.
    pub fn types(&self) -> usize
        ensures { result ≡ length self.now.names }
    {
        self.names.len()
    }

    /// Whether a goroutine of this name has begun.
    #[tactic(auto, unfolding(crate::specs::Draft::has_goroutine))]
    pub fn has_goroutine(&self, word: &[u8]) -> bool
        ensures { result ≡ has_goroutine self.now word.now }
    {
        for g in &self.closed {
            if g.name().as_bytes() == word {
                return true;
            }
        }
        match &self.current {
            None => false,
            Some(g) => g.name.as_bytes() == word,
        }
    }

    /// How many goroutines have begun.
    pub fn begun(&self) -> usize
        ensures { result ≡ goroutines_begun self.now }
    {
        if self.current.is_some() {
            self.closed.len() + 1
        } else {
            self.closed.len()
        }
    }

    /// Whether a goroutine is open.
    pub fn is_open(&self) -> bool
        ensures { result ≡ is_some self.now.current }
    {
        self.current.is_some()
    }

    /// How many `repeat`s are open.
    pub fn repeats_open(&self) -> usize
        ensures { result ≡ length (repeats_open self.now) }
    {
        match &self.current {
            None => 0,
            Some(g) => g.repeats.len(),
        }
    }

    /// Whether `end` would close a goroutine with which there are more statements than a script may
    /// have.
    pub fn is_too_long(&self) -> bool
        ensures { result ≡ is_too_long self.now.closed self.now.current }
    {
        match &self.current {
            None => false,
            Some(g) => g.repeats.is_empty() && are_too_many(&self.closed, &g.statements),
        }
    }
}

/// Whether these are more than a script may have behind these goroutines.
fn are_too_many(closed: &[Goroutine], statements: &Option<Vec<Stmt>>) -> bool
    ensures { result ≡ are_too_many closed.now (option_map (λ v. v.items) statements.now) }
{
    match (statements_left(closed), statements) {
        (Some(left), Some(statements)) => statements.len() > left,
        _ => true,
    }
}

/// How many more statements a script may have behind these goroutines; `None` where it has too many.
#[tactic(auto, using(std::proofs::lemmas::List::Sums::sum_by_more_le))]
fn statements_left(closed: &[Goroutine]) -> Option<usize>
    ensures { MatchOption result (most_statements < sum_by statements_in closed.now)
        (λ left. left + sum_by statements_in closed.now ≡ most_statements) }
{
    let mut left = MOST_STATEMENTS;
    for g in closed {
        if g.len() > left {
            return None;
        }
        left -= g.len();
    }
    Some(left)
}
