//! The goroutines of a script, and the one that is open while its lines are read.

ghost use Rattle.std.specs.Prelude.{◌≡◌, ◌≤◌, ◌++◌, drop, length, slice_get, take, IfOk, OnOk, Some};
ghost use Rattle.std.specs.List.{repeat};
ghost use Rattle.std.specs.Option.{option_map};
ghost use Rattle.gh_script.specs.Draft.{finished_goroutine, with_closed, with_repeat, with_statement, written_out};

use crate::statement::Stmt;
use gh_base::limits;
use std::alloc::{AllocError, Global};
use std::marker::Model;

/// The most statements of a script, repetitions written out.
pub const MOST_STATEMENTS: usize = limits::MOST_STATEMENTS as usize;

/// A goroutine's name and its statements, repetitions written out.
#[derive(Debug, Drop)]
pub struct Goroutine {
    pub name: String,
    pub statements: Vec<Stmt>,
}

impl Model for Goroutine {
    ghost use Rattle.std.specs.Prelude.{string_bytes};
    ghost use Rattle.gh_script.specs.Program.{Goroutine};

    ghost Value = { Goroutine };

    ghost view = { λ g. record { name = string_bytes g.name; statements = g.statements.items } };
}

impl Goroutine {
    /// The name.
    pub fn name(&self) -> &str
        ensures { result.now ≡ self.now.name }
    {
        self.name.as_str()
    }

    /// How many statements there are.
    pub fn len(&self) -> usize
        ensures { result ≡ length self.now.statements }
    {
        self.statements.len()
    }

    /// The statement number `n`, counted from 0.
    pub fn statement(&self, n: u32) -> Option<Stmt>
        ensures { result ≡ slice_get self.now.statements n }
    {
        self.statements.get(n as usize).copied()
    }
}

/// A `repeat` that is open: at which statement of the goroutine its body begins, counted from 0, and
/// how often the body stands.
#[derive(Clone, Copy, Debug)]
pub struct Repeat {
    pub start: usize,
    pub times: u32,
}

/// A goroutine that is open: its name, its statements so far with the body of each open `repeat`
/// once, and the open `repeat`s, innermost first.
///
/// More statements than a script may have can never get fewer, so they are let go: then there are
/// none.
#[derive(Debug, Drop)]
pub struct Open {
    pub name: String,
    pub statements: Option<Vec<Stmt>>,
    pub repeats: Vec<Repeat>,
}

impl Model for Open {
    ghost use Rattle.std.specs.Prelude.{string_bytes};
    ghost use Rattle.std.specs.Option.{option_map};
    ghost use Rattle.gh_script.specs.Draft.{Open};

    ghost Value = { Open };

    ghost view = { λ g. record { name = string_bytes g.name; statements = option_map (λ v. v.items) g.statements; repeats = g.repeats.items } };
}

impl Open {
    /// Adds a statement.
    #[tactic(auto, unfolding(crate::specs::Draft::kept))]
    pub fn add(&mut self, statement: Stmt) -> Result<(), AllocError>
        ensures { OnOk result (self.new ≡ with_statement (Some statement) self.old) }
    {
        if let Some(mut statements) = self.statements.take() {
            if statements.len() < MOST_STATEMENTS {
                statements.push(statement)?;
                self.statements = Some(statements);
            }
        }
        Ok(())
    }

    /// Opens a `repeat`.
    pub fn open_repeat(&mut self, times: u32) -> Result<(), AllocError>
        ensures { OnOk result (self.new ≡ with_repeat times self.old) }
    {
        let start = match &self.statements {
            None => 0,
            Some(statements) => statements.len(),
        };
        self.repeats.insert(0, Repeat { start, times })?;
        Ok(())
    }

    /// Closes the innermost `repeat`, if one is open.
    pub fn close_repeat(&mut self) -> Result<(), AllocError>
        ensures { OnOk result (self.new ≡ with_closed self.old self.old.repeats) }
    {
        if self.repeats.is_empty() {
            return Ok(());
        }
        let innermost = self.repeats.remove(0);
        if let Some(statements) = self.statements.take() {
            self.statements = written_out(statements, innermost)?;
        }
        Ok(())
    }

    /// The goroutine when it ends.
    pub fn into_goroutine(self, alloc: Global) -> Goroutine
        ensures { result ≡ finished_goroutine self }
    {
        let Open {
            name,
            statements,
            repeats: _,
        } = self;
        Goroutine {
            name,
            statements: statements.unwrap_or(Vec::new(alloc)),
        }
    }
}

/// Lets the statements from place `start` on stand so many times.
fn repeat_from(statements: &mut Vec<Stmt>, start: usize, times: u32) -> Result<(), AllocError>
    requires { start ≤ length statements.old.items }
    ensures { OnOk result (statements.new.items ≡ take start statements.old.items ++ repeat times (drop start statements.old.items)) }
{
    let end = statements.len();
    if start == end {
        return Ok(());
    }
    if times == 0 {
        statements.truncate(start);
        return Ok(());
    }
    for _k in 0..times - 1 {
        statements.extend_from_within(start..end)?;
    }
    Ok(())
}

/// The statements with the body of a `repeat` written out; `None` where they are more than a script
/// may have. The length is computed first, so no more than that many are ever held.
fn written_out(
    mut statements: Vec<Stmt>,
    innermost: Repeat,
) -> Result<Option<Vec<Stmt>>, AllocError>
    ensures { IfOk result (λ w. option_map (λ v. v.items) w ≡ written_out innermost statements.items) }
{
    let start = innermost.start.min(statements.len());
    let count = statements.len() - start;
    if count
        .saturating_mul(innermost.times as usize)
        .saturating_add(start)
        > MOST_STATEMENTS
    {
        return Ok(None);
    }
    repeat_from(&mut statements, start, innermost.times)?;
    Ok(Some(statements))
}
