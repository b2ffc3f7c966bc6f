//! A line that meets no cause is said: what the lines so far say goes on.

ghost use Rattle.std.specs.Prelude.{◌≡◌, ◌∷◌, ◌++◌, ◌≤◌, ◌<◌, ◌^◌, [], IsTrue, None, Some, OnOk, IfOk, string_bytes, unwrap_or};
ghost use Rattle.std.specs.Option.{option_map};
ghost use Rattle.gh_script.specs.Said.{said};
ghost use Rattle.gh_script.specs.Words.{is_name};
ghost use Rattle.gh_script.specs.ShapeText.{fields_of, fits_limits, shape_with};
ghost use Rattle.gh_script.specs.Draft.{block_ended, IsSound, just_begun, with_given, with_repeat, with_statement};
ghost use Rattle.gh_script.specs.Grammar.{cause_at, continued, number_in, register_in, statement_of};

use crate::cause;
use crate::draft::{Draft, Name};
use crate::given::with_given;
use crate::goroutine::Open;
use crate::key::{Key, Setting};
use crate::line::Sentence;
use crate::shape_text::shape;
use crate::statement::Stmt;
use crate::word::register;
use std::alloc::{AllocError, Global};

/// A number that a line was allowed to give.
fn small_number(word: &[u8]) -> u32
    requires { number_in word.now < 2 ^ 32 }
    ensures { result ≡ number_in word.now }
{
    cause::number_in(word) as u32
}

fn register_in(word: &[u8]) -> u32
    ensures { result ≡ register_in word.now }
{
    register(word).unwrap_or(0)
}

/// A name as text.
fn name_text(alloc: Global, word: &[u8]) -> Result<String, AllocError>
    requires { IsTrue (is_name word.now) }
    ensures { IfOk result (λ name. string_bytes name ≡ word.now) }
{
    match str::from_utf8(word) {
        Ok(name) => String::from_str(alloc, name),
        Err(_) => unreachable!(),
    }
}

/// The statement of a line.
fn statement(draft: &Draft, key: Key, line: &Sentence) -> Option<Stmt>
    requires sound { IsSound draft.now }
    requires allowed { cause_at draft.now key (said line.now) ≡ None }
    ensures { result ≡ statement_of draft.now.names key (said line.now) }
{
    let said = match key {
        Key::New => Stmt::New {
            d: register_in(line.second),
            t: draft.type_of(line.third).unwrap_or(0) as u32,
        },
        Key::Load => Stmt::Load {
            d: register_in(line.second),
            b: register_in(line.third),
            k: small_number(line.fourth),
        },
        Key::Store => Stmt::Store {
            b: register_in(line.second),
            k: small_number(line.third),
            v: register_in(line.fourth),
        },
        Key::GetGlobal => Stmt::GetGlobal {
            d: register_in(line.second),
            k: small_number(line.third),
        },
        Key::SetGlobal => Stmt::SetGlobal {
            k: small_number(line.second),
            v: register_in(line.third),
        },
        Key::Int => Stmt::Int {
            d: register_in(line.second),
            n: cause::number_in(line.third),
        },
        Key::Move => Stmt::Move {
            d: register_in(line.second),
            s: register_in(line.third),
        },
        Key::Nil => Stmt::Nil {
            d: register_in(line.second),
        },
        Key::Gc => Stmt::Gc,
        _ => return None,
    };
    Some(said)
}

impl Draft {
    fn set(&mut self, setting: Setting, number: u32)
        ensures { self.new ≡ record self.old { given = with_given self.old.given setting number } }
    {
        self.given = with_given(self.given, setting, number);
    }

    fn add_type(&mut self, alloc: Global, name: &[u8], word: &[u8]) -> Result<(), AllocError>
        requires { IsTrue (fits_limits word.now) }
        ensures { OnOk result (self.new ≡ record self.old { names = self.old.names ++ name.now ∷ []; shapes = self.old.shapes ++ shape_with (fields_of word.now) ∷ [] }) }
    {
        let shape = shape(alloc, word)?;
        let bytes = Vec::from_slice(alloc, name)?;
        self.names.push(Name { bytes })?;
        self.shapes.push(shape)?;
        Ok(())
    }

    fn begin(&mut self, alloc: Global, name: &[u8]) -> Result<(), AllocError>
        requires { IsTrue (is_name name.now) }
        ensures { OnOk result (self.new ≡ record self.old { current = Some (just_begun name.now) }) }
    {
        let name = name_text(alloc, name)?;
        self.current = Some(Open {
            name,
            statements: Some(Vec::new(alloc)),
            repeats: Vec::new(alloc),
        });
        Ok(())
    }

    fn repeat(&mut self, times: u32) -> Result<(), AllocError>
        ensures { OnOk result (self.new ≡ record self.old { current = option_map (with_repeat times) self.old.current }) }
    {
        if let Some(mut g) = self.current.take() {
            g.open_repeat(times)?;
            self.current = Some(g);
        }
        Ok(())
    }

    fn end(&mut self, alloc: Global) -> Result<(), AllocError>
        ensures { OnOk result (self.new ≡ block_ended self.old self.old.current) }
    {
        if let Some(mut g) = self.current.take() {
            if g.repeats.is_empty() {
                self.closed.push(g.into_goroutine(alloc))?;
            } else {
                g.close_repeat()?;
                self.current = Some(g);
            }
        }
        Ok(())
    }

    fn add_statement(&mut self, statement: Stmt) -> Result<(), AllocError>
        ensures { OnOk result (self.new ≡ record self.old { current = option_map (with_statement (Some statement)) self.old.current }) }
    {
        if let Some(mut g) = self.current.take() {
            g.add(statement)?;
            self.current = Some(g);
        }
        Ok(())
    }

    /// Adds what a line says.
    #[tactic(auto, unfolding(crate::specs::Grammar::continued))]
    pub fn go_on(&mut self, alloc: Global, key: Key, line: &Sentence) -> Result<(), AllocError>
        requires sound { IsSound self.old }
        requires allowed { cause_at self.old key (said line.now) ≡ None }
        ensures { OnOk result (self.new ≡ continued self.old key (said line.now)) }
    {
        match key {
            Key::Setting(x) => {
                self.set(x, small_number(line.second));
                Ok(())
            }
            Key::Type => self.add_type(alloc, line.second, line.third),
            Key::Go => self.begin(alloc, line.second),
            Key::Repeat => self.repeat(small_number(line.second)),
            Key::End => self.end(alloc),
            _ => match statement(self, key, line) {
                Some(said) => self.add_statement(said),
                None => Ok(()),
            },
        }
    }
}
