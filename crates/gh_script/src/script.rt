//! A script that was taken.

ghost use Rattle.std.specs.Prelude.{◌≡◌, ◌<◌, ◌≤◌, length};
ghost use Rattle.gh_script.specs.Program.{goroutine_at, statement_at, statements_of, WellFormed};

use crate::goroutine::Goroutine;
use crate::statement::{Settings, Stmt};
use gh_base::Shapes;
use std::marker::Model;

/// What a script says: contracts see its settings, its shapes and its goroutines.
#[derive(Debug, Drop)]
pub struct Script {
    pub(crate) settings: Settings,
    pub(crate) shapes: Shapes,
    pub(crate) goroutines: Vec<Goroutine>,
}

impl Model for Script {
    ghost use Rattle.gh_script.specs.Program.{Program, WellFormed};

    ghost Value = { Program };

    ghost view = { λ s. record { settings = s.settings; shapes = s.shapes; goroutines = s.goroutines.items } };

    ghost invariant = { λ s. WellFormed (record { settings = s.settings; shapes = s.shapes; goroutines = s.goroutines.items }) };
}

impl Script {
    /// Each script is within the limits of the language: its settings, its types and their shapes,
    /// its goroutines and their names, and the numbers of its statements.
    pub fn is_well_formed(&self)
        ensures { WellFormed self.now }
    {
        let _settings = self.settings;
    }

    /// The settings.
    pub fn settings(&self) -> Settings
        ensures { result ≡ self.now.settings }
    {
        self.settings
    }

    /// The shapes of its types, in the order in which it names them.
    pub fn shapes(&self) -> &Shapes
        ensures { result.now ≡ self.now.shapes }
    {
        &self.shapes
    }

    /// How many goroutines there are.
    pub fn goroutines(&self) -> u32
        ensures { result ≡ length self.now.goroutines }
    {
        self.goroutines.len() as u32
    }

    /// The name of goroutine `g`, of 1 to 16 bytes.
    pub fn name(&self, g: u32) -> &str
        requires { g < length self.now.goroutines }
        ensures name { result.now ≡ (goroutine_at self.now g).name }
        ensures short { length result.now ≤ 16 }
    {
        self.goroutines[g as usize].name()
    }

    /// How many statements goroutine `g` has, repetitions written out.
    pub fn count(&self, g: u32) -> u32
        requires { g < length self.now.goroutines }
        ensures { result ≡ length (statements_of self.now g) }
    {
        self.goroutines[g as usize].len() as u32
    }

    /// The statement number `n` of goroutine `g`, counted from 1, repetitions written out; `None`
    /// exactly where `n` is 0 or above the count.
    pub fn statement(&self, g: u32, n: u32) -> Option<Stmt>
        requires { g < length self.now.goroutines }
        ensures { result ≡ statement_at self.now g n }
    {
        if n == 0 {
            None
        } else {
            self.goroutines[g as usize].statement(n - 1)
        }
    }
}
