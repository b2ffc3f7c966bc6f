//! The settings that a script gives.

ghost use Rattle.std.specs.Prelude.{◌≡◌, ◌≤◌, unwrap_or};
ghost use Rattle.gh_script.specs.Draft.{given_at, globals_in, nothing_given, settings_in, with_given};

use crate::key::Setting;
use crate::statement::Settings;

/// Each setting as it was given, if it was.
#[derive(Clone, Copy, Debug)]
pub struct Given {
    pub procs: Option<u32>,
    pub workers: Option<u32>,
    pub arena: Option<u32>,
    pub globals: Option<u32>,
    pub gogc: Option<u32>,
    pub minheap: Option<u32>,
}

/// No setting.
pub fn nothing() -> Given
    ensures { result ≡ nothing_given }
{
    Given {
        procs: None,
        workers: None,
        arena: None,
        globals: None,
        gogc: None,
        minheap: None,
    }
}

/// What a setting was given as.
pub fn given_at(given: &Given, setting: Setting) -> Option<u32>
    ensures { result ≡ given_at given.now setting }
{
    match setting {
        Setting::Procs => given.procs,
        Setting::Workers => given.workers,
        Setting::Arena => given.arena,
        Setting::Globals => given.globals,
        Setting::Gogc => given.gogc,
        Setting::Minheap => given.minheap,
    }
}

/// The settings with one more.
pub fn with_given(mut given: Given, setting: Setting, number: u32) -> Given
    ensures { result ≡ with_given given setting number }
{
    match setting {
        Setting::Procs => given.procs = Some(number),
        Setting::Workers => given.workers = Some(number),
        Setting::Arena => given.arena = Some(number),
        Setting::Globals => given.globals = Some(number),
        Setting::Gogc => given.gogc = Some(number),
        Setting::Minheap => given.minheap = Some(number),
    }
    given
}

/// How many globals there are.
pub fn globals(given: &Given) -> u32
    ensures { result ≡ globals_in given.now }
{
    given.globals.unwrap_or(1)
}

/// The settings, each as given, or its default: for minheap a quarter of the arena's bytes.
pub fn settings(given: &Given) -> Settings
    requires { unwrap_or given.now.arena 256 ≤ 1024 }
    ensures { result ≡ settings_in given.now }
{
    let arena = given.arena.unwrap_or(256);
    Settings {
        procs: given.procs.unwrap_or(1),
        workers: given.workers.unwrap_or(1),
        arena,
        globals: globals(given),
        gogc: given.gogc.unwrap_or(100),
        minheap: given.minheap.unwrap_or(2048 * arena),
    }
}
