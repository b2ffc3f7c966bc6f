//! A script that is made without a text.

ghost use Rattle.std.specs.Prelude.{◌≡◌, ◌+◌, ◌≤◌, ◌++◌, map, replicate, string_bytes, IfOk, OnOk, Err, Some, None};
ghost use Rattle.gh_script.specs.declared.fault.Why.{Why};
ghost use Rattle.gh_script.specs.declared.fault.ScriptFault.{ScriptFault};
ghost use Rattle.gh_script.specs.Generated.{generated_name};
ghost use Rattle.gh_script.specs.Grammar.{line_fault};
ghost use Rattle.gh_script.specs.Limits.{most_statements};
ghost use Rattle.gh_script.specs.Made.{
  are_within,
  asking,
  asking_from,
  AsLimits,
  goroutine_cause,
  goroutines_cause,
  is_within,
  IsMade,
  made_cause,
  made_program,
  shape_spelled,
  type_cause,
  types_cause,
};
ghost use Rattle.gh_script.specs.Outcome.{Faults, TakesProgram};

use crate::cause::{MOST_GOROUTINES, MOST_TYPES, least, most};
use crate::fault::{ParseError, ScriptFault, Why};
use crate::goroutine::{Goroutine, MOST_STATEMENTS};
use crate::key::Setting;
use crate::script::Script;
use crate::shape_text::{are_counts, are_letters, fits_limits, shape};
use crate::statement::{Settings, Stmt};
use gh_base::{Shape, Shapes};
use itoa::Buffer;
use std::alloc::{AllocError, Global};

/// How many `new` and how many `gc` a goroutine has.
#[derive(Clone, Copy, Debug, PartialEq, Eq)]
pub struct Wishes {
    pub news: u32,
    pub gcs: u32,
}

impl Script {
    /// A script that is made without a text: these settings; types of these shapes, spelled as in the language (`pn`, `p*3n`); and
    /// goroutines with so many `new` of type 0 and then so many `gc`, with the names g0, g1 and so on.
    ///
    /// It has the limits and the causes of [`crate::parse`], in the order of a text. It is refused for the first that it meets:
    /// `Limit` for a setting; for each type in turn `Word`, `Number` and `Limit`, as its shape's word; for each goroutine in turn
    /// `Limit`, if it is one too many or its `new` alone are, `Unknown`, if it has a `new` and there is no type, and `Limit`, if with
    /// it there are too many statements; and `Missing`, if there is no goroutine. The fault's line is 0.
    pub fn make(
        alloc: Global,
        settings: Settings,
        types: &[&str],
        goroutines: &[Wishes],
    ) -> Result<Script, ParseError>
        ensures made { IfOk result (λ script. script ≡ made_program settings (map (λ t. t.now) types.now) goroutines.now) }
        ensures refused { (fault : ScriptFault) → result ≡ Err (ParseError.Script fault) → made_cause settings (map (λ t. t.now) types.now) goroutines.now ≡ Some fault.why }
        ensures taken { made_cause settings (map (λ t. t.now) types.now) goroutines.now ≡ None → TakesProgram result (made_program settings (map (λ t. t.now) types.now) goroutines.now) }
        ensures faulted { (why : Why) → made_cause settings (map (λ t. t.now) types.now) goroutines.now ≡ Some why → Faults result 0 why }
    {
        made(alloc, settings, types, goroutines)
    }
}

/// The same.
fn made(
    alloc: Global,
    settings: Settings,
    types: &[&str],
    wishes: &[Wishes],
) -> Result<Script, ParseError>
    ensures { IsMade result (made_cause settings (map (λ t. t.now) types.now) wishes.now) (made_program settings (map (λ t. t.now) types.now) wishes.now) }
{
    if !are_within(&settings) {
        return Err(ParseError::Script(refusal(Why::Limit)));
    }
    let rows = match shapes(alloc, types) {
        Ok(rows) => rows,
        Err(e) => return Err(e),
    };
    let goroutines = match asking_all(alloc, types.len(), wishes) {
        Ok(goroutines) => goroutines,
        Err(e) => return Err(e),
    };
    if goroutines.is_empty() {
        return Err(ParseError::Script(refusal(Why::Missing)));
    }
    Ok(Script {
        settings,
        shapes: Shapes { rows },
        goroutines,
    })
}

/// A cause of no line.
fn refusal(why: Why) -> ScriptFault
    ensures { result ≡ line_fault 0 why }
{
    ScriptFault { line: 0, why }
}

fn is_within(setting: Setting, number: u32) -> bool
    ensures { result ≡ is_within setting number }
{
    let number = u64::from(number);
    least(setting) <= number && number <= most(setting)
}

/// Whether each setting is within its limits.
#[tactic(auto, unfolding(crate::specs::Made::are_within))]
fn are_within(settings: &Settings) -> bool
    ensures { result ≡ are_within settings.now }
{
    is_within(Setting::Procs, settings.procs)
        && is_within(Setting::Workers, settings.workers)
        && is_within(Setting::Arena, settings.arena)
        && is_within(Setting::Globals, settings.globals)
        && is_within(Setting::Gogc, settings.gogc)
        && is_within(Setting::Minheap, settings.minheap)
}

/// The cause for which a type is refused, behind `i` others.
#[tactic(auto, unfolding(crate::specs::Made::type_cause))]
fn type_cause(i: usize, word: &[u8]) -> Option<Why>
    ensures { result ≡ type_cause i word.now }
{
    if !are_letters(word) {
        Some(Why::Word)
    } else if !are_counts(word) {
        Some(Why::Number)
    } else if !fits_limits(word) || i >= MOST_TYPES {
        Some(Why::Limit)
    } else {
        None
    }
}

/// The shape of a type, behind `i` others.
fn shape_at(alloc: Global, i: usize, word: &str) -> Result<Shape, ParseError>
    ensures cause { AsLimits result (type_cause i word.now) }
    ensures shape { IfOk result (λ shape. shape ≡ shape_spelled word.now) }
{
    let word = word.as_bytes();
    if let Some(why) = type_cause(i, word) {
        return Err(ParseError::Script(refusal(why)));
    }
    Ok(shape(alloc, word)?)
}

/// The shapes of all types.
fn shapes(alloc: Global, types: &[&str]) -> Result<Vec<Shape>, ParseError>
    ensures cause { AsLimits result (types_cause 0 (map (λ t. t.now) types.now)) }
    ensures shapes { IfOk result (λ shapes. shapes.items ≡ map shape_spelled (map (λ t. t.now) types.now)) }
{
    let mut rows = Vec::new(alloc);
    for i in 0..types.len() {
        match shape_at(alloc, i, types[i]) {
            Ok(shape) => rows.push(shape)?,
            Err(e) => return Err(e),
        }
    }
    Ok(rows)
}

/// The cause for which a goroutine is refused, behind `g` others with so many statements.
#[tactic(auto, unfolding(crate::specs::Made::goroutine_cause))]
fn goroutine_cause(types: usize, g: usize, before: usize, wishes: Wishes) -> Option<Why>
    requires { before ≤ most_statements }
    ensures { result ≡ goroutine_cause types g before wishes }
{
    let news = wishes.news as usize;
    let gcs = wishes.gcs as usize;
    if g >= MOST_GOROUTINES || news > MOST_STATEMENTS {
        Some(Why::Limit)
    } else if news > 0 && types == 0 {
        Some(Why::Unknown)
    } else if before + (news + gcs) > MOST_STATEMENTS {
        Some(Why::Limit)
    } else {
        None
    }
}

/// The name of goroutine `g`.
fn name(alloc: Global, g: u32) -> Result<String, AllocError>
    ensures { IfOk result (λ name. string_bytes name ≡ generated_name g) }
{
    let mut digits = Buffer::new();
    let mut name = String::from_str(alloc, "g")?;
    name.push_str(digits.format(g))?;
    Ok(name)
}

/// Adds a statement so many times.
fn push_times(statements: &mut Vec<Stmt>, statement: Stmt, times: u32) -> Result<(), AllocError>
    ensures { OnOk result (statements.new.items ≡ statements.old.items ++ replicate times statement) }
{
    for _k in 0..times {
        statements.push(statement)?;
    }
    Ok(())
}

/// Goroutine `g` with so many `new` and `gc`.
#[tactic(auto, unfolding(crate::specs::Made::asking))]
fn asking(alloc: Global, g: u32, wishes: Wishes) -> Result<Goroutine, AllocError>
    ensures { IfOk result (λ goroutine. goroutine ≡ asking g wishes) }
{
    let name = name(alloc, g)?;
    let mut statements = Vec::new(alloc);
    push_times(&mut statements, Stmt::New { d: 0, t: 0 }, wishes.news)?;
    push_times(&mut statements, Stmt::Gc, wishes.gcs)?;
    Ok(Goroutine { name, statements })
}

/// The same, unless it is refused behind `g` others with so many statements.
fn asking_at(
    alloc: Global,
    types: usize,
    g: usize,
    before: usize,
    wishes: Wishes,
) -> Result<Goroutine, ParseError>
    requires { before ≤ most_statements }
    ensures cause { AsLimits result (goroutine_cause types g before wishes) }
    ensures few { OnOk result (before + (wishes.news + wishes.gcs) ≤ most_statements) }
    ensures goroutine { IfOk result (λ goroutine. goroutine ≡ asking g wishes) }
{
    if let Some(why) = goroutine_cause(types, g, before, wishes) {
        return Err(ParseError::Script(refusal(why)));
    }
    Ok(asking(alloc, g as u32, wishes)?)
}

/// All goroutines, where there are so many types.
fn asking_all(alloc: Global, types: usize, wishes: &[Wishes]) -> Result<Vec<Goroutine>, ParseError>
    ensures cause { AsLimits result (goroutines_cause types 0 0 wishes.now) }
    ensures goroutines { IfOk result (λ goroutines. goroutines.items ≡ asking_from 0 wishes.now) }
{
    let mut goroutines = Vec::new(alloc);
    let mut before = 0;
    for g in 0..wishes.len() {
        match asking_at(alloc, types, g, before, wishes[g]) {
            Ok(goroutine) => goroutines.push(goroutine)?,
            Err(e) => return Err(e),
        }
        before += wishes[g].news as usize + wishes[g].gcs as usize;
    }
    Ok(goroutines)
}
