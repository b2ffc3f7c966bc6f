//! The text of a generated script.

ghost use Rattle.std.specs.Prelude.{◌≡◌, ◌*◌, ◌/◌, ◌≤◌, ◌++◌, [], ◌∷◌, codes, decimal, map, IfOk, OnOk};
ghost use Rattle.gh_script.specs.Generated.{
  generated_name,
  generated_text,
  GeneratedGoroutinesKeepApart,
  GeneratedScriptsHaveTheirSize,
  GeneratedScriptsSpell,
  goroutine_lines,
  spaced,
  state_behind,
  statement_by,
  statement_words,
  statements_drawn,
  text_of,
};

use crate::form::script_form;
use crate::statement::Stmt;
use itoa::Buffer;
use rand_core::SeedableRng;
use rand_core::utils::NextWord;
use rand_xoshiro::SplitMix64;
use std::alloc::{AllocError, Global};

/// How many goroutines a generated script has.
const GOROUTINES: u32 = 4;

/// The settings and the type of every generated script.
const HEAD: &[u8] =
    b"procs 4\nworkers 2\narena 1024\nglobals 4\ngogc 50\nminheap 65536\ntype node ppn\n";

/// The most bytes of a statement's line.
const LINE_BYTES: usize = 14;

/// The bytes of all other lines: those of `HEAD`, and 10 bytes for each goroutine.
const OTHER_BYTES: usize = 115;

/// The statement that goroutine `g` has by a word.
#[tactic(auto, unfolding(crate::specs::Generated::statement_by))]
fn statement_by(g: u32, word: u64) -> Stmt
    ensures { result ≡ statement_by g word }
{
    let a = (word / 8 % 4) as u32;
    let c = (word / 32 % 4) as u32;
    let k = (word / 128 % 2) as u32;
    match word % 8 {
        0 | 1 => Stmt::New { d: a, t: 0 },
        2 => Stmt::Store { b: a, k, v: c },
        3 => Stmt::Load { d: a, b: c, k },
        4 => Stmt::SetGlobal { k: g, v: a },
        5 => Stmt::GetGlobal { d: a, k: g },
        6 => Stmt::Move { d: a, s: c },
        _ => Stmt::Nil { d: a },
    }
}

/// Appends a piece.
fn put(text: &mut Vec<u8>, piece: &[u8]) -> Result<(), AllocError>
    ensures { OnOk result (text.new.items ≡ text.old.items ++ piece.now) }
{
    text.extend_from_slice(piece)
}

/// Appends a piece and, behind it, the decimal digits of a number.
fn put_number(text: &mut Vec<u8>, piece: &[u8], n: u32) -> Result<(), AllocError>
    ensures { OnOk result (text.new.items ≡ text.old.items ++ (piece.now ++ decimal n)) }
{
    let mut digits = Buffer::new();
    text.extend_from_slice(piece)?;
    text.extend_from_slice(digits.format(n).as_bytes())
}

/// The same for a wide number.
fn put_wide(text: &mut Vec<u8>, piece: &[u8], n: u64) -> Result<(), AllocError>
    ensures { OnOk result (text.new.items ≡ text.old.items ++ (piece.now ++ decimal n)) }
{
    let mut digits = Buffer::new();
    text.extend_from_slice(piece)?;
    text.extend_from_slice(digits.format(n).as_bytes())
}

/// Appends a line with one number: what stands before it and behind it.
fn put_one(text: &mut Vec<u8>, before: &[u8], n: u32, behind: &[u8]) -> Result<(), AllocError>
    ensures { OnOk result (text.new.items ≡ text.old.items ++ (before.now ++ (decimal n ++ behind.now))) }
{
    put_number(text, before, n)?;
    put(text, behind)
}

/// Appends a line with two numbers: what stands before each.
fn put_two(
    text: &mut Vec<u8>,
    first: &[u8],
    n: u32,
    second: &[u8],
    m: u32,
) -> Result<(), AllocError>
    ensures { OnOk result (text.new.items ≡ text.old.items ++ (first.now ++ (decimal n ++ (second.now ++ (decimal m ++ 10 ∷ []))))) }
{
    put_number(text, first, n)?;
    put_one(text, second, m, b"\n")
}

/// Appends a line with three numbers: what stands before each.
fn put_three(
    text: &mut Vec<u8>,
    first: &[u8],
    n: u32,
    second: &[u8],
    m: u32,
    third: &[u8],
    l: u32,
) -> Result<(), AllocError>
    ensures { OnOk result (text.new.items ≡ text.old.items ++ (first.now ++ (decimal n ++ (second.now ++ (decimal m ++ (third.now ++ (decimal l ++ 10 ∷ []))))))) }
{
    put_number(text, first, n)?;
    put_two(text, second, m, third, l)
}

/// Appends the line of `int`.
fn put_int(text: &mut Vec<u8>, d: u32, n: u64) -> Result<(), AllocError>
    ensures { OnOk result (text.new.items ≡ text.old.items ++ (codes "int r" ++ (decimal d ++ (codes " " ++ (decimal n ++ 10 ∷ []))))) }
{
    put_number(text, b"int r", d)?;
    put_wide(text, b" ", n)?;
    put(text, b"\n")
}

/// Appends the line of a statement.
fn put_statement(text: &mut Vec<u8>, statement: Stmt) -> Result<(), AllocError>
    ensures { OnOk result (text.new.items ≡ text.old.items ++ (spaced (statement_words statement) ++ 10 ∷ [])) }
{
    match statement {
        Stmt::New { d, t: _ } => put_one(text, b"new r", d, b" node\n"),
        Stmt::Load { d, b, k } => put_three(text, b"load r", d, b" r", b, b" ", k),
        Stmt::Store { b, k, v } => put_three(text, b"store r", b, b" ", k, b" r", v),
        Stmt::GetGlobal { d, k } => put_two(text, b"gload r", d, b" ", k),
        Stmt::SetGlobal { k, v } => put_two(text, b"gstore ", k, b" r", v),
        Stmt::Int { d, n } => put_int(text, d, n),
        Stmt::Move { d, s } => put_two(text, b"move r", d, b" r", s),
        Stmt::Nil { d } => put_one(text, b"nil r", d, b"\n"),
        Stmt::Gc => put(text, b"gc\n"),
    }
}

/// Appends the lines of goroutine `g` for the next `n` words.
fn put_statements(
    text: &mut Vec<u8>,
    draws: &mut SplitMix64,
    g: u32,
    n: u32,
) -> Result<(), AllocError>
    ensures text { OnOk result (text.new.items ≡ text.old.items ++ text_of (map statement_words (statements_drawn draws.old g n))) }
    ensures draws { OnOk result (draws.new ≡ state_behind draws.old n) }
{
    for _ in 0..n {
        put_statement(text, statement_by(g, draws.next_word()))?;
    }
    Ok(())
}

/// Appends goroutine `g` with `n` statements.
fn put_goroutine(
    text: &mut Vec<u8>,
    draws: &mut SplitMix64,
    g: u32,
    n: u32,
) -> Result<(), AllocError>
    ensures text { OnOk result (text.new.items ≡ text.old.items ++ text_of (goroutine_lines (record { name = generated_name g; statements = statements_drawn draws.old g n }))) }
    ensures draws { OnOk result (draws.new ≡ state_behind draws.old n) }
{
    put_number(text, b"go g", g)?;
    put(text, b"\n")?;
    put_statements(text, draws, g, n)?;
    put(text, b"end\n")
}

/// The text of the script of a seed and a size: four goroutines, g0 to g3, with `size / 4` statements
/// each on four registers, the global of the goroutine's own number, and objects of one type.
///
/// A word of SplitMix64, which begins with the seed, says each statement, in the order of the text.
/// All memory is taken before the first line, at most 2.8 MB. The only error is that it was refused.
pub fn generate(alloc: Global, seed: u64, size: u32) -> Result<Vec<u8>, AllocError>
    requires { (4 ≤ size) × (size ≤ 200000) }
    ensures { IfOk result (λ text. text.items ≡ generated_text seed size) }
{
    let mut text = Vec::with_capacity(alloc, LINE_BYTES * size as usize + OTHER_BYTES)?;
    put(&mut text, HEAD)?;
    let mut draws = SplitMix64::seed_from_u64(seed);
    for g in 0..GOROUTINES {
        put_goroutine(&mut text, &mut draws, g, size / 4)?;
    }
    Ok(text)
}

/// The text of a generated script spells the script that is meant.
pub fn generated_scripts_spell()
    ensures { GeneratedScriptsSpell }
{
    script_form();
}

/// A generated script has four goroutines with `size / 4` statements each.
pub fn generated_scripts_have_their_size()
    ensures { GeneratedScriptsHaveTheirSize }
{}

/// Each goroutine of a generated script goes to no global but that of its own number, and makes objects
/// of one type: so no goroutine ever holds an object of another.
pub fn generated_goroutines_keep_apart()
    ensures { GeneratedGoroutinesKeepApart }
{}
