//! A text is verified line by line, once all its lines are known.

ghost use Rattle.std.specs.Prelude.{◌≡◌, ℕ, ◌≤◌, [], List, Option, length, IfOk, IfErr, OnOk, Ok, Err};
ghost use Rattle.gh_dump.specs.declared.fault.DumpFault.{DumpFault};
ghost use Rattle.gh_dump.specs.declared.fault.DumpWhy.{DumpWhy};
ghost use Rattle.gh_dump.specs.declared.fault.VerifyError.TheVariants.{Dump};
ghost use Rattle.gh_dump.specs.declared.item.Item.{Item};
ghost use Rattle.gh_dump.specs.Index.{Indexes, IsSmall};
ghost use Rattle.gh_dump.specs.Items.{items_of};
ghost use Rattle.gh_dump.specs.Kept.{IsBefore};
ghost use Rattle.gh_dump.specs.Read.{AreRight, IsFirstFault};
ghost use Rattle.gh_dump.specs.Verdict.{Accepts, AnswersCount, AnswersFault, Faults, IsVerdict, most_bytes};

use crate::before::Before;
use crate::cause::cause;
use crate::fault::{DumpFault, DumpWhy, VerifyError};
use crate::index::Index;
use crate::line::item;
use gh_script::{behind, feed_index, stripped};
use std::alloc::{AllocError, Global};

/// The most bytes of a dump.
pub const MOST_DUMP_BYTES: usize = 268_435_456;

/// Gives the lines of a text to an index that has none.
fn fill(index: &mut Index, text: &[u8]) -> Result<(), AllocError>
    requires short { length text.now ≤ most_bytes }
    requires none { Indexes index.old [] }
    requires small { IsSmall index.old }
    ensures { OnOk result (Indexes index.new (items_of text.now)) }
{
    let mut rest = text;
    'lines: while !rest.is_empty() {
        let end = feed_index(rest);
        let line = item(stripped(&rest[..end]));
        index.add(line)?;
        rest = behind(rest, end);
    }
    Ok(())
}

/// The first line with a cause, and its first cause, or what all lines say.
fn first_cause(index: &Index, text: &[u8]) -> Result<Before, DumpFault>
    ghost items: { List (Option Item) }
    requires same { items ≡ items_of text.now }
    requires short { length text.now ≤ most_bytes }
    requires whole { Indexes index.now items }
    ensures right { IfOk result (λ before. AreRight before items) }
    ensures fault { IfErr result (λ fault. IsFirstFault fault items) }
{
    let mut before = Before::nothing();
    let mut rest = text;
    'lines: while !rest.is_empty() {
        let end = feed_index(rest);
        let line = item(stripped(&rest[..end]));
        match cause(index, &before, &line) {
            Some(why) => {
                return Err(DumpFault {
                    line: before.lines + 1,
                    why,
                });
            }
            None => {}
        }
        before.add(line);
        rest = behind(rest, end);
    }
    Ok(before)
}

/// The verdict on a text that isn't too long.
fn verdict(alloc: Global, text: &[u8]) -> Result<u32, VerifyError>
    requires { length text.now ≤ most_bytes }
    ensures { IsVerdict text.now result }
{
    let mut index = Index::nothing(alloc);
    fill(&mut index, text)?;
    match first_cause(&index, text) {
        Err(fault) => Err(VerifyError::Dump(fault)),
        Ok(before) => {
            if before.has_total {
                Ok(index.objects)
            } else {
                let why = DumpWhy::Total;
                Err(VerifyError::Dump(DumpFault {
                    line: before.lines,
                    why,
                }))
            }
        }
    }
}

fn check(alloc: Global, text: &[u8]) -> Result<u32, VerifyError>
    ensures { IsVerdict text.now result }
{
    if text.len() > MOST_DUMP_BYTES {
        let why = DumpWhy::Size;
        return Err(VerifyError::Dump(DumpFault { line: 0, why }));
    }
    verdict(alloc, text)
}

/// How many objects a text lists in which no line has a cause, or the first line with a cause, from 1
/// (0: no line), and its first cause.
///
/// A text that is accepted lists exactly the objects that its globals reach by its fields
/// ([`accepted_texts_certify`](crate::accepted_texts_certify)). Each text is accepted or refused
/// ([`one_verdict`](crate::one_verdict)). One of more than 268,435,456 bytes is refused as `Size`
/// whatever it holds, so at most 268,435,457 bytes of it are needed.
pub fn verify(alloc: Global, text: &[u8]) -> Result<u32, VerifyError>
    ensures accepted { IfOk result (λ n. Accepts text.now n) }
    ensures refused { (fault : DumpFault) → result ≡ Err (Dump fault) → Faults text.now fault.line fault.why }
    ensures counted { (n : ℕ) → Accepts text.now n → AnswersCount result n }
    ensures faulted { (line : ℕ) (why : DumpWhy) → Faults text.now line why → AnswersFault result line why }
{
    check(alloc, text)
}
