//! What gives bytes, and reading it up to a limit.
ghost use Rattle.std.specs.Prelude.{◌≡◌, ℕ, ◌+◌, ◌<◌, ◌≤◌, List, Option, Err, IfOk, OnOk, OnErr, IfSome, length, take, vec_len};
ghost use Rattle.std.specs.Io.{StartsWith, appended_bytes};
ghost use Rattle.std.specs.Io.KnownBytes.{Consumes, IsAtEnd};
ghost use Rattle.gh_io.specs.Counts.{Rose};

use std::alloc::Global;
use thiserror::Error;

/// A read or a write of the outside that did not succeed.
#[derive(Clone, Copy, Debug, PartialEq, Eq, Error)]
#[error("a read or a write failed")]
pub struct Failed;

/// Why a source could not be read.
#[derive(Clone, Copy, Debug, PartialEq, Eq, Error)]
pub enum ReadError {
    /// A read failed.
    #[error("a read failed")]
    Failed,
    /// There was no memory for what was read.
    #[error("out of memory")]
    NoMemory,
}

/// What gives bytes, in order.
pub trait Source {
    /// What is left to read, where the source tells it.
    ghost left: { Self → Option (List ℕ) };

    /// How many faults there were so far.
    ghost faults: { Self → ℕ };

    /// Puts the next bytes at the front of `buf`, and answers how many. 0 on a buffer that is not
    /// empty is the end. `Failed` comes only where the count of faults rose, and a count only rises with
    /// it.
    fn read(&mut self, buf: &mut [u8]) -> Result<usize, Failed>
        ensures count { IfOk result (λ n. n ≤ length buf.old) }
        // The bytes are the next of those that were left.
        ensures next { IfOk result (λ n. Consumes (left self.old) (left self.new) (take n buf.new)) }
        ensures end { IfOk result (λ n. n ≡ 0 → 0 < length buf.old → IsAtEnd (left self.new)) }
        ensures kept { OnErr result (left self.new ≡ left self.old) }
        ensures failed { OnErr result (Rose (faults self.old) (faults self.new)) }
        ensures no_fault { OnOk result (faults self.new ≡ faults self.old) }
        ensures never_falls { faults self.old ≤ faults self.new };
}

/// The most bytes that one read asks for.
const CHUNK: usize = 4096;

/// Reads the source up to its end, and no more than `limit` bytes of it. Each read asks for 1 to
/// 4096 bytes, and none follows the one that answered 0 or that reached the limit. Where a read
/// failed, or there was no memory, what was read before is lost.
pub fn read_up_to<S: Source>(alloc: Global, src: &mut S, limit: usize) -> Result<Vec<u8>, ReadError>
    ensures within { IfOk result (λ bytes. vec_len bytes ≤ limit) }
    ensures bytes { IfOk result (λ bytes.
        IfSome (S.left src.old) (λ before. bytes.items ≡ take limit before)) }
    ensures rest { IfOk result (λ bytes. Consumes (S.left src.old) (S.left src.new) bytes.items) }
    ensures end { IfOk result (λ bytes. vec_len bytes < limit → IsAtEnd (S.left src.new)) }
    ensures failed { result ≡ Err ReadError.Failed → Rose (S.faults src.old) (S.faults src.new) }
    ensures no_fault { ¬ (result ≡ Err ReadError.Failed) → S.faults src.new ≡ S.faults src.old }
    ensures never_falls { S.faults src.old ≤ S.faults src.new }
{
    let mut bytes = Vec::new(alloc);
    while bytes.len() < limit {
        if read_chunk(src, &mut bytes, limit)? == 0 {
            return Ok(bytes);
        }
    }
    Ok(bytes)
}

// One read, whose bytes go to the end of `bytes`, and how many they are.
fn read_chunk<S: Source>(src: &mut S, bytes: &mut Vec<u8>, limit: usize) -> Result<usize, ReadError>
    requires { vec_len bytes.old < limit }
    ensures grown { IfOk result (λ n. vec_len bytes.new ≡ vec_len bytes.old + n) }
    ensures within { OnOk result (vec_len bytes.new ≤ limit) }
    ensures appends { StartsWith bytes.new.items bytes.old.items }
    ensures next { OnOk result (Consumes (S.left src.old) (S.left src.new)
        (appended_bytes bytes.old.items bytes.new.items)) }
    ensures end { IfOk result (λ n. n ≡ 0 → IsAtEnd (S.left src.new)) }
    ensures failed { result ≡ Err ReadError.Failed → Rose (S.faults src.old) (S.faults src.new) }
    ensures no_fault { ¬ (result ≡ Err ReadError.Failed) → S.faults src.new ≡ S.faults src.old }
    ensures never_falls { S.faults src.old ≤ S.faults src.new }
{
    let mut chunk = [0u8; CHUNK];
    let want = CHUNK.min(limit - bytes.len());
    let Ok(count) = src.read(&mut chunk[..want]) else {
        return Err(ReadError::Failed);
    };
    let Ok(()) = bytes.extend_from_slice(&chunk[..count]) else {
        return Err(ReadError::NoMemory);
    };
    Ok(count)
}
