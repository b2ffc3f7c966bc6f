//! A buffer that holds one line, and the pieces that lines are made of.
//!
//! Each piece says exactly what it appends and how long the line may be afterwards, so that a line's
//! proof is one step a piece.

ghost use Rattle.std.specs.Prelude.{◌≡◌, ℕ, ◌+◌, ◌≤◌, [], ◌++◌, length, decimal};

use itoa::Buffer;
use std::marker::Model;

/// The bytes that a line may have. The longest, `credit` with three numbers of 20 digits, has 90.
const ROOM: usize = 192;

/// A line of output: contracts see its bytes, the LF at its end included. A new one is empty, and
/// each call that names a line replaces what was there by that line.
#[derive(Debug, Drop)]
pub struct LineBuf {
    store: [u8; ROOM],
    filled: usize,
}

impl Model for LineBuf {
    ghost use Rattle.std.specs.Prelude.{ℕ, ◌≤◌, List, take};
    ghost use Rattle.gh_lines.specs.declared.buffer.TheConstants.{ROOM};

    ghost Value = { List ℕ };

    ghost view = { λ l. take l.filled l.store };

    ghost invariant = { λ l. l.filled ≤ ROOM };
}

impl LineBuf {
    /// A buffer with no line.
    pub fn new() -> LineBuf
        ensures { result ≡ [] }
    {
        LineBuf {
            store: [0; ROOM],
            filled: 0,
        }
    }

    /// The line's bytes.
    pub fn bytes(&self) -> &[u8]
        ensures { result.now ≡ self.now }
    {
        &self.store[..self.filled]
    }

    /// Begins a line with this piece.
    pub(crate) fn begin(&mut self, piece: &[u8])
        requires { length piece.now ≤ ROOM }
        ensures { self.new ≡ piece.now }
    {
        self.filled = 0;
        self.put(piece);
    }

    /// Appends this piece.
    pub(crate) fn put(&mut self, piece: &[u8])
        requires { length self.old + length piece.now ≤ ROOM }
        ensures text { self.new ≡ self.old ++ piece.now }
        ensures long { length self.new ≡ length self.old + length piece.now }
    {
        let end = self.filled + piece.len();
        self.store[self.filled..end].copy_from_slice(piece);
        self.filled = end;
    }

    /// Appends the number's decimal digits, 20 at most.
    pub(crate) fn put_number(&mut self, n: u64)
        requires { length self.old + 20 ≤ ROOM }
        ensures text { self.new ≡ self.old ++ decimal n }
        ensures short { length self.new ≤ length self.old + 20 }
    {
        let mut digits = Buffer::new();
        self.put(digits.format(n).as_bytes());
    }
}
