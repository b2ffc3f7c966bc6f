//! What takes bytes, and writing a whole piece to it.
ghost use Rattle.std.specs.Prelude.{◌≡◌, ℕ, ◌<◌, ◌≤◌, List, [], Option, IfOk, IsOk, OnOk, OnErr, length, take};
ghost use Rattle.std.specs.Io.KnownBytes.{Appends};
ghost use Rattle.gh_io.specs.Counts.{Rose};
ghost use Rattle.gh_io.specs.Streams.{TookPart};

use crate::source::Failed;

/// What takes bytes, in order.
pub trait Sink {
    /// What it has taken, where it tells that.
    ghost taken: { Self → Option (List ℕ) };

    /// How many faults there were so far.
    ghost faults: { Self → ℕ };

    /// Takes the first bytes of `buf`, and answers how many: at least one, where there is one.
    /// `Failed` comes only where the count of faults rose, and then nothing was taken. A count only rises
    /// with it.
    fn write(&mut self, buf: &[u8]) -> Result<usize, Failed>
        ensures count { IfOk result (λ n. n ≤ length buf.now) }
        ensures some { IfOk result (λ n. 0 < length buf.now → 0 < n) }
        ensures next { IfOk result (λ n. Appends (taken self.old) (taken self.new) (take n buf.now)) }
        ensures kept { OnErr result (taken self.new ≡ taken self.old) }
        ensures failed { OnErr result (Rose (faults self.old) (faults self.new)) }
        ensures no_fault { OnOk result (faults self.new ≡ faults self.old) }
        ensures never_falls { faults self.old ≤ faults self.new };
}

/// Writes the piece, and the rest of it again until it is taken. An empty piece is not written.
pub fn write_all<K: Sink>(sink: &mut K, piece: &[u8]) -> Result<(), Failed>
    ensures ok { OnOk result (Appends (K.taken sink.old) (K.taken sink.new) piece.now) }
    ensures part { OnErr result (TookPart (K.taken sink.old) (K.taken sink.new) piece.now) }
    ensures failed { OnErr result (Rose (K.faults sink.old) (K.faults sink.new)) }
    ensures no_fault { OnOk result (K.faults sink.new ≡ K.faults sink.old) }
    ensures never_falls { K.faults sink.old ≤ K.faults sink.new }
    ensures empty { piece.now ≡ [] → IsOk result × (sink.new ≡ sink.old) }
{
    let mut at = 0;
    while at < piece.len() {
        at += sink.write(&piece[at..])?;
    }
    Ok(())
}
