//! What is told of a whole run.

ghost use Rattle.std.specs.Prelude.{◌≡◌};
ghost use Rattle.gh_lines.specs.Text.{agrees_line, credit_line, cycle_line, live_line, statements_line, turns_line};

use crate::LineBuf;

impl LineBuf {
    /// `cycle k marked M freed F`: how many objects the sweep of cycle `k` kept and freed.
    pub fn cycle(&mut self, k: u64, marked: u64, freed: u64)
        ensures { self.new ≡ cycle_line k marked freed }
    {
        self.begin(b"cycle ");
        self.put_number(k);
        self.put(b" marked ");
        self.put_number(marked);
        self.put(b" freed ");
        self.put_number(freed);
        self.put(b"\n");
    }

    /// `credit earned E spent S lapsed L`, in words of the heap.
    pub fn credit(&mut self, earned: u64, spent: u64, lapsed: u64)
        ensures { self.new ≡ credit_line earned spent lapsed }
    {
        self.begin(b"credit earned ");
        self.put_number(earned);
        self.put(b" spent ");
        self.put_number(spent);
        self.put(b" lapsed ");
        self.put_number(lapsed);
        self.put(b"\n");
    }

    /// `live N bytes B`: the objects that the last cycle marked, and the bytes of their slots.
    pub fn live(&mut self, objects: u64, bytes: u64)
        ensures { self.new ≡ live_line objects bytes }
    {
        self.begin(b"live ");
        self.put_number(objects);
        self.put(b" bytes ");
        self.put_number(bytes);
        self.put(b"\n");
    }

    /// `turns n`: a replay that ran out of its `n` turns.
    pub fn turns(&mut self, n: u64)
        ensures { self.new ≡ turns_line n }
    {
        self.begin(b"turns ");
        self.put_number(n);
        self.put(b"\n");
    }

    /// `statements C`: how many statements a script has, repetitions written out.
    pub fn statements(&mut self, n: u32)
        ensures { self.new ≡ statements_line n }
    {
        self.begin(b"statements ");
        self.put_number(u64::from(n));
        self.put(b"\n");
    }

    /// `agrees`: the heap that never frees answered the same.
    pub fn agrees(&mut self)
        ensures { self.new ≡ agrees_line }
    {
        self.begin(b"agrees\n");
    }
}
