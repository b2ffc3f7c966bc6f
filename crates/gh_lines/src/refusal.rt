//! What is told where nothing was run.

ghost use Rattle.std.specs.Prelude.{◌≡◌, ◌≤◌, length};
ghost use Rattle.gh_lines.specs.Text.{bad_text_line, refusal_line, why_word, words_refused_line};

use crate::LineBuf;
use gh_script::Why;

fn why_word(why: Why) -> &'static [u8]
    ensures word { result.now ≡ why_word why }
    ensures short { length result.now ≤ 7 }
{
    match why {
        Why::Size => b"size",
        Why::Utf8 => b"utf8",
        Why::Word => b"word",
        Why::Number => b"number",
        Why::Limit => b"limit",
        Why::Twice => b"twice",
        Why::Unknown => b"unknown",
        Why::Nesting => b"nesting",
        Why::Missing => b"missing",
    }
}

impl LineBuf {
    /// `line n: why`: a text that is no script, by the first line that cannot be continued (0: no
    /// line) and its first cause, one of `size`, `utf8`, `word`, `number`, `limit`, `twice`,
    /// `unknown`, `nesting` and `missing`.
    pub fn bad_script(&mut self, line: u32, why: Why)
        ensures { self.new ≡ refusal_line line why }
    {
        self.bad_text(line, why_word(why));
    }

    /// `line n: why`: a text that is refused, by its first line that is at fault (0: no line) and the
    /// cause, a word of at most 64 bytes.
    pub fn bad_text(&mut self, line: u32, why: &[u8])
        requires { length why.now ≤ 64 }
        ensures { self.new ≡ bad_text_line line why.now }
    {
        self.begin(b"line ");
        self.put_number(u64::from(line));
        self.put(b": ");
        self.put(why);
        self.put(b"\n");
    }

    /// `words refused`: a command line that is none.
    pub fn bad_words(&mut self)
        ensures { self.new ≡ words_refused_line }
    {
        self.begin(b"words refused\n");
    }
}
